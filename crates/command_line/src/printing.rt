//! How a command prints its lines, its progress and the causes of faults, from words that the parser accepted.
ghost use Rattle.std.specs.Prelude.{◌≡◌, IfErr, IfOk, None, OnErr, false, Some, codes, option_map};
ghost use Rattle.clap.specs.Matches.{first_value, found_of};
ghost use Rattle.command_line.specs.Given.{IsFlag};

use crate::fault::UsageFault;
use clap::ArgMatches;

/// When a run shows its progress on standard error.
#[derive(Clone, Copy)]
pub enum Showing {
    /// It doesn't.
    Never,
    /// If standard error is a terminal.
    OnTerminal,
    /// It does.
    Always,
}

/// Returns when a run shows its progress.
pub fn showing_asked(matches: &ArgMatches<'_>) -> Showing
    ensures never { first_value (found_of matches.now) (codes "progress") ≡ None → result ≡ Showing.Never }
    ensures always { first_value (found_of matches.now) (codes "progress") ≡ Some (codes "always")
        → result ≡ Showing.Always }
    ensures terminal { first_value (found_of matches.now) (codes "progress") ≡ Some (codes "terminal")
        → result ≡ Showing.OnTerminal }
{
    match matches.get_str("progress") {
        None => Showing::Never,
        Some("always") => Showing::Always,
        Some(_) => Showing::OnTerminal,
    }
}

/// Returns whether a command was asked for the causes of faults.
pub fn verbose_asked(matches: &ArgMatches<'_>) -> bool
    ensures { IsFlag matches.now (codes "verbose") result }
{
    matches.get_flag("verbose")
}

/// Returns whether a command was asked to compare something with containers. `FilesAlone` if it wasn't, and there are
/// files or a list of them.
pub fn against_asked(matches: &ArgMatches<'_>) -> Result<bool, UsageFault>
    ensures asked { IfOk result (IsFlag matches.now (codes "against")) }
    ensures no_list { IfOk result (λ asked. asked ≡ false
        → first_value (found_of matches.now) (codes "files-from") ≡ None) }
    ensures alone { IfErr result (λ fault. fault ≡ UsageFault.FilesAlone) }
    ensures not_asked { OnErr result (IsFlag matches.now (codes "against") false) }
{
    let is_asked = matches.get_flag("against");
    let has_files = !matches.get_strs("FILE").unwrap_or(&[]).is_empty();
    if !is_asked && (has_files || matches.get_str("files-from").is_some()) {
        return Err(UsageFault::FilesAlone);
    }
    Ok(is_asked)
}

/// How a command prints its lines.
#[derive(Clone, Copy)]
pub struct Printing<'a> {
    /// Whether each line is a JSON object, and the last one has the totals.
    pub json: bool,
    /// Whether only the lines of files that failed are printed, and a last one with the totals.
    pub quiet: bool,
    /// The path of the lines against which containers are compared, if they are.
    pub against: Option<&'a str>,
    /// Whether the facts of good containers are printed in lines.
    pub show: bool,
    /// The folder of the outputs, if one is given.
    pub into: Option<&'a str>,
    /// Whether outputs keep the folders of their paths there.
    pub parents: bool,
    /// The name of the output, if one is given.
    pub to: Option<&'a str>,
}

/// Returns how a command is to print its lines.
pub fn printing_asked<'a>(matches: &ArgMatches<'a>) -> Printing<'a>
    ensures json { IsFlag matches.now (codes "json") result.json }
    ensures quiet { IsFlag matches.now (codes "quiet") result.quiet }
    ensures against { option_map (λ path. path.now) result.against ≡ first_value (found_of matches.now) (codes "against") }
    ensures show { IsFlag matches.now (codes "show") result.show }
    ensures into { option_map (λ into. into.now) result.into ≡ first_value (found_of matches.now) (codes "into") }
    ensures parents { IsFlag matches.now (codes "parents") result.parents }
    ensures to { option_map (λ to. to.now) result.to ≡ first_value (found_of matches.now) (codes "to") }
{
    Printing {
        json: matches.get_flag("json"),
        quiet: matches.get_flag("quiet"),
        against: matches.get_str("against"),
        show: matches.get_flag("show"),
        into: matches.get_str("into"),
        parents: matches.get_flag("parents"),
        to: matches.get_str("to"),
    }
}
