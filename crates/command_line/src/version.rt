//! The program's version.

/// The program's version; in brackets the logic in which it is proved, as the last words of `rt version`; and the commit.
/// Version and logic are changed only here, and `tools/program_runs.sh` compares the latter with the installed one.
/// `not-recorded` stays: a commit can't be in its own sources. `tools/link_static.py` puts the first twelve digits of the
/// commit in its place in a release's programs.
pub const VERSION: &str = "1.0.0 (Rattle logic dac8208d650f15bf) commit not-recorded";
