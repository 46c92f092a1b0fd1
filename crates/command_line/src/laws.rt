//! What writing numbers in digits changes. Each law is the contract of a function that does nothing.
ghost use Rattle.std.specs.Prelude.{◌≡◌, ◌^◌, ◌<◌, ℕ, List, None, decimal, true};
ghost use Rattle.command_line.specs.Given.{numeral_value};
ghost use Rattle.command_line.specs.Words.{is_numeral, stands_for};
ghost use Rattle.command_line.specs.declared.words.Shorthand.{Shorthand};

/// A number written in digits is read as itself.
pub fn what_is_written_out_is_read()
    ensures { (n : ℕ) → n < 2 ^ 128 → numeral_value (decimal n) ≡ n }
{}

/// A plain number stays as it was given.
pub fn plain_numbers_stay()
    ensures { (processors : ℕ) (takes : Shorthand) (text : List ℕ) → is_numeral text ≡ true
        → stands_for processors takes text ≡ None }
{}
