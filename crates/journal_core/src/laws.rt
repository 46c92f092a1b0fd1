//! Laws of the terms that the ledger's contracts use. Each law is the contract of a function that does nothing.
ghost use Rattle.std.specs.Prelude.{◌≡◌, ◌<◌, ◌≤◌, ◌+◌, ℕ, List};
ghost use Rattle.journal_core.specs.declared.entry.Entry.{Entry};
ghost use Rattle.journal_core.specs.declared.entry.Event.{Event};
ghost use Rattle.journal_core.specs.declared.verdict.Verdict.{Verdict};
ghost use Rattle.journal_core.specs.History.{
  Begins,
  IsClosed,
  IsIssue,
  IsLawful,
  Legal,
  MayFollow,
  Terms,
  entry,
  granted,
  refused,
  sealed,
  tally_of,
  voided,
};
ghost use Rattle.journal_core.specs.Prefixes.{GrantsOnce};
ghost use Rattle.journal_core.specs.Range.{most_device, most_size, number_limit, prefix_of};
ghost use Rattle.journal_core.specs.Text.{journal_text};
ghost use Rattle.journal_core.specs.Verdict.{IsVerdict};

use crate::journal::Journal;

/// Every prefix of a legal history is legal.
pub fn a_beginning_is_legal()
    ensures { (terms : Terms) (front whole : List Entry) → Legal terms whole → Begins front whole → Legal terms front }
{}

/// The counts of a legal history stay small: at most 65,535 issues are granted and 64 refused. No more numbers are
/// settled than were granted.
pub fn counts_stay_small()
    ensures { (terms : Terms) (history : List Entry) → IsLawful terms → Legal terms history
        → (granted history ≤ most_size) × (refused history ≤ 64) × (sealed history + voided history ≤ granted history) }
{}

/// The history determines the reply of the next issue. Two replies that may follow it, at whatever seats, are equal. A
/// seat that isn't closed has such a reply. So any ledger replies what a book replies.
pub fn one_reply_fits()
    ensures one { (terms : Terms) (history : List Entry) (seat other : ℕ) (reply answer : Event)
        → IsIssue reply → IsIssue answer → MayFollow terms history (entry seat reply)
        → MayFollow terms history (entry other answer) → reply ≡ answer }
    ensures some { (terms : Terms) (history : List Entry) (seat : ℕ) → Legal terms history → seat < terms.seats
        → ¬ IsClosed seat history → (reply : Event) × IsIssue reply × MayFollow terms history (entry seat reply) }
{}

/// No list of bytes is without a verdict.
pub fn bytes_have_a_verdict()
    ensures { (bytes : List ℕ) → ¬ ((verdict : Verdict) → ¬ IsVerdict bytes verdict) }
{}

/// No list of bytes has two verdicts.
pub fn bytes_have_one_verdict()
    ensures { (bytes : List ℕ) (one other : Verdict) → IsVerdict bytes one → IsVerdict bytes other → one ≡ other }
{}

/// The verdict on the text of a legal journal is `legal`, with its counts.
pub fn a_legal_journal_is_legal()
    ensures { (terms : Terms) (history : List Entry) → IsLawful terms → Legal terms history
        → IsVerdict (journal_text terms history) (Verdict.Legal (tally_of history)) }
{}

/// Different devices, or different numbers of one device, have different prefixes.
pub fn a_prefix_tells_its_number()
    ensures { (device number other_device other_number : ℕ) → device ≤ most_device → number < number_limit
        → other_device ≤ most_device → other_number < number_limit
        → prefix_of device number ≡ prefix_of other_device other_number
        → (device ≡ other_device) × (number ≡ other_number) }
{}

/// All numbers granted in a journal are in its range, and no prefix is granted twice.
pub fn grants_of_journal(journal: &Journal)
    ensures { GrantsOnce journal.now.terms journal.now.history }
{
    let _legal = journal.entries();
}
