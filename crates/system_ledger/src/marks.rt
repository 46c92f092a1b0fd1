//! The marks of a ledger: for each key and device, the first number of its next range.
ghost use Rattle.std.specs.Prelude.{◌↔◌, IsTrue};
ghost use Rattle.std.specs.List.{Any};
ghost use Rattle.system_ledger.specs.Marks.{AreKeptBy, IsKeptBy};

/// A row of a ledger's table of marks.
#[derive(Drop)]
pub struct Mark {
    /// The key ID.
    pub key: Vec<u8>,
    pub device: i64,
    /// The first number of the next range.
    pub next: i64,
}

/// Returns whether each of these marks is kept by one of the others: same key and device, and `next` not less.
pub fn keeps_marks(marks: &[Mark], others: &[Mark]) -> bool
    ensures kept { IsTrue result ↔ AreKeptBy marks.now others.now }
{
    for mark in marks {
        if !is_kept(mark, others) {
            return false;
        }
    }
    true
}

// Whether one of these marks keeps it.
fn is_kept(mark: &Mark, others: &[Mark]) -> bool
    ensures { IsTrue result ↔ Any (IsKeptBy mark.now) others.now }
{
    for other in others {
        if keeps(mark, other) {
            return true;
        }
    }
    false
}

// Whether the other mark keeps this one.
fn keeps(mark: &Mark, other: &Mark) -> bool
    ensures { IsTrue result ↔ IsKeptBy mark.now other.now }
{
    other.device == mark.device
        && other.next >= mark.next
        && other.key.as_slice() == mark.key.as_slice()
}
