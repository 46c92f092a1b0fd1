//! What follows from the law of `Outputs`, at every moment of a run; what a stretch of one adds to its record; what a line
//! shows of a name, and where a path has its place. Each law is the contract of a function that does nothing.
ghost use Rattle.std.specs.Prelude.{◌≡◌, ◌≢◌, ◌++◌, ℕ, All, IsUtf8, List, None, Option, Some, [], codes, length};
ghost use Rattle.std.specs.Prelude.{IfSome, option_map};
ghost use Rattle.io_core.specs.Streams.{IsFront};
ghost use Rattle.journal_core.specs.Range.{Numbers};
ghost use Rattle.output_core.specs.Bounds.{Admits};
ghost use Rattle.folder_core.specs.Record.{Content, Created, Entry, IsSound, IsSoundWith, RunRecord, State, bound_in, times_begun};
ghost use Rattle.folder_core.specs.Changes.{Becomes, Closes, HasStreamAlone, IsFresh, IsKept, IsNewStream, IsUnstarted};
ghost use Rattle.folder_core.specs.Changes.{allowed, new_output, started, whole, with_entry};
ghost use Rattle.folder_core.specs.Growth.{Grows, PutsOut};
ghost use Rattle.folder_core.specs.Quotes.{quoted, unquoted};
ghost use Rattle.folder_core.specs.Trees.{IsStep, place, steps};

use crate::folder::Outputs;

/// At every moment the whole record is sound, with the bytes that the output in hand took.
pub fn accounts_are_sound<F: Outputs>()
    ensures { (outputs : F) (r : RunRecord) (held : List ℕ) → F.rest outputs ≡ Some r → F.taken outputs ≡ Some held
        → ∥ IsSound (whole r held) ∥₁ }
{}

/// A run that is killed within a write leaves a prefix of the bytes of that call. Whichever it is, the record is sound.
pub fn cut_writes_are_sound<F: Outputs>()
    ensures { (outputs : F) (r : RunRecord) (held bytes front : List ℕ) → F.rest outputs ≡ Some r
        → F.taken outputs ≡ Some held → Admits (option_map bound_in (F.rest outputs)) (F.taken outputs) bytes
        → IsFront front bytes → ∥ IsSound (whole r (held ++ front)) ∥₁ }
{}

/// Before a run has a key no output has a number. So its record, with nothing in hand, is sound with any key and range.
pub fn no_number_without_a_key()
    ensures none { (r : RunRecord) (number : ℕ) → IsSound r → r.under ≡ None → times_begun number r.entries ≡ 0 }
    ensures started { (r : RunRecord) (taken : Option (List ℕ)) (key : List ℕ) (range : Numbers) → IsUnstarted r
        → IsSoundWith (Some r) taken → IsSoundWith (Some (started key range r)) taken }
{}

/// A new stream stays new until it is taken in hand. Then it is alone in hand, and what it took and how many writes failed
/// is as it was: nothing, or unknown, if its record is known.
pub fn a_stream_goes_on()
    ensures told { (place : ℕ) (entry : Entry) (before after : Option RunRecord) → IfSome before (IsNewStream place)
        → Becomes (with_entry entry) before after → IfSome after (IsNewStream place) }
    ensures started { (place : ℕ) (key : List ℕ) (range : Numbers) (before after : Option RunRecord)
        → IfSome before (IsNewStream place) → Becomes (started key range) before after
        → IfSome after (IsNewStream place) }
    ensures alone { (place : ℕ) (content : Content) (before after : Option RunRecord)
        → IfSome before (IsNewStream place) → Becomes (allowed place content) before after
        → IfSome after HasStreamAlone }
    ensures kept { (place : ℕ) (content : Content) (before after : Option RunRecord)
        (taken taken' : Option (List ℕ)) (failures failures' : Option ℕ)
        → Becomes (allowed place content) before after → IsFresh before taken failures
        → IsFresh after taken' failures' → IsKept after taken taken' failures failures'
        → (taken' ≡ taken) × (failures' ≡ failures) }
{}

/// An output that is created, taken in hand and closed is one entry after all others. Nothing was in hand before.
pub fn an_output_is_one_entry()
    ensures { (name : List ℕ) (content : Content) (state : State) (taken : Option (List ℕ)) (failures : Option ℕ)
        (place : ℕ) (before created ready after : Option RunRecord) → IfSome before (λ r. r.in_hand ≡ None)
        → IfSome before (λ r. place ≡ length r.entries)
        → Becomes (with_entry (Created (new_output name))) before created
        → Becomes (allowed place content) created ready → Closes state ready taken failures after
        → Grows (PutsOut name content state taken failures) before after }
{}

/// A name that is text is read back from what a line shows of it. So no two such names are shown alike.
pub fn what_is_shown_is_read()
    ensures { (name : List ℕ) → IsUtf8 name → unquoted (quoted name) ≡ Some name }
{}

/// What a line shows of other bytes is read as no name.
pub fn other_bytes_are_not_read()
    ensures { (name : List ℕ) → (IsUtf8 name → ⊥) → unquoted (quoted name) ≡ None }
{}

/// A line shows no line feed of a name.
pub fn a_name_adds_no_line()
    ensures { (name : List ℕ) → All (λ byte. byte ≢ 10) (quoted name) }
{}

/// An ending `.stm` stays: a line shows of a container's name what it shows of its FILE's, and `.stm`.
pub fn an_ending_stays()
    ensures { (name : List ℕ) → IsUtf8 name → quoted (name ++ codes ".stm") ≡ quoted name ++ codes ".stm" }
{}

/// A place is below the folder: it has a part, and each part is a name without slashes, neither `.` nor `..`.
pub fn a_place_stays_below()
    ensures { (path : List ℕ) → (parts : List (List ℕ)) → place path ≡ Some parts → (parts ≢ []) × All IsStep parts }
{}

/// Two paths with different places have different outputs below a folder.
pub fn places_stay_apart()
    ensures { (path other folder : List ℕ) → (one two : List (List ℕ)) → place path ≡ Some one → place other ≡ Some two
        → folder ++ steps one ≡ folder ++ steps two → one ≡ two }
{}
