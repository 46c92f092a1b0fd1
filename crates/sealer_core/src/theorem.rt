//! The theorems over runs: under one key no nonce is used twice, and what was opened was sealed. Their definitions are
//! in `specs/Theorem.antt`, and for the second in `specs/Restored.antt`.
ghost use Rattle.std.specs.Prelude.{◌≡◌, ◌<◌, ◌≤◌, ℕ, ◌+◌, ◌*◌, ◌^◌, List, ◌++◌, length, Option, Some, IfSome, Ok};
ghost use Rattle.std.specs.Prelude.{option_map};
ghost use Rattle.sha2.specs.Sha256.{sha256};
ghost use Rattle.container_core.specs.Chunks.{tag_size};
ghost use Rattle.container_core.specs.Container.{container, header_of};
ghost use Rattle.container_core.specs.Opening.{opening};
ghost use Rattle.container_core.specs.Shape.{IsShape, ShapeView, size_of};
ghost use Rattle.command_core.specs.Turns.{Printed};
ghost use Rattle.command_core.specs.Work.{output_for};
ghost use Rattle.folder_core.specs.Changes.{IsUnstarted, started, whole};
ghost use Rattle.folder_core.specs.Record.{Happened, Read, RunRecord, bound_in};
ghost use Rattle.folder_core.specs.Record as record_of;
ghost use Rattle.io_core.specs.Streams.{IsFront};
ghost use Rattle.journal_core.specs.declared.entry.Entry.{Entry};
ghost use Rattle.journal_core.specs.declared.terms.Terms.{Terms};
ghost use Rattle.journal_core.specs.Journal.{terms_of};
ghost use Rattle.journal_core.specs.Range.{IsLawfulRange, Numbers, prefix_of};
ghost use Rattle.output_core.specs.Bounds.{Admits};
ghost use Rattle.sqlite_wal.specs.Recovery.{Image};
ghost use Rattle.sealer_core.specs.Piping.{HasSealedStream, PipeView};
ghost use Rattle.sealer_core.specs.Restored.{HasOpenedFiles, HasSealedFiles, IsFinishedAfter, IsFinishedIn, IsOpenedIn};
ghost use Rattle.sealer_core.specs.Restored.{WasOpened, WasSealed};
ghost use Rattle.sealer_core.specs.Sealing.{HasSealed, SealedUnder, container_by, sealed_name, sealed_under};
ghost use Rattle.sealer_core.specs.Theorem.{AreRunsOf, FoldsFrom, HasChunk, IsKeyedBy, IsLeftOf, IsOutputAt, IsRun};
ghost use Rattle.sealer_core.specs.Theorem.{IsOfStream, Position, Run};

use crate::laws::no_two_outputs_have_one_prefix;
use container_core::laws::{containers_differ, opens_exactly_its_container};
use folder_core::Outputs;
use folder_core::laws::{accounts_are_sound, cut_writes_are_sound};
use reserve_core::LedgerFile;
use sqlite::Files;
use sqlite_disk::Disk;

/// No nonce is used twice. Take any number of runs of `seal_all` and `pipe_all` under one key, as any devices, each
/// ended or killed, over any disks. Each finds in the ledger file of its device all ranges that those before it left there
/// (`PassesOn`, also over crashes). `a_call_is_a_run` shows that a call whose record is known is such a run.
///
/// `sealed`: what each output held that may hold a container begins one, of some plaintext, under the key and its number of
/// its run's range. So it begins a header and chunks in order, each sealed by the AEAD under the nonce at its place
/// (`laws::containers_are_sealed_under_their_nonces`). Of a chunk that is cut within its ciphertext that says nothing but its
/// length. By `IsSound` other outputs hold nothing, or begin what was opened. `each`: each chunk, with a number of 32 bits,
/// of which they have any byte has a nonce. `once`: two chunks with one nonce, of any such outputs, are the same chunk of
/// the same output of the same run. Nothing is said of secrecy, or of the AEAD's strength.
pub fn no_nonce_is_used_twice()
    ensures sealed { (key : List ℕ) (runs : ℕ → List Run) (place : Position) → AreRunsOf key runs
        → (at : IsOutputAt runs place) → (range : Numbers) × (range.device ≡ place.device)
        × IsKeyedBy key range at.run.written × ∥ IsShape at.shape × ((range.lo ≤ at.number)
        × (at.number < range.lo + range.size)) × ((plain : List ℕ)
        × IsFront at.output.bytes (container key at.shape (prefix_of place.device at.number) plain)) ∥₁ }
    ensures each { (key : List ℕ) (runs : ℕ → List Run) (place : Position) (chunk : ℕ) → AreRunsOf key runs
        → (at : IsOutputAt runs place) → length (header_of key at.shape (prefix_of place.device at.number))
        + chunk * (size_of at.shape + tag_size) < length at.output.bytes → chunk < 2 ^ 32
        → ∥ ((nonce : List ℕ) × HasChunk key at.output.bytes chunk nonce) ∥₁ }
    ensures once { (key : List ℕ) (runs : ℕ → List Run) (one other : Position) (chunk another : ℕ) (nonce : List ℕ)
        → AreRunsOf key runs → (at : IsOutputAt runs one) → (also : IsOutputAt runs other)
        → HasChunk key at.output.bytes chunk nonce → HasChunk key also.output.bytes another nonce
        → (one ≡ other) × (chunk ≡ another) }
{
    no_two_outputs_have_one_prefix();
}

/// A call is a run of the theorem, whether it ended or was killed. Where the record is known: `any`, at any moment, with the
/// bytes that the output in hand took; `cut`, within a write of which a front was written. The law of `Outputs` makes both
/// sound. The premises on the ledger are that the call folded a range, and that a crash may leave these files of it. That a
/// killed call had folded one is shown when it declares under which key and range containers begin (`SealingOutputs::start`,
/// clause `stands`); that it was shown the call's own ledger file is read in the code.
///
/// `streams`, without a record, of a call of `pipe_all` that ended, over a reader and a writer that report what they did: as
/// its clause `run` says, its one output is what the writer took during the call.
///
/// Key and range are those that `start` gave the record; no other call changes them. `files` and `stream`, of a call of
/// `seal_all` and `pipe_all` that ended: clause `run` shows this, and of files that the record has the bytes of all its
/// outputs. A stream stays in hand.
pub fn a_call_is_a_run<D: Disk + Drop, F: Outputs>()
    ensures any { (key : List ℕ) (device : ℕ) (start files : Image) (left : Files D) (range : Numbers) (outputs : F)
        (r : RunRecord) (held : List ℕ)
        → FoldsFrom {g = D.Disk} LedgerFile.Kept LedgerFile.Folded (sha256 key) device start left range
        → IsLeftOf D.Disk left files → IsLawfulRange range → F.rest outputs ≡ Some r → F.taken outputs ≡ Some held
        → IsKeyedBy key range r → IsRun key device (record { start = start; files = files; written = whole r held }) }
    ensures cut { (key : List ℕ) (device : ℕ) (start files : Image) (left : Files D) (range : Numbers) (outputs : F)
        (r : RunRecord) (held bytes front : List ℕ)
        → FoldsFrom {g = D.Disk} LedgerFile.Kept LedgerFile.Folded (sha256 key) device start left range
        → IsLeftOf D.Disk left files → IsLawfulRange range → F.rest outputs ≡ Some r → F.taken outputs ≡ Some held
        → IsKeyedBy key range r → Admits (option_map bound_in (F.rest outputs)) (F.taken outputs) bytes → IsFront front bytes
        → IsRun key device (record { start = start; files = files; written = whole r (held ++ front) }) }
    ensures streams { (key input taken after : List ℕ) (device most place status : ℕ) (start files : Image) (left : Files D)
        (range : Numbers) (shape : ShapeView) (old new : PipeView) (history : List Entry) (line line_then : Printed)
        → FoldsFrom {g = D.Disk} LedgerFile.Kept LedgerFile.Folded (sha256 key) device start left range
        → IsLeftOf D.Disk left files → IsLawfulRange range → IsShape shape
        → HasSealedStream (sealed_under key shape range.device most) place old new (terms_of range 1) history status
        line line_then → old.stream.left ≡ Some input → old.stream.taken ≡ Some taken → new.stream.taken ≡ Some after
        → (bytes : List ℕ) × (after ≡ taken ++ bytes) × (written : RunRecord) × IsOfStream key range shape bytes written
        × IsRun key device (record { start = start; files = files; written = written }) }
    ensures files { (key : List ℕ) (range : Numbers) (under : SealedUnder) (names : List (List ℕ)) (terms : Terms)
        (history : List Entry) (status : ℕ) (old new : Printed) (before : Option RunRecord) (after : RunRecord)
        → IfSome before IsUnstarted
        → HasSealed under names terms history status old new (option_map (started key range) before) (Some after)
        → IsKeyedBy key range after × ((held : List ℕ) → whole after held ≡ after) }
    ensures stream { (key : List ℕ) (range : Numbers) (under : SealedUnder) (place : ℕ) (old new : PipeView) (terms : Terms)
        (history : List Entry) (status : ℕ) (line line_then : Printed) (before : Option RunRecord) (after : RunRecord)
        → HasSealedStream under place old new terms history status line line_then
        → old.rest ≡ option_map (started key range) before → new.rest ≡ Some after → IsKeyedBy key range after }
{
    accounts_are_sound::<F>();
    cut_writes_are_sound::<F>();
}

/// What was opened was sealed. Take any run that ended, of `seal_all` or `pipe_all`, and any call of `open_all` or
/// `unpipe_all` that ended, under one key, whose folders, readers and writers told what they did. `same`: if the call opened
/// bytes (of a file that is read twice, those of the last reading) to which the run had sealed an input, what it opened is
/// that input, byte for byte. That nobody else can make bytes that open is not said, nor that sealed bytes do open.
///
/// For each alone: an output that `seal_all` finished is the container of what it had read of a file (`sealed`), and one that
/// `open_all` finished is what the bytes of the last reading of a file open to (`opened`). That reading is right before the
/// output in the record.
pub fn what_was_opened_was_sealed()
    ensures same { (under : SealedUnder) (input bytes plain : List ℕ) → WasSealed under input bytes
        → WasOpened under.key bytes plain → plain ≡ input }
    ensures sealed { (under : SealedUnder) (entries : List record_of.Entry) (output bytes : List ℕ)
        → HasSealedFiles under entries → IsFinishedIn entries output bytes → (file : List ℕ) × (input : List ℕ)
        × (number : ℕ) × (output ≡ sealed_name file) × (bytes ≡ container_by under number input)
        × IsFinishedAfter (Happened (Read file input)) entries output bytes }
    ensures opened { (key : List ℕ) (to : Option (List ℕ)) (entries : List record_of.Entry) (output plain : List ℕ)
        → HasOpenedFiles key to entries → IsFinishedIn entries output plain → (file : List ℕ) × (bytes : List ℕ)
        × (most : ℕ) × (output ≡ output_for to file) × IsOpenedIn to entries file bytes plain
        × (opening key most bytes ≡ Ok plain) }
{
    containers_differ();
    opens_exactly_its_container();
}
