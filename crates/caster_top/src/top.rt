//! The call that the program makes.
ghost use Rattle.std.specs.Prelude.{◌≡◌, ◌≤◌, ◌<◌, ℕ, List, Some, Ok, Result, OnOk, OnErr};
ghost use Rattle.std.specs.Io.KnownBytes.{Appends};
ghost use Rattle.cast_io.specs.Causes.{Rose, HasCause};
ghost use Rattle.cast_io.specs.Pieces.{AppendsPrefix};
ghost use Rattle.caster_top.specs.Contract.{MeetsContract};
ghost use Rattle.caster_top.specs.Command.{AreKeep, CastNothing, FetchNothing, KeepNothing, form_of, texts};
ghost use Rattle.caster_top.specs.Outcome.{memory_exit};
ghost use Rattle.caster_top.specs.Told.{IsAsked};
ghost use Rattle.caster_top.specs.Answers.{exit_of, Writes};
ghost use Rattle.caster_top.specs.Given.{FileCame, FileGave, InputCame};
ghost use Rattle.caster_keep.specs.Keeping.{HasKept};
ghost use Rattle.caster_top.specs.Keeping.{HasKeeping, KeptToItsEnd};
ghost use Rattle.caster_top.specs.Kept.{LeavesInput, LeavesOutput, LeavesStore, LeavesStreet};
ghost use Rattle.caster_top.specs.Running.{EndsByAnswer, HasRun};

use crate::answers::{Answer, answer_to};
use crate::fetch_words::fetch_in;
use crate::fetching::fetch_frames;
use crate::keep_words::keep_in;
use crate::keeping::keep_serving;
use cast_console::Lodge;
use cast_io::{Door, Failed, Gate, Sink, Source, Store, Street, Yard};
use std::alloc::Global;
use std::sync::Wait;
use std::thread::Threads;

/// The status where a write failed.
const WRITE_FAULT: u8 = 5;

/// How many bytes are written at once.
const MAX_WRITE_BYTES: usize = 65_536;

/// Runs the command that the words are, which have no program name, over the files, the input, the
/// output and the street, and answers the status that the program ends with.
///
/// | Words | What is done | Written with status 0 |
/// |---|---|---|
/// | `bare C` | plays the input's script over a mountpoint `A` with a ring of C | the report |
/// | `check CONFIG` | tests the configuration in the file CONFIG | `ok` |
/// | `table CONFIG` | | its sourcetable |
/// | `migrate CONFIG` | | a document of version 2 that says it |
/// | `replay CONFIG SESSION` | plays the file SESSION over the configuration | the report |
/// | `warm CONFIG SESSION` | the same, with rovers that are greeted | the report with greetings |
/// | `make SEED FRAMES ROVERS` | makes the session of SEED and plays it | its laps and sums |
/// | `serve CONFIG ADDR LIMIT` | serves at ADDR, each worker LIMIT connections | what it came to |
/// | `record CONFIG ADDR LIMIT` | serves LIMIT connections by one thread | what happened |
/// | `keep CONFIG ADDR QUIET` | serves at ADDR until its gates are over | nothing more |
/// | `fetch FRAMES TARGET..` | asks the targets in order for FRAMES frames | the frames |
///
/// A `keep` writes to its place for lines: those of its links, and what it came to. It cuts links
/// that are silent for QUIET seconds.
///
/// C is from 1 to 4,096, CONFIG, SESSION and ADDR have 1 to 255 bytes. SEED is below 2^64, FRAMES
/// from 1 to 10,000, ROVERS from 1 to 64, LIMIT from 1 to 1,000,000, or for a record to 256, and
/// QUIET to 86,400, where 0 cuts no link. Numbers are decimal, without signs and leading zeros. A
/// session that is made is played over one mountpoint `A` with a ring of 64 frames. A fetch has
/// FRAMES from 1 to 1,000,000 and 1 to 8 targets of five words each, `PROTOCOL ADDR MOUNT USER
/// PASSWORD`: the version of NTRIP, 1 or 2, the caster's address of 1 to 100 bytes without CR and
/// LF, the mountpoint, the user or `-` for none, and a password of at most 100 bytes without CR, LF
/// and `;`. Where what is asked for is not to be had, one line says why; a fetch writes none:
///
/// | Status | Line | Comes |
/// |---|---|---|
/// | 1 | `usage` | exactly where the words are of no form |
/// | 2 | `configuration: toml`, or `configuration: TEST KEY` | where the file is none |
/// | 3 | `session: line N`, `session: state N`, `session: no stop` | where the script is none |
/// | 4 | `read fault` | only where a read of the input, or a call of the store, failed |
/// | 5 | | only where a write failed |
/// | 6 | `network fault` | where the network failed a caster |
/// | 7 | `memory` | where there is no memory |
/// | 8 | `too long` | where the script or the configuration has more than 8 MiB |
/// | 9 | | where a fetch tried every target, and there were fewer frames |
///
/// The words are tested first, then come the reading of the configuration, its size and its rules,
/// the reading of the script, its size, its grammar and the run. Nothing is written before the run
/// has ended, and the text is written in pieces of 65,536 bytes. A fetch writes each frame as it
/// comes, and nothing else. A caster that keeps serving writes its lines and its totals to the
/// place for lines that the street gives, and to the output at most the line that says why it
/// ended. Among its lines are those that say how things stand, each time that this is wanted at the
/// console of the lodge; no other command takes one.
///
/// The facts of the clause `call` have names (`specs/Contract.antt`). What follows from three of
/// them alone, `outcome`, `undisturbed` and `casting`, is said by the laws `outcome_says`,
/// `undisturbed_says` and `casting_says` (`src/laws.rt`).
pub fn caster<R: Threads + Wait + Sync, S: Store, I: Source, O: Sink, N: Yard, Z: Lodge>(
    rt: &R,
    alloc: Global,
    words: &[String],
    store: &mut S,
    input: &mut I,
    out: &mut O,
    street: &mut N,
    lodge: &mut Z,
) -> u8
where
    N::Door: Send,
    N::Link: Send,
    N::Gate: Send,
    N::Notes: Drop + Send,
    Z::Console: Send,
    // Fact by fact: what is done and written, of whatever words, and when each status comes.
    ensures call { MeetsContract (record {
      words = texts words.now;
      left = I.left input.old;
      files = (S.store store.old).files;
      input_log = record { before = I.log input.old; now = I.log input.new };
      store_log = record { before = S.log store.old; now = S.log store.new };
      asked = record { before = (S.store store.old).asked; now = (S.store store.new).asked };
      before = N.told street.old;
      after = N.told street.new;
      old = O.taken out.old;
      new = O.taken out.new;
      input_faults = record { before = I.faults input.old; now = I.faults input.new };
      store_faults = record { before = S.faults store.old; now = S.faults store.new };
      output_faults = record { before = O.faults out.old; now = O.faults out.new };
      status = result;
    }) }

    // What a caster does that keeps serving: the whole of it, over the configuration that came from
    // the file, and what that says with 0, and with 6.
    ensures keeping { (config addr : List ℕ) (quiet : ℕ)
        → AreKeep (texts words.now) config addr quiet
        → HasKeeping (HasKept N.Gate.told N.Gate.over N.Gate.peer N.Gate.origin
        N.Notes.taken N.Notes.faults
        (Z.back lodge.old) (Z.back lodge.new))
        (FileCame (S.store store.old).files (S.log store.old) (S.log store.new)) config addr quiet
        (N.kept street.old) (N.kept street.new)
        (Rose (S.faults store.old) (S.faults store.new))
        (O.taken out.old) (O.taken out.new) (O.faults out.old) (O.faults out.new) result }
    ensures kept_to_its_end { result ≡ 0 → (config addr : List ℕ) (quiet : ℕ)
        → AreKeep (texts words.now) config addr quiet
        → KeptToItsEnd N.Gate.told N.Gate.over N.Gate.peer N.Gate.origin
        N.Notes.taken N.Notes.faults (Z.back lodge.old) (Z.back lodge.new)
        (FileGave (S.store store.old).files (S.log store.old) (S.log store.new)) config addr quiet
        (N.kept street.old) (N.kept street.new) (O.taken out.old) (O.taken out.new) }
    ensures kept_network_fault { result ≡ 6 → (config addr : List ℕ) (quiet : ℕ)
        → AreKeep (texts words.now) config addr quiet
        → Rose (N.kept street.old).faults (N.kept street.new).faults }

    // What is not touched.
    ensures kept_input { LeavesInput I.left I.faults I.reads (texts words.now) input.old input.new }
    ensures kept_store { LeavesStore S.store S.faults S.reads (texts words.now)
        store.old store.new }
    ensures kept_street { LeavesStreet N.told (texts words.now) result street.old street.new }
    ensures kept_lodge { KeepNothing (texts words.now) → Z.back lodge.new ≡ Z.back lodge.old }
{
    run_words(rt, alloc, words, store, input, out, street, lodge)
}

// Runs the command that the words are, and says how the run ended.
fn run_words<R: Threads + Wait + Sync, S: Store, I: Source, O: Sink, N: Yard, Z: Lodge>(
    rt: &R,
    alloc: Global,
    words: &[String],
    store: &mut S,
    input: &mut I,
    out: &mut O,
    street: &mut N,
    lodge: &mut Z,
) -> u8
where
    N::Door: Send,
    N::Link: Send,
    N::Gate: Send,
    N::Notes: Drop + Send,
    Z::Console: Send,
    ensures run { HasRun
        (HasKept N.Gate.told N.Gate.over N.Gate.peer N.Gate.origin N.Notes.taken N.Notes.faults
        (Z.back lodge.old) (Z.back lodge.new))
        (texts words.now)
        (InputCame (I.left input.old) (I.log input.old) (I.log input.new))
        (FileCame (S.store store.old).files (S.log store.old) (S.log store.new))
        (Rose (I.faults input.old) (I.faults input.new))
        (Rose (S.faults store.old) (S.faults store.new))
        (N.kept street.old) (N.kept street.new) (N.told street.old) (N.told street.new)
        (O.taken out.old) (O.taken out.new) (O.faults out.old) (O.faults out.new) result }
    ensures asked { IsAsked (form_of (texts words.now)) (S.store store.old).files
        (S.store store.old).asked (S.store store.new).asked }
    ensures kept_input { LeavesInput I.left I.faults I.reads (texts words.now) input.old input.new }
    ensures kept_store { LeavesStore S.store S.faults S.reads (texts words.now)
        store.old store.new }
    ensures kept_street { LeavesStreet N.told (texts words.now) result street.old street.new }
    ensures kept_lodge { KeepNothing (texts words.now) → Z.back lodge.new ≡ Z.back lodge.old }
    ensures kept_output { LeavesOutput (O.faults out.old) (O.faults out.new) result }
{
    match fetch_in(words) {
        Some(fetch) => fetch_frames(rt, alloc, fetch.frames, fetch.targets, street, out),
        None => keep_or_answer(rt, alloc, words, store, input, out, street, lodge),
    }
}

// Runs the command of words that ask for no fetch.
fn keep_or_answer<R: Threads + Wait + Sync, S: Store, I: Source, O: Sink, N: Yard, Z: Lodge>(
    rt: &R,
    alloc: Global,
    words: &[String],
    store: &mut S,
    input: &mut I,
    out: &mut O,
    street: &mut N,
    lodge: &mut Z,
) -> u8
where
    N::Door: Send,
    N::Link: Send,
    N::Gate: Send,
    N::Notes: Drop + Send,
    Z::Console: Send,
    requires { FetchNothing (texts words.now) }
    ensures run { HasRun
        (HasKept N.Gate.told N.Gate.over N.Gate.peer N.Gate.origin N.Notes.taken N.Notes.faults
        (Z.back lodge.old) (Z.back lodge.new))
        (texts words.now)
        (InputCame (I.left input.old) (I.log input.old) (I.log input.new))
        (FileCame (S.store store.old).files (S.log store.old) (S.log store.new))
        (Rose (I.faults input.old) (I.faults input.new))
        (Rose (S.faults store.old) (S.faults store.new))
        (N.kept street.old) (N.kept street.new) (N.told street.old) (N.told street.new)
        (O.taken out.old) (O.taken out.new) (O.faults out.old) (O.faults out.new) result }
    ensures asked { IsAsked (form_of (texts words.now)) (S.store store.old).files
        (S.store store.old).asked (S.store store.new).asked }
    ensures kept_input { LeavesInput I.left I.faults I.reads (texts words.now) input.old input.new }
    ensures kept_store { LeavesStore S.store S.faults S.reads (texts words.now)
        store.old store.new }
    ensures kept_street { LeavesStreet N.told (texts words.now) result street.old street.new }
    ensures kept_lodge { KeepNothing (texts words.now) → Z.back lodge.new ≡ Z.back lodge.old }
    ensures kept_output { LeavesOutput (O.faults out.old) (O.faults out.new) result }
{
    match keep_in(words) {
        Some(keep) => keep_serving(rt, alloc, keep, store, street, lodge, out),
        None => answer_words(rt, alloc, words, store, input, out, street),
    }
}

// Runs the command of words that ask for no fetch, and for no caster that keeps serving.
fn answer_words<R: Threads + Wait + Sync, S: Store, I: Source, O: Sink, N: Street>(
    rt: &R,
    alloc: Global,
    words: &[String],
    store: &mut S,
    input: &mut I,
    out: &mut O,
    street: &mut N,
) -> u8
where
    N::Door: Send,
    N::Link: Send,
    requires fetch { FetchNothing (texts words.now) }
    requires keep { KeepNothing (texts words.now) }
    ensures run { EndsByAnswer (texts words.now)
        (InputCame (I.left input.old) (I.log input.old) (I.log input.new))
        (FileCame (S.store store.old).files (S.log store.old) (S.log store.new))
        (Rose (I.faults input.old) (I.faults input.new))
        (Rose (S.faults store.old) (S.faults store.new))
        (N.told street.old) (N.told street.new) (O.taken out.old) (O.taken out.new)
        (O.faults out.old) (O.faults out.new) result }
    ensures asked { IsAsked (form_of (texts words.now)) (S.store store.old).files
        (S.store store.old).asked (S.store store.new).asked }
    ensures kept_input { LeavesInput I.left I.faults I.reads (texts words.now) input.old input.new }
    ensures kept_store { LeavesStore S.store S.faults S.reads (texts words.now)
        store.old store.new }
    ensures kept_output { LeavesOutput (O.faults out.old) (O.faults out.new) result }
    ensures street_faults { (N.told street.old).faults ≤ (N.told street.new).faults }
    ensures alone { CastNothing (texts words.now) → street.new ≡ street.old }
{
    let answer = answer_to(rt, alloc, words, store, input, street);
    end_with(answer, out)
}

/// Says that there was no memory for the words themselves, and answers the status.
pub fn refuse_for_memory<O: Sink>(out: &mut O) -> u8
    ensures { Writes memory_exit (O.taken out.old) (O.taken out.new)
        (O.faults out.old) (O.faults out.new) result }
{
    write_answer(&Answer::Memory, out)
}

/// Writes the text of the answer, which is let go, and gives its status, or that of a failed write.
pub(crate) fn end_with<O: Sink>(answer: Answer, out: &mut O) -> u8
    ensures writes { Writes (exit_of answer) (O.taken out.old) (O.taken out.new)
        (O.faults out.old) (O.faults out.new) result }
    ensures kept_output { LeavesOutput (O.faults out.old) (O.faults out.new) result }
{
    write_answer(&answer, out)
}

/// Writes the answer's text and gives its status, or that of a failed write.
pub(crate) fn write_answer<O: Sink>(answer: &Answer, out: &mut O) -> u8
    ensures writes { Writes (exit_of answer.now) (O.taken out.old) (O.taken out.new)
        (O.faults out.old) (O.faults out.new) result }
    ensures kept_output { LeavesOutput (O.faults out.old) (O.faults out.new) result }
{
    match write_text(answer.text(), out) {
        Ok(()) => answer.status(),
        Err(Failed) => WRITE_FAULT,
    }
}

// Writes the text in pieces, of which the last may be shorter.
fn write_text<O: Sink>(text: &[u8], out: &mut O) -> Result<(), Failed>
    ensures whole { OnOk result (Appends (O.taken out.old) (O.taken out.new) text.now) }
    ensures torn { OnErr result (AppendsPrefix (O.taken out.old) (O.taken out.new) text.now) }
    ensures cause { HasCause (O.faults out.old) (O.faults out.new) result }
    ensures unharmed { OnOk result (O.faults out.new ≡ O.faults out.old) }
{
    let mut at = 0;
    while at < text.len() {
        let end = at + MAX_WRITE_BYTES.min(text.len() - at);
        let Ok(()) = out.write(&text[at..end]) else {
            return Err(Failed);
        };
        at = end;
    }
    Ok(())
}
