//! What is decided before anything is written.
ghost use Rattle.std.specs.Prelude.{◌≡◌, ◌≤◌, ◌+◌, ◌*◌, ℕ, List, length};
ghost use Rattle.cast_io.specs.Causes.{Rose};
ghost use Rattle.cast_io.specs.Pieces.{Loses};
ghost use Rattle.caster_top.specs.declared.command.CasterMode.{CasterMode};
ghost use Rattle.caster_top.specs.Command.{AreCasting, CastNothing, FetchNothing, IsWithin, KeepNothing, NamesNoFile, ReadsNoInput, files_of, form_of, offline_form, texts};
ghost use Rattle.caster_top.specs.Outcome.{exactly, whole_exit};
ghost use Rattle.caster_top.specs.Given.{FileCame, InputCame};
ghost use Rattle.caster_top.specs.Kept.{KeepsFiles, LeavesInput, LeavesStore};
ghost use Rattle.caster_top.specs.Told.{IsAsked};
ghost use Rattle.caster_top.specs.Answers.{answer_of_fault, exit_of, IsAnswer, IsOfflineAnswer, GivesEnd};
ghost use Rattle.caster_top.specs.Casting.{IsCastingAnswer};
ghost use Rattle.run_texts.specs.Texts.{made_text};

use crate::casting_answers::answer_to_cast;
use crate::command::{Command, Offline, command_of};
use crate::config_answers::answer_over;
use crate::session_answers::{answer_to_input, answer_to_replay};
use cast_io::{ReadAllFault, Source, Store, Street};
use run_texts::made_text;
use std::alloc::{AllocError, Global};
use std::sync::Wait;
use std::thread::Threads;

/// What the program is to write, and with which status it is to end.
#[derive(Drop)]
pub enum Answer {
    /// What the command writes.
    Done(Vec<u8>),
    /// The configuration is one.
    Valid,
    /// The line that says why the file is no configuration.
    NoConfig(Vec<u8>),
    /// The line that says why the input is no session.
    NoSession(Vec<u8>),
    /// The words are of no form.
    Usage,
    /// There are more bytes than a script or a configuration may have.
    Long,
    /// A read of the input, or of a file, failed.
    ReadFault,
    /// The network failed.
    NetworkFault,
    /// There is no memory.
    Memory,
}

impl Answer {
    /// The answer where an input or a file could not be read to its end.
    pub fn of_read_fault(fault: ReadAllFault) -> Self
        ensures { result ≡ answer_of_fault fault }
    {
        match fault {
            ReadAllFault::Failed => Answer::ReadFault,
            ReadAllFault::Long => Answer::Long,
            ReadAllFault::Memory => Answer::Memory,
        }
    }

    /// The status that the program ends with where the text is written.
    pub fn status(&self) -> u8
        ensures { result ≡ (exit_of self.now).status }
    {
        match self {
            Answer::Done(_) | Answer::Valid => 0,
            Answer::Usage => 1,
            Answer::NoConfig(_) => 2,
            Answer::NoSession(_) => 3,
            Answer::ReadFault => 4,
            Answer::NetworkFault => 6,
            Answer::Memory => 7,
            Answer::Long => 8,
        }
    }

    /// What is to be written.
    pub fn text(&self) -> &[u8]
        ensures { result.now ≡ (exit_of self.now).text }
    {
        match self {
            Answer::Done(text) => text,
            Answer::Valid => b"ok\n",
            Answer::NoConfig(line) => line,
            Answer::NoSession(line) => line,
            Answer::Usage => b"usage\n",
            Answer::Long => b"too long\n",
            Answer::ReadFault => b"read fault\n",
            Answer::NetworkFault => b"network fault\n",
            Answer::Memory => b"memory\n",
        }
    }
}

/// The answer to these words, which ask for no fetch and no caster that keeps serving, this input,
/// these files and this street. The input is read only for a bare session, the store is asked only
/// for the files that the words name, and the street only by a caster.
pub fn answer_to<R: Threads + Wait + Sync, S: Store, I: Source, N: Street>(
    rt: &R,
    alloc: Global,
    words: &[String],
    store: &mut S,
    input: &mut I,
    street: &mut N,
) -> Answer
where
    N::Door: Send,
    N::Link: Send,
    requires fetch { FetchNothing (texts words.now) }
    requires keep { KeepNothing (texts words.now) }
    ensures answer { IsAnswer (texts words.now)
        (InputCame (I.left input.old) (I.log input.old) (I.log input.new))
        (FileCame (S.store store.old).files (S.log store.old) (S.log store.new))
        (Rose (I.faults input.old) (I.faults input.new))
        (Rose (S.faults store.old) (S.faults store.new)) result }
    ensures asked { IsAsked (form_of (texts words.now)) (S.store store.old).files
        (S.store store.old).asked (S.store store.new).asked }
    ensures kept_input { LeavesInput I.left I.faults I.reads (texts words.now) input.old input.new }
    ensures kept_store { LeavesStore S.store S.faults S.reads (texts words.now)
        store.old store.new }
    ensures casting { (task : CasterMode) (config addr : List ℕ) (limit : ℕ)
        → AreCasting task (texts words.now) config addr limit
        → IsCastingAnswer task
        (FileCame (S.store store.old).files (S.log store.old) (S.log store.new))
        config addr limit (N.told street.old) (N.told street.new)
        (Rose (S.faults store.old) (S.faults store.new)) result }
    ensures street_later { (N.told street.old).faults ≤ (N.told street.new).faults }
    ensures alone { CastNothing (texts words.now) → street.new ≡ street.old }
{
    match command_of(words) {
        None => Answer::Usage,
        Some(Command::Offline(command)) => answer_offline(alloc, command, store, input),
        Some(Command::Cast(casting)) => answer_to_cast(rt, alloc, casting, store, street),
    }
}

// The answer to this command. The input is read only for a bare session, and the store is asked
// only for the files that the command names.
fn answer_offline<S: Store, I: Source>(
    alloc: Global,
    command: Offline<'_>,
    store: &mut S,
    input: &mut I,
) -> Answer
    requires { IsWithin (offline_form command) }
    ensures answer { IsOfflineAnswer (offline_form command.entry)
        (InputCame (I.left input.old) (I.log input.old) (I.log input.new))
        (FileCame (S.store store.old).files (S.log store.old) (S.log store.new))
        (Rose (I.faults input.old) (I.faults input.new))
        (Rose (S.faults store.old) (S.faults store.new)) result }
    ensures asked { IsAsked (Some (offline_form command.entry)) (S.store store.old).files
        (S.store store.old).asked (S.store store.new).asked }
    ensures unread { ReadsNoInput (offline_form command.entry) → input.new ≡ input.old }
    ensures reads { Loses (λ came. I.reads input.new ≤ I.reads input.old + length came + 1)
        (I.left input.old) (I.left input.new) }
    ensures input_later { I.faults input.old ≤ I.faults input.new }
    ensures unasked { NamesNoFile (offline_form command.entry) → store.new ≡ store.old }
    ensures kept { KeepsFiles S.store S.faults S.reads
        (8388610 * length (files_of (Some (offline_form command.entry)))) store.old store.new }
{
    match command {
        Offline::Bare(capacity) => answer_to_input(alloc, capacity, input),
        Offline::Over(aim, path) => answer_over(alloc, aim, path, store),
        Offline::Replay {
            start,
            config,
            session,
        } => answer_to_replay(alloc, start, config, session, store),
        Offline::Make {
            seed,
            frames,
            rovers,
        } => answer_to_make(alloc, seed, frames, rovers),
    }
}

// The answer to a session that is made of this number, with so many frames and rovers.
fn answer_to_make(alloc: Global, seed: u64, frames: u32, rovers: u32) -> Answer
    requires frames { (1 ≤ frames) × (frames ≤ 10000) }
    requires rovers { (1 ≤ rovers) × (rovers ≤ 64) }
    ensures { GivesEnd (exactly (whole_exit (made_text seed frames rovers))) result }
{
    match made_text(alloc, seed, frames, rovers) {
        Ok(text) => Answer::Done(text),
        Err(AllocError) => Answer::Memory,
    }
}
