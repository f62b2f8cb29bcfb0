//! What is decided by a caster, one that serves or one that records.
ghost use Rattle.std.specs.Prelude.{◌≡◌, ◌≤◌, ◌∷◌, [], length, vec_capacity};
ghost use Rattle.std.specs.Result.{ForOk};
ghost use Rattle.cast_io.specs.Causes.{Rose};
ghost use Rattle.cast_io.specs.Told.{Grew};
ghost use Rattle.cast_config.specs.Kept.{KeepsRules};
ghost use Rattle.session_text.specs.Room.{closed_room};
ghost use Rattle.session_model.specs.Text.{closed_text};
ghost use Rattle.session_script.specs.Writing.{script_text};
ghost use Rattle.caster_top.specs.declared.command.CasterMode.TheVariants.{Record, Serve};
ghost use Rattle.caster_top.specs.Command.{most_of};
ghost use Rattle.caster_top.specs.Outcome.{EndsSo, exactly, whole_exit};
ghost use Rattle.caster_top.specs.Answers.{GivesEnd, IsGiven};
ghost use Rattle.caster_top.specs.Given.{FileCame};
ghost use Rattle.caster_top.specs.Kept.{KeepsFiles};
ghost use Rattle.caster_top.specs.Casting.{CameTo, GivesCame, GivesServed, HasCast, IsCastingAnswer};

use crate::answers::Answer;
use crate::command::{CasterMode, Casting};
use crate::config_answers::config_at;
use crate::recording::record_at;
use cast_config::Config;
use cast_io::{Store, Street};
use caster_record::RecorderFault;
use caster_serve::{ServeFault, serve};
use session_core::Closed;
use session_script::{Event, script_text};
use session_text::{closed_text, room_for_closed};
use std::alloc::{AllocError, Global};
use std::sync::Wait;
use std::thread::Threads;

/// The answer to a caster over the configuration in a file. The store is asked for that file once,
/// and the street only where it holds a configuration.
pub fn answer_to_cast<R: Threads + Wait + Sync, S: Store, N: Street>(
    rt: &R,
    alloc: Global,
    casting: Casting<'_>,
    store: &mut S,
    street: &mut N,
) -> Answer
where
    N::Door: Send,
    N::Link: Send,
    requires limit { (1 ≤ casting.limit) × (casting.limit ≤ most_of casting.task) }
    ensures casting { IsCastingAnswer casting.entry.task
        (FileCame (S.store store.old).files (S.log store.old) (S.log store.new))
        casting.entry.config.now casting.entry.addr.now casting.entry.limit
        (N.told street.old) (N.told street.new)
        (Rose (S.faults store.old) (S.faults store.new)) result }
    ensures asked { Grew (S.store store.old).asked (S.store store.new).asked
        (casting.entry.config.now ∷ []) }
    ensures kept { KeepsFiles S.store S.faults S.reads 8388610 store.old store.new }
    ensures street_later { (N.told street.old).faults ≤ (N.told street.new).faults }
{
    let Casting {
        task,
        config,
        addr,
        limit,
    } = casting;
    match config_at(alloc, config, store) {
        Ok(config) => answer_to_task(rt, alloc, task, &config, addr, limit, street),
        Err(answer) => answer,
    }
}

// The answer to a caster of this task over this configuration.
fn answer_to_task<R: Threads + Wait + Sync, N: Street>(
    rt: &R,
    alloc: Global,
    task: CasterMode,
    config: &Config,
    addr: &str,
    limit: u32,
    street: &mut N,
) -> Answer
where
    N::Door: Send,
    N::Link: Send,
    requires kept { KeepsRules 1000000 config.now }
    requires limit { (1 ≤ limit) × (limit ≤ most_of task) }
    ensures cast { (came_to : CameTo)
        × HasCast task config.now addr.now limit (N.told street.old) (N.told street.new) came_to
        × GivesCame task came_to result }
    ensures later { (N.told street.old).faults ≤ (N.told street.new).faults }
{
    match task {
        CasterMode::Serve => answer_to_server(rt, alloc, config, addr, limit, street),
        CasterMode::Record => answer_to_recorder(rt, alloc, config, addr, limit, street),
    }
}

// The answer to a caster that serves.
fn answer_to_server<R: Threads + Wait + Sync, N: Street>(
    rt: &R,
    alloc: Global,
    config: &Config,
    addr: &str,
    limit: u32,
    street: &mut N,
) -> Answer
where
    N::Door: Send,
    N::Link: Send,
    requires { KeepsRules 1000000 config.now }
    ensures cast { (came_to : CameTo)
        × HasCast Serve config.now addr.now limit (N.told street.old) (N.told street.new) came_to
        × GivesCame Serve came_to result }
    ensures later { (N.told street.old).faults ≤ (N.told street.new).faults }
{
    let Ok(room) = room_for_closed(alloc, config) else {
        return Answer::Memory;
    };
    let served = serve(rt, alloc, config, addr, u64::from(limit), street);
    answer_to_served(config, served, room)
}

// The answer to what a caster that serves over this configuration came to, in the room that was
// made for its totals.
fn answer_to_served(config: &Config, served: Result<Closed, ServeFault>, room: Vec<u8>) -> Answer
    requires sizes { ForOk served (λ closed. (length closed.mounts ≡ length config.now.mount)
        × (length closed.accounts ≡ length config.now.account)) }
    requires empty { room.items ≡ [] }
    requires room { closed_room config.now ≤ vec_capacity room }
    ensures { GivesServed config.now served result }
{
    match served {
        Ok(closed) => answer_to_closed(config, &closed, room),
        Err(ServeFault::Network) => Answer::NetworkFault,
        Err(ServeFault::Memory) => Answer::Memory,
    }
}

// The answer to the totals of a caster over this configuration.
fn answer_to_closed(config: &Config, closed: &Closed, mut text: Vec<u8>) -> Answer
    requires mounts { length closed.now.mounts ≡ length config.now.mount }
    requires accounts { length closed.now.accounts ≡ length config.now.account }
    requires empty { text.items ≡ [] }
    requires room { closed_room config.now ≤ vec_capacity text }
    ensures { IsGiven ⊥ ⊥ (EndsSo (exactly (whole_exit (closed_text config.now closed.now))))
        result }
{
    closed_text(config, closed, &mut text).unwrap();
    Answer::Done(text)
}

// The answer to a caster that records.
fn answer_to_recorder<R: Wait, N: Street>(
    rt: &R,
    alloc: Global,
    config: &Config,
    addr: &str,
    limit: u32,
    street: &mut N,
) -> Answer
    requires kept { KeepsRules 1000000 config.now }
    requires limit { (1 ≤ limit) × (limit ≤ 256) }
    ensures cast { (came_to : CameTo)
        × HasCast Record config.now addr.now limit (N.told street.old) (N.told street.new) came_to
        × GivesCame Record came_to result }
    ensures later { (N.told street.old).faults ≤ (N.told street.new).faults }
{
    match record_at(rt, alloc, config, addr, limit, street) {
        Ok(events) => answer_to_events(alloc, &events),
        Err(RecorderFault::Network) => Answer::NetworkFault,
        Err(RecorderFault::Memory) => Answer::Memory,
    }
}

// The answer to a recorded session of these events.
fn answer_to_events(alloc: Global, events: &[Event]) -> Answer
    ensures { GivesEnd (exactly (whole_exit (script_text events.now))) result }
{
    let mut text = Vec::new(alloc);
    match script_text(events, &mut text) {
        Ok(()) => Answer::Done(text),
        Err(AllocError) => Answer::Memory,
    }
}
