//! What is done by a fetch: frames of other casters are written as they come.
ghost use Rattle.std.specs.Prelude.{◌≡◌, ◌≢◌, ◌≤◌, ◌++◌, IfOk, IsTrue, OnOk};
ghost use Rattle.std.specs.List.{All};
ghost use Rattle.cast_text.specs.Name.{is_name};
ghost use Rattle.ntrip_fetch.specs.Tries.{CanBeTried};
ghost use Rattle.caster_top.specs.Command.{are_few_targets, are_targets, is_target, protocol_of, target_of, targets_of, texts, user_of};
ghost use Rattle.caster_top.specs.Fetching.{HasFetching, frames_in};
ghost use Rattle.caster_top.specs.Kept.{LeavesOutput};

use cast_io::{Sink, Street};
use cast_text::{MountName, Text, UserName};
use ntrip_fetch::{FetchFault, Target, Try, fetch};
use std::alloc::{AllocError, Global};
use std::sync::Wait;

/// The status where all frames were written.
const WHOLE: u8 = 0;

/// The status where a write failed.
const WRITE_FAULT: u8 = 5;

/// The status where there is no memory.
const MEMORY: u8 = 7;

/// The status where fewer frames were written than were asked for.
const TOO_FEW: u8 = 9;

/// Fetches so many frames from the targets of these words, five each, writes them as they come, and
/// answers the status that the program ends with. It may wait.
pub fn fetch_frames<R: Wait, N: Street, O: Sink>(
    rt: &R,
    alloc: Global,
    frames: u32,
    words: &[String],
    street: &mut N,
    out: &mut O,
) -> u8
    requires frames { (1 ≤ frames) × (frames ≤ 1000000) }
    requires targets { IsTrue (are_few_targets (texts words.now)) }
    ensures fetching { HasFetching frames (targets_of (texts words.now))
        (N.told street.old) (N.told street.new)
        (O.taken out.old) (O.taken out.new) (O.faults out.old) (O.faults out.new) result }
    ensures kept_output { LeavesOutput (O.faults out.old) (O.faults out.new) result }
    ensures street_faults { (N.told street.old).faults ≤ (N.told street.new).faults }
{
    let mut targets = Vec::new(alloc);
    let Ok(()) = push_targets(alloc, words, &mut targets) else {
        return MEMORY;
    };
    match fetch(rt, alloc, &targets, u64::from(frames), street, out) {
        Ok(tries) => status_of(u64::from(frames), &tries),
        Err(FetchFault::Sink) => WRITE_FAULT,
        Err(FetchFault::Memory) => MEMORY,
    }
}

// The status of these tries, with so many frames asked for.
fn status_of(frames: u64, tries: &[Try]) -> u8
    requires { frames_in tries.now ≤ 1000000 }
    ensures whole { frames_in tries.now ≡ frames → result ≡ 0 }
    ensures too_few { frames_in tries.now ≢ frames → result ≡ 9 }
{
    if frames_in(tries) == frames {
        WHOLE
    } else {
        TOO_FEW
    }
}

// How many frames these tries wrote.
fn frames_in(tries: &[Try]) -> u64
    requires { frames_in tries.now ≤ 1000000 }
    ensures { result ≡ frames_in tries.now }
{
    tries.iter().map(|tried| tried.frames).sum()
}

// Puts the targets of these words, five each, behind those before.
fn push_targets(
    alloc: Global,
    words: &[String],
    targets: &mut Vec<Target>,
) -> Result<(), AllocError>
    requires { IsTrue (are_targets (texts words.now)) }
    ensures ok { OnOk result (targets.new.items
        ≡ targets.old.items ++ targets_of (texts words.now)) }
    ensures each { OnOk result (All CanBeTried targets.old.items
        → All CanBeTried targets.new.items) }
{
    match words {
        [protocol, address, mount, user, password, more @ ..] => {
            let target = target_of(
                alloc,
                protocol.as_str(),
                address.as_str(),
                mount.as_str(),
                user.as_str(),
                password.as_str(),
            )?;
            targets.push(target)?;
            push_targets(alloc, more, targets)
        }
        [] | [_, ..] => Ok(()),
    }
}

// The target that these words name.
fn target_of(
    alloc: Global,
    protocol: &str,
    address: &str,
    mount: &str,
    user: &str,
    password: &str,
) -> Result<Target, AllocError>
    requires { IsTrue (is_target protocol.now address.now mount.now user.now password.now) }
    ensures names { IfOk result (λ target. target
        ≡ target_of protocol.now address.now mount.now user.now password.now) }
    ensures can { IfOk result CanBeTried }
{
    Ok(Target {
        protocol: protocol_of(protocol),
        address: Text::of(alloc, address.as_bytes())?,
        mount: MountName::of(alloc, mount.as_bytes())?,
        user: user_of(alloc, user)?,
        password: Text::of(alloc, password.as_bytes())?,
    })
}

// The version of NTRIP that the word names.
fn protocol_of(word: &str) -> u32
    ensures named { result ≡ protocol_of word.now }
    ensures spoken { (1 ≤ result) × (result ≤ 2) }
{
    if word == "2" { 2 } else { 1 }
}

// The user that the word names: none where it is `-`.
fn user_of(alloc: Global, word: &str) -> Result<Option<UserName>, AllocError>
    requires { IsTrue (is_name word.now) }
    ensures { IfOk result (λ user. user ≡ user_of word.now) }
{
    if word == "-" {
        return Ok(None);
    }
    let user = UserName::of(alloc, word.as_bytes())?;
    Ok(Some(user))
}
