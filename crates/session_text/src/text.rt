//! The text of what a caster came to.

ghost use Rattle.std.specs.Prelude.{◌≡◌, ◌≤◌, ◌+◌, ◌*◌, ℕ, List, ◌∷◌, ◌++◌, [], codes, length, map, OnErr, OnOk, IfOk, IsOk, vec_len, vec_capacity};
ghost use Rattle.std.specs.List.{flat_map, zip};
ghost use Rattle.std.specs.Fmt.{decimal};
ghost use Rattle.session_model.specs.Text.{account_line, closed_text, line, mount_line, spaced, sum_words};
ghost use Rattle.session_text.specs.Room.{FitsRoom, account_room, accounts_room, closed_room, mount_room, mounts_room, total_room};

use cast_config::{Account, Config, Mount};
use cast_text::push_decimal;
use caster_accounts::Sum;
use session_model::{Closed, MountTotal};
use std::alloc::{AllocError, Global};

/// The room for the line of a mountpoint, less that of its name, in bytes.
const MOUNT_ROOM: usize = 87;

/// The room for the line of an account, less that of its user, in bytes.
const ACCOUNT_ROOM: usize = 129;

/// The room for the line of all accounts, in bytes.
const TOTAL_ROOM: usize = 126;

/// Appends a space and a number. A refusal may leave a part of it.
fn push_number(out: &mut Vec<u8>, number: u128) -> Result<(), AllocError>
    ensures ok { OnOk result (out.new.items ≡ out.old.items ++ (32 ∷ decimal number)) }
    ensures begins { (more : List ℕ) × (out.new.items ≡ out.old.items ++ more) }
    ensures fits { FitsRoom 40 (vec_len out.old) (vec_capacity out.old)
        (vec_len out.new) (vec_capacity out.new) result }
{
    out.extend_from_slice(b" ")?;
    match push_decimal(out, number) {
        Ok(()) => Ok(()),
        Err(AllocError) => Err(AllocError),
    }
}

/// Appends numbers, each with a space before it, and the end of their line. A refusal may leave a
/// part of it, and none comes where there is room.
fn end_line(out: &mut Vec<u8>, numbers: &[u128]) -> Result<(), AllocError>
    ensures ok { OnOk result (out.new.items ≡ (out.old.items ++ spaced numbers.now) ++ 10 ∷ []) }
    ensures begins { (more : List ℕ) × (out.new.items ≡ out.old.items ++ more) }
    ensures fits { FitsRoom (40 * length numbers.now + 1) (vec_len out.old) (vec_capacity out.old)
        (vec_len out.new) (vec_capacity out.new) result }
{
    for number in numbers {
        push_number(out, *number)?;
    }
    out.extend_from_slice(b"\n")
}

/// Appends a line of two words and numbers: a kind with the space behind it, and a name. A refusal
/// may leave a part of it, and none comes where there is room.
pub(crate) fn push_line(
    out: &mut Vec<u8>,
    kind: &[u8],
    name: &[u8],
    numbers: &[u128],
) -> Result<(), AllocError>
    ensures ok { OnOk result (out.new.items
        ≡ out.old.items ++ (kind.now ++ line (name.now ∷ map decimal numbers.now))) }
    ensures begins { (more : List ℕ) × (out.new.items ≡ out.old.items ++ more) }
    ensures fits { FitsRoom (length kind.now + length name.now + 40 * length numbers.now + 1)
        (vec_len out.old) (vec_capacity out.old) (vec_len out.new) (vec_capacity out.new) result }
{
    out.extend_from_slice(kind)?;
    out.extend_from_slice(name)?;
    end_line(out, numbers)?;
    Ok(())
}

/// Appends the line of a mountpoint.
fn push_mount(out: &mut Vec<u8>, mount: &Mount, total: MountTotal) -> Result<(), AllocError>
    ensures ok { OnOk result (out.new.items ≡ out.old.items ++ mount_line (mount.now, total)) }
    ensures begins { (more : List ℕ) × (out.new.items ≡ out.old.items ++ more) }
    ensures fits { FitsRoom (mount_room mount.now) (vec_len out.old) (vec_capacity out.old)
        (vec_len out.new) (vec_capacity out.new) result }
{
    let numbers = [u128::from(total.published), u128::from(total.claims)];
    push_line(out, b"mount ", mount.name.bytes(), &numbers)
}

/// Appends the line of a named account.
fn push_account(out: &mut Vec<u8>, account: &Account, sum: Sum) -> Result<(), AllocError>
    ensures ok { OnOk result (out.new.items ≡ out.old.items ++ account_line (account.now, sum)) }
    ensures begins { (more : List ℕ) × (out.new.items ≡ out.old.items ++ more) }
    ensures fits { FitsRoom (account_room account.now) (vec_len out.old) (vec_capacity out.old)
        (vec_len out.new) (vec_capacity out.new) result }
{
    let numbers = [u128::from(sum.sessions), sum.sent, sum.overrun];
    push_line(out, b"account ", account.user.bytes(), &numbers)
}

/// Appends the lines of the mountpoints.
fn push_mounts(out: &mut Vec<u8>, mounts: &[Mount], totals: &[MountTotal]) -> Result<(), AllocError>
    requires { length totals.now ≡ length mounts.now }
    ensures ok { OnOk result (out.new.items
        ≡ out.old.items ++ flat_map mount_line (zip mounts.now totals.now)) }
    ensures begins { (more : List ℕ) × (out.new.items ≡ out.old.items ++ more) }
    ensures fits { FitsRoom (mounts_room mounts.now) (vec_len out.old) (vec_capacity out.old)
        (vec_len out.new) (vec_capacity out.new) result }
{
    for i in 0..mounts.len() {
        push_mount(out, &mounts[i], totals[i])?;
    }
    Ok(())
}

/// Appends the lines of the named accounts.
fn push_accounts(out: &mut Vec<u8>, accounts: &[Account], sums: &[Sum]) -> Result<(), AllocError>
    requires { length sums.now ≡ length accounts.now }
    ensures ok { OnOk result (out.new.items
        ≡ out.old.items ++ flat_map account_line (zip accounts.now sums.now)) }
    ensures begins { (more : List ℕ) × (out.new.items ≡ out.old.items ++ more) }
    ensures fits { FitsRoom (accounts_room accounts.now) (vec_len out.old) (vec_capacity out.old)
        (vec_len out.new) (vec_capacity out.new) result }
{
    for i in 0..accounts.len() {
        push_account(out, &accounts[i], sums[i])?;
    }
    Ok(())
}

/// Appends the line of all accounts.
fn push_total(out: &mut Vec<u8>, total: Sum) -> Result<(), AllocError>
    ensures ok { OnOk result (out.new.items
        ≡ out.old.items ++ line (codes "total" ∷ sum_words total)) }
    ensures begins { (more : List ℕ) × (out.new.items ≡ out.old.items ++ more) }
    ensures fits { FitsRoom total_room (vec_len out.old) (vec_capacity out.old)
        (vec_len out.new) (vec_capacity out.new) result }
{
    let numbers = [u128::from(total.sessions), total.sent, total.overrun];
    push_line(out, b"", b"total", &numbers)
}

/// Appends all lines. A refusal may leave some of them.
#[tactic(auto, unfolding(session_model::specs::Text::closed_text))]
fn push_closed(config: &Config, closed: &Closed, out: &mut Vec<u8>) -> Result<(), AllocError>
    requires mounts { length closed.now.mounts ≡ length config.now.mount }
    requires accounts { length closed.now.accounts ≡ length config.now.account }
    ensures ok { OnOk result (out.new.items ≡ out.old.items ++ closed_text config.now closed.now) }
    ensures begins { (more : List ℕ) × (out.new.items ≡ out.old.items ++ more) }
    ensures fits { FitsRoom (closed_room config.now) (vec_len out.old) (vec_capacity out.old)
        (vec_len out.new) (vec_capacity out.new) result }
{
    push_mounts(out, config.mount.as_slice(), closed.mounts.as_slice())?;
    push_accounts(out, config.account.as_slice(), closed.accounts.as_slice())?;
    push_total(out, closed.total)
}

/// Appends what the mountpoints and the named accounts came to, a line each in the order of the
/// configuration, and a line of all accounts. There is a total for each mountpoint and a sum for
/// each named account.
///
/// # Errors
/// For want of memory, and not where [`room_for_closed`] made the room. Then `out` is as it was.
pub fn closed_text(config: &Config, closed: &Closed, out: &mut Vec<u8>) -> Result<(), AllocError>
    requires mounts { length closed.now.mounts ≡ length config.now.mount }
    requires accounts { length closed.now.accounts ≡ length config.now.account }
    ensures ok { OnOk result (out.new.items ≡ out.old.items ++ closed_text config.now closed.now) }
    ensures err { OnErr result (out.new.items ≡ out.old.items) }
    ensures room { vec_len out.old + closed_room config.now ≤ vec_capacity out.old → IsOk result }
{
    let start = out.len();
    match push_closed(config, closed, out) {
        Ok(()) => Ok(()),
        Err(AllocError) => {
            out.truncate(start);
            Err(AllocError)
        }
    }
}

/// An empty text with room for what the mountpoints and accounts of this configuration come to,
/// whatever that is.
///
/// # Errors
/// For want of memory.
pub fn room_for_closed(alloc: Global, config: &Config) -> Result<Vec<u8>, AllocError>
    ensures empty { IfOk result (λ text. text.items ≡ []) }
    ensures room { IfOk result (λ text. closed_room config.now ≤ vec_capacity text) }
{
    let mut room = TOTAL_ROOM;
    for mount in config.mount.as_slice() {
        room = room.checked_add(MOUNT_ROOM).ok_or(AllocError)?;
        room = room
            .checked_add(mount.name.bytes().len())
            .ok_or(AllocError)?;
    }
    for account in config.account.as_slice() {
        room = room.checked_add(ACCOUNT_ROOM).ok_or(AllocError)?;
        room = room
            .checked_add(account.user.bytes().len())
            .ok_or(AllocError)?;
    }
    Vec::with_capacity(alloc, room)
}
