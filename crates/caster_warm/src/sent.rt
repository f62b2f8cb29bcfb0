//! What each connection was sent, by its number.

ghost use Rattle.std.specs.Prelude.{◌≡◌, ◌==◌, ◌++◌, if◌then◌else◌, ℕ, OnOk, IfOk};
ghost use Rattle.caster_warm.specs.Parts.{part_to, sent_to};

use crate::parts::Part;
use std::alloc::{AllocError, Global};
use std::collections::BTreeMap;

/// The bytes that connections were sent, by their numbers. One that was sent nothing may be absent.
pub(crate) type AllSent = BTreeMap<u32, Vec<u8>>;

/// Puts these bytes where the connection of this number has none.
fn put(sent: &mut AllSent, number: u32, bytes: Vec<u8>) -> Result<(), AllocError>
    ensures { (n : ℕ) → OnOk result (sent_to n sent.new
        ≡ (if number == n then bytes.items else sent_to n sent.old)) }
{
    match sent.insert(number, bytes) {
        Ok(_) => Ok(()),
        Err(_) => Err(AllocError),
    }
}

/// Adds what a part sends its connection, behind all that it was sent before.
pub(crate) fn add_part(sent: &mut AllSent, part: Part) -> Result<(), AllocError>
    ensures { (n : ℕ) → OnOk result (sent_to n sent.new ≡ sent_to n sent.old ++ part_to n part) }
{
    match sent.remove(&part.number) {
        Some(mut bytes) => {
            bytes.extend_from_slice(&part.bytes)?;
            put(sent, part.number, bytes)
        }
        None => put(sent, part.number, part.bytes),
    }
}

/// A copy of all that the connection of this number was sent.
pub(crate) fn bytes_to(alloc: Global, number: u32, sent: &AllSent) -> Result<Vec<u8>, AllocError>
    ensures { IfOk result (λ bytes. bytes.items ≡ sent_to number sent.now) }
{
    match sent.get(&number) {
        Some(bytes) => Vec::from_slice(alloc, bytes),
        None => Ok(Vec::new(alloc)),
    }
}
