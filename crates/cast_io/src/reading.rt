//! Reading a source to its end.
ghost use Rattle.std.specs.Prelude.{◌≡◌, ◌≤◌, ◌+◌, length, IfOk, IfErr, IsErrOf};
ghost use Rattle.cast_io.specs.Causes.{Rose};
ghost use Rattle.cast_io.specs.Logs.{GoesOn};
ghost use Rattle.cast_io.specs.Pieces.{Loses};
ghost use Rattle.cast_io.specs.ReadAll.{HasLost, IsReadWhole};

use crate::source::Source;
use std::alloc::Global;
use thiserror::Error;

/// Why a source could not be read to its end.
#[derive(Clone, Copy, Debug, PartialEq, Eq, Error)]
pub enum ReadAllFault {
    /// A read failed.
    #[error("a read failed")]
    Failed,
    /// More bytes came than the limit allows.
    #[error("the input is longer than the limit")]
    Long,
    /// No memory was left to keep the bytes.
    #[error("out of memory")]
    Memory,
}

// How many bytes one read asks for.
const MAX_READ_BYTES: usize = 4096;

/// Reads the source to its end: all bytes that were left, at most `limit`.
///
/// `Long` comes as soon as more than `limit` bytes came, `Failed` with the first read that fails,
/// while at most `limit` bytes came, and `Memory` where the bytes could not be kept; the source has
/// then lost what was read. It is read at most once more than bytes came.
pub fn read_all<S: Source>(
    alloc: Global,
    source: &mut S,
    limit: usize,
) -> Result<Vec<u8>, ReadAllFault>
    ensures whole { IfOk result (λ v. IsReadWhole limit (S.left source.old) (S.left source.new)
        (S.log source.old) (S.log source.new) v.items) }
    ensures lost { IfErr result (λ fault. HasLost fault limit (S.left source.old)
        (S.left source.new) (S.log source.old) (S.log source.new)) }
    ensures cause { IsErrOf result ReadAllFault.Failed
        → Rose (S.faults source.old) (S.faults source.new) }
    ensures later { S.faults source.old ≤ S.faults source.new }
    ensures kept { S.store source.new ≡ S.store source.old }

    // Each read but the last gave a byte, and after a read that ended or failed comes none.
    ensures reads { Loses (λ came. S.reads source.new ≤ S.reads source.old + length came + 1)
        (S.left source.old) (S.left source.new)
        × (S.reads source.new ≤ S.reads source.old + limit + 2) }
    ensures on { GoesOn (S.log source.old) (S.log source.new) }
{
    let mut all = Vec::new(alloc);
    let mut piece = [0u8; MAX_READ_BYTES];
    loop {
        let Ok(count) = source.read(&mut piece) else {
            return Err(ReadAllFault::Failed);
        };
        if count == 0 {
            return Ok(all);
        }
        if count > limit - all.len() {
            return Err(ReadAllFault::Long);
        }
        let Ok(()) = all.extend_from_slice(&piece[..count]) else {
            return Err(ReadAllFault::Memory);
        };
    }
}
