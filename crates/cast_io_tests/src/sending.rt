//! A caller over any link, for the tests: what it says is proved over the clauses of the trait.
ghost use Rattle.std.specs.Prelude.{◌++◌, [], ◌∷◌, List, OnOk, OnErr};
ghost use Rattle.cast_io.specs.Causes.{Rose};
ghost use Rattle.cast_io_tests.specs.Copying.{Copied, Exchanged, IsDone, IsBroken, bytes_given};
ghost use Rattle.cast_io.specs.declared.steps.Step.{Step};

use cast_io::{Failed, Got, Link};

/// Sends back to the peer what it sends, with at most so many reads, until it ends.
pub fn send_back<L: Link>(link: &mut L, reads: u32) -> Result<(), Failed>
    ensures ok { OnOk result ((taken : List Step)
        × Copied (L.told link.old) (L.told link.new) taken × IsDone reads taken) }
    ensures err { OnErr result ((taken : List Step) × (last : Step) × (written : List _)
        × Exchanged (L.told link.old) (L.told link.new) (taken ++ last ∷ []) written
        × IsBroken last (bytes_given taken) written) }
    ensures cause { OnErr result (Rose (L.told link.old).faults (L.told link.new).faults) }
{
    let mut piece = [0u8; 4];
    for _ in 0..reads {
        match link.read(&mut piece) {
            Got::Bytes(count) => {
                let Ok(()) = link.write(&piece[..count]) else {
                    return Err(Failed);
                };
            }
            Got::Idle => link.rest(),
            Got::End => return Ok(()),
            Got::Failed => return Err(Failed),
        }
    }
    Ok(())
}
