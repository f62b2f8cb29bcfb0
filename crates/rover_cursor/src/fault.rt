use thiserror::Error;
use turn_log::TurnFault;

/// Why a segment did not begin, or was not read on. Nothing was called, and nothing changed.
#[derive(Clone, Copy, Debug, PartialEq, Eq, Error)]
pub enum SegFault {
    /// The mountpoint is worn by `turns` turns, given or drawn for, at least 2^62.
    #[error("no turn after {turns} given or drawn for")]
    Worn { turns: u64 },
    /// No memory for a lap, or for the turn at a place that takes some.
    #[error("out of memory")]
    Memory,
}

impl From<TurnFault> for SegFault {
    ghost use Rattle.std.specs.Prelude.{◌≡◌};
    ghost use Rattle.rover_cursor.specs.Refusals.{handed_on};

    ghost from_gives = { λ fault refusal. refusal ≡ handed_on fault };

    fn from(fault: TurnFault) -> SegFault {
        match fault {
            TurnFault::Worn { turns } => SegFault::Worn { turns },
            TurnFault::Memory => SegFault::Memory,
        }
    }
}
