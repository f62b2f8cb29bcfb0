//! The reports of a stream of bytes.

ghost use Rattle.std.specs.Prelude.{unsigned_abs, ◌≤◌, IfSome, ◌≡◌, ℕ, List, [], ◌∷◌, ◌++◌, option_to_list, IfOk};

use crate::Position;
use crate::sentence::parse_gga;
use cast_text::Lines;
use std::alloc::{AllocError, Global};
use std::marker::Model;

/// The most bytes of a line, without its end.
const MAX_LINE_BYTES: u32 = 128;

/// The positions that a rover reports, byte by byte. Lines end with LF, a CR before it is dropped,
/// and a line of more than 128 bytes is dropped whole.
///
/// Contracts see the line that is coming, and `StandsFor` says of which bytes.
#[derive(Debug, Drop)]
pub struct Reports {
    lines: Lines,
}

impl Model for Reports {
    ghost use Rattle.std.specs.Prelude.{◌≡◌};
    ghost use Rattle.cast_text.specs.Lines.{LineState};

    ghost Value = { LineState };

    ghost view = { λ r. r.lines };

    ghost invariant = { λ r. r.lines.limit ≡ 128 };
}

impl Reports {
    ghost use Rattle.cast_text.specs.Lines.{StandsFor};
    ghost use Rattle.gga_read.specs.Report.{reports};

    /// Before the first byte. All the memory that it will need is taken here.
    pub fn new(alloc: Global) -> Result<Reports, AllocError>
        ensures { IfOk result (λ r. StandsFor r []) }
    {
        Ok(Reports {
            lines: Lines::new(alloc, MAX_LINE_BYTES)?,
        })
    }

    /// Takes the next byte. The position is that of the line that this byte ends, exactly where
    /// that line is a report.
    pub fn push(&mut self, byte: u8) -> Option<Position>
        ensures stands { (bytes : List ℕ) → StandsFor self.old bytes
            → StandsFor self.new (bytes ++ byte ∷ []) }
        ensures reports { (bytes : List ℕ) → StandsFor self.old bytes
            → reports (bytes ++ byte ∷ []) ≡ reports bytes ++ option_to_list result }
        ensures lat { IfSome result (λ at. unsigned_abs at.lat ≤ 900000000) }
        ensures lon { IfSome result (λ at. unsigned_abs at.lon ≤ 1800000000) }
    {
        if self.lines.push(byte) {
            parse_gga(self.lines.line())
        } else {
            None
        }
    }
}
