//! Of `gga_read`: positions that a rover reports.
ghost use Rattle.std.specs.Prelude.{◌≡◌, None, IfOk};
ghost use Rattle.std.specs.List.{last_or};
ghost use Rattle.gga_read.specs.Report.{reports};

use gga_read::{Position, Reports};
use std::alloc::{AllocError, Global};

/// The last position that these bytes report.
pub fn last_position(alloc: Global, bytes: &[u8]) -> Result<Option<Position>, AllocError>
    ensures { IfOk result (λ last. last ≡ last_or None (reports bytes.now)) }
{
    let mut reports = Reports::new(alloc)?;
    let mut last = None;
    for byte in bytes {
        if let Some(at) = reports.push(*byte) {
            last = Some(at);
        }
    }
    Ok(last)
}
