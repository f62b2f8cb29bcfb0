//! Positions that rovers report.
use crate::printing::{put, say};
use gga_read::{Reports, parse_gga};
use std::alloc::AllocError;

/// The position of a GGA sentence.
pub fn gga(line: &[u8], out: &mut Vec<u8>) -> Result<(), AllocError> {
    say(out, &parse_gga(line))
}

/// The reports in these bytes: at which place, from 0, the last byte of each comes, and its
/// position.
pub fn reports(bytes: &[u8], out: &mut Vec<u8>) -> Result<(), AllocError> {
    let mut reports = Reports::new(*out.allocator())?;
    for (place, byte) in bytes.iter().enumerate() {
        let at = reports.push(*byte);
        if at.is_some() {
            say(out, &(place, at))?;
        }
    }
    put(out, " end")
}
