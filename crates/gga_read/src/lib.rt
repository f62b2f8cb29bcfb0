//! Positions that rovers report: GGA sentences of NMEA 0183, line by line.
#![tactic(auto)]

mod angle;
mod reports;
mod sentence;

pub use reports::Reports;
pub use sentence::parse_gga;

/// A place on the earth, in units of 10^-7 degree. North and east are positive.
#[derive(Clone, Copy, Debug, PartialEq, Eq)]
pub struct Position {
    /// The latitude, from -900,000,000 to 900,000,000.
    pub lat: i64,
    /// The longitude, from -1,800,000,000 to 1,800,000,000.
    pub lon: i64,
}
