//! What a head asks for.

use cast_text::{MountName, Text};
use gga_read::Position;
use std::fmt;

/// The version of NTRIP that a client speaks.
#[derive(Clone, Copy, Debug, PartialEq, Eq)]
pub enum Version {
    /// NTRIP 1.0, RTCM 10410.0.
    One,
    /// NTRIP 2.0, RTCM 10410.1.
    Two,
}

/// The credentials of a request: its `Authorization` header.
#[derive(PartialEq, Eq, Drop)]
pub enum Auth {
    /// There is no such header.
    None,
    /// The credentials of the scheme `Basic` (RFC 7617): the text before the first colon, and the
    /// text after it. Unlike there, both may hold any bytes, control characters too.
    Basic { user: Text, password: Text },
    /// The header has a value that is not of the scheme `Basic`, does not decode, or decodes to a
    /// text without a colon.
    Unread,
}

// A password is never printed.
impl fmt::Debug for Auth {
    fn fmt<W: fmt::Write>(&self, f: &mut fmt::Formatter<W>) -> fmt::Result {
        match self {
            Auth::None => f.write_str("None"),
            Auth::Basic { user, password: _ } => f
                .debug_struct("Basic")
                .field("user", user)
                .finish_non_exhaustive(),
            Auth::Unread => f.write_str("Unread"),
        }
    }
}

/// What a head asks for.
#[derive(PartialEq, Eq, Drop)]
pub enum Request {
    /// The sourcetable.
    Table(Version),
    /// The frames of a mountpoint.
    Rover {
        version: Version,
        mount: MountName,
        auth: Auth,
        /// The position of the rover, where the head reports it.
        gga: Option<Position>,
    },
    /// To give the frames of a mountpoint. The body follows the head, raw up to the end of the
    /// connection or in the transfer coding `chunked`.
    Source {
        version: Version,
        mount: MountName,
        password: Text,
        chunked: bool,
    },
}

// A password is never printed.
impl fmt::Debug for Request {
    fn fmt<W: fmt::Write>(&self, f: &mut fmt::Formatter<W>) -> fmt::Result {
        match self {
            Request::Table(version) => f.debug_tuple("Table").field(version).finish(),
            Request::Rover {
                version,
                mount,
                auth,
                gga,
            } => f
                .debug_struct("Rover")
                .field("version", version)
                .field("mount", mount)
                .field("auth", auth)
                .field("gga", gga)
                .finish(),
            Request::Source {
                version,
                mount,
                password: _,
                chunked,
            } => f
                .debug_struct("Source")
                .field("version", version)
                .field("mount", mount)
                .field("chunked", chunked)
                .finish_non_exhaustive(),
        }
    }
}
