//! Bytes that casters and their clients send.

/// A frame (RTCM 10403.3) whose payload is the number 1005 alone.
pub const FRAME_A: &[u8] = b"\xd3\x00\x02\x3e\xd0\xa4\xe0\x00";

/// A frame whose payload is the number 1077 alone.
pub const FRAME_B: &[u8] = b"\xd3\x00\x02\x43\x50\x06\xa2\x7e";

/// Both frames, one after the other.
pub const FRAMES_AB: &[u8] = b"\xd3\x00\x02\x3e\xd0\xa4\xe0\x00\xd3\x00\x02\x43\x50\x06\xa2\x7e";

/// What a client of NTRIP 1.0 is told that is let in.
pub const ICY: &[u8] = b"ICY 200 OK\r\n\r\n";

/// The same, and the first frame behind it.
pub const ICY_A: &[u8] = b"ICY 200 OK\r\n\r\n\xd3\x00\x02\x3e\xd0\xa4\xe0\x00";
