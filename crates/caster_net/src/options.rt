//! Options of sockets for which std has no call.
ghost use Rattle.std.specs.Prelude.{◌≡◌, ◌<◌, ◌^◌};
ghost use Rattle.libc.specs.Net.{SockOption};
ghost use Rattle.caster_net.specs.Options.{number_value, time_value};

use libc::net::{
    IPPROTO_TCP, SO_KEEPALIVE, SO_RCVTIMEO, SO_SNDBUF, SOL_SOCKET, TCP_KEEPCNT, TCP_KEEPIDLE,
    TCP_KEEPINTVL, TCP_USER_TIMEOUT, setsockopt,
};
use std::io;
use std::net::{TcpListener, TcpStream};
use std::os::fd::{AsRawFd, RawFd};

// After how many seconds without a byte the system asks whether the peer is still there.
const IDLE: u32 = 60;

// After how many seconds it asks again.
const INTERVAL: u32 = 10;

// After how many questions with no answer the connection has failed.
const PROBES: u32 = 3;

// After how many milliseconds the connection has failed, where bytes were sent and the peer's
// system acknowledged none of them: as long as all questions take where none were sent.
const UNACKNOWLEDGED: u32 = 90_000;

// The longest time, in milliseconds, before what nobody acknowledged is sent again: so a peer that
// is gone is found out in time where little is sent. Linux has this option from 6.15 on.
const AGAIN: u32 = 8_000;

// The number of that option, of which the C library has no name.
const TCP_RTO_MAX_MS: i32 = 44;

/// The option of a connection by which a peer that is gone is found out.
pub(crate) trait KeepAlive {
    /// Has the system find out that the peer is gone: by questions where nothing is sent (RFC 9293,
    /// section 3.8.4), and else by the bytes that nobody acknowledges (RFC 5482), which are sent
    /// again every eight seconds or more often. Where it cannot, the connection is as good without.
    fn keep_alive(&self);
}

impl KeepAlive for TcpStream {
    // Untied: which options are set.
    fn keep_alive(&self) {
        let fd = self.as_raw_fd();
        set(fd, SOL_SOCKET, SO_KEEPALIVE, 1);
        set(fd, IPPROTO_TCP, TCP_KEEPIDLE, IDLE);
        set(fd, IPPROTO_TCP, TCP_KEEPINTVL, INTERVAL);
        set(fd, IPPROTO_TCP, TCP_KEEPCNT, PROBES);
        set(fd, IPPROTO_TCP, TCP_RTO_MAX_MS, AGAIN);
        set_user_timeout(fd, UNACKNOWLEDGED);
    }
}

/// How many bytes the system keeps of what is sent over this connection, which it doubles for what
/// it notes beside them.
// Untied: which options are set.
pub(crate) fn set_buffer(fd: RawFd, bytes: u32) {
    set(fd, SOL_SOCKET, SO_SNDBUF, bytes);
}

/// After how many milliseconds a connection has failed whose peer acknowledges nothing of what was
/// sent; 0 is for ever.
// Untied: which options are set.
pub(crate) fn set_user_timeout(fd: RawFd, millis: u32) {
    set(fd, IPPROTO_TCP, TCP_USER_TIMEOUT, millis);
}

// Sets this option of a connection. Where the system has none such, it stays as it was.
// Untied: which options are set.
fn set(fd: RawFd, level: i32, name: i32, value: u32)
    requires { SockOption level name }
{
    // SAFETY: a call of `setsockopt` needs an option whose value holds no pointer, and a length of
    // at most the 16 bytes of its value. The callers name such an option, and the length is that of
    // a number. The check proves both.
    unsafe {
        setsockopt(fd, level, name, &number(value), 4);
    }
}

/// The option of a listener by which its accepts end.
pub(crate) trait LimitAccepts {
    /// An accept waits for so many milliseconds at most, which are above 0. Then it finds nothing.
    fn limit_accepts(&self, millis: u64) -> io::Result<()>;
}

impl LimitAccepts for TcpListener {
    // Untied: which options are set.
    fn limit_accepts(&self, millis: u64) -> io::Result<()> {
        let limit = time(millis);
        // SAFETY: the value of `SO_RCVTIMEO` holds no pointer, and all 16 bytes of `limit` are
        // there. The check proves both conditions of the call.
        let status = unsafe { setsockopt(self.as_raw_fd(), SOL_SOCKET, SO_RCVTIMEO, &limit, 16) };
        if status == 0 {
            Ok(())
        } else {
            Err(io::Error::from(io::ErrorKind::Other))
        }
    }
}

// A number as the system reads it.
fn number(number: u32) -> [u8; 16]
    ensures { result ≡ number_value number }
{
    let mut value = [0; 16];
    value[..4].copy_from_slice(&number.to_ne_bytes());
    value
}

// So many milliseconds as the system reads them.
fn time(millis: u64) -> [u8; 16]
    ensures { result ≡ time_value millis }
{
    let mut value = [0; 16];
    value[..8].copy_from_slice(&(millis / 1000).to_ne_bytes());
    value[8..].copy_from_slice(&(millis % 1000 * 1000).to_ne_bytes());
    value
}
