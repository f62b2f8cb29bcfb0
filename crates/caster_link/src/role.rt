/// How a connection is served.
#[derive(Clone, Copy)]
pub enum Role {
    /// As one of a client, which is to send a head.
    Caller,
    /// As the relay of this number, from 0, which asks another caster.
    Relay(u32),
}
