use ntrip_head::HeadBuf;
use rover_session::RoverSession;
use source_session::SourceSession;
use upstream_relay::RelaySession;

/// How far a connection is.
#[derive(Drop)]
pub enum SessionStage {
    /// Its head is awaited.
    Head(HeadBuf),
    /// Nothing is left to be closed: it was refused, or sent the sourcetable.
    Over,
    /// A source that was given the claim of the mountpoint of this number.
    Source { mount: u32, session: SourceSession },
    /// A relay that feeds the mountpoint of this number.
    Relay { mount: u32, session: RelaySession },
    /// A rover that entered the account of this number.
    Rover { account: u32, session: RoverSession },
}
