//! How connections end.

/// How a connection was closed from outside.
#[derive(Clone, Copy)]
pub enum Last {
    /// It came to its end.
    End,
    /// A read of it failed.
    ReadFault,
    /// A write to it failed.
    WriteFault,
}

/// How a connection ended.
#[derive(Clone, Copy, Debug, PartialEq, Eq)]
pub enum Ending {
    /// A source that held this claim came to its end, or its chunked body did.
    SourceEnd { claim: u64 },
    /// A rover came to its end.
    RoverEnd,
    /// The sourcetable was sent.
    TableSent,
    /// It came to its end before its head was whole, or an upstream caster before its answer was.
    NoHead,
    /// Its head is none that the caster reads.
    BadHead,
    /// Its head has no end within 8,192 bytes.
    LongHead,
    /// The method of its head is neither `GET` nor `POST`.
    Method,
    /// Its body would come in a transfer coding other than `chunked`.
    Coding,
    /// It asked for a mountpoint that is not there.
    NoMount,
    /// It named no account.
    NoAccount,
    /// It gave another password than that of this account, numbered from 1.
    Password { account: u32 },
    /// It gave another password than that of its mountpoint.
    SourcePassword,
    /// The group of its account, numbered from 0, does not list what it asked for.
    Denied { group: u32 },
    /// This caller holds the mountpoint, under this claim.
    Taken { caller: u32, claim: u64 },
    /// So many sessions of its account are open, and no more may be.
    Full { busy: u32, cap: u32 },
    /// The byte at this place of its chunked body, from 0, breaks the coding.
    BadChunk { at: u64 },
    /// An upstream caster answered with its sourcetable.
    UpstreamTable,
    /// An upstream caster answered with this status, which is not 200.
    Upstream { status: u16 },
    /// A read of it failed.
    ReadFault,
    /// A write to it failed.
    WriteFault,
    /// A place was worn by so many turns.
    Worn { turns: u64 },
    /// Memory was lacking.
    Memory,
}
