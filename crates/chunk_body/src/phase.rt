//! Where in a chunked body a reader stands.
ghost use Rattle.std.specs.Prelude.{◌≡◌, ◌+◌, ◌≤◌, ◌<◌, ◌^◌, IsTrue};
ghost use Rattle.chunk_body.specs.Machine.{step, is_within, in_digits, in_extension, in_trailers, behind_size, in_data, expected, is_ended, is_broken, is_data};

const CR: u8 = b'\r';

const LF: u8 = b'\n';

/// The most digits of a size.
const DIGITS: u16 = 6;

/// The most bytes of a size line, with its end.
const SIZE_LINE: u16 = 256;

/// The most bytes of the trailer lines with the empty line.
const TRAILERS: u16 = 1024;

/// Where in a body the next byte stands.
#[derive(Clone, Copy, Debug, PartialEq, Eq)]
pub enum Phase {
    /// In a size line, of which only this many digits have come, with this value.
    Digits { count: u16, value: u32 },
    /// In the extension of a size line, of which this many bytes have come.
    Extension { count: u16, value: u32 },
    /// Before the LF of a size line.
    SizeLf { value: u32 },
    /// In a chunk's bytes, of which so many are still to come.
    Data { left: u32 },
    /// Before the CR behind a chunk's bytes.
    DataCr,
    /// Before the LF behind a chunk's bytes.
    DataLf,
    /// At the start of a trailer line or of the empty line, behind this many bytes of trailers.
    TrailerStart { count: u16 },
    /// In a trailer line, behind this many bytes of trailers.
    Trailer { count: u16 },
    /// Before the LF of a trailer line, behind this many bytes of trailers.
    TrailerLf { count: u16 },
    /// Before the LF of the empty line.
    LastLf,
    /// Behind the body.
    Ended,
    /// Behind a byte after which no continuation is a body.
    Broken,
}

impl Phase {
    /// The phase behind one more byte.
    #[tactic(auto, unfolding(crate::specs::Machine::step, crate::specs::Machine::is_within))]
    pub(crate) fn after(self, byte: u8) -> Phase
        requires { IsTrue (is_within self) }
        ensures phase { result ≡ step self byte }
        ensures within { IsTrue (is_within result) }
    {
        match self {
            Phase::Digits { count, value } => next_in_digits(count, value, byte),
            Phase::Extension { count, value } => next_in_extension(count, value, byte),
            Phase::SizeLf { value } => next_if(LF, byte, next_behind_size(value)),
            Phase::Data { left } => next_in_data(left),
            Phase::DataCr => next_if(CR, byte, Phase::DataLf),
            Phase::DataLf => next_if(LF, byte, Phase::Digits { count: 0, value: 0 }),
            Phase::TrailerStart { count } => next_in_trailers(count, byte, Phase::LastLf),
            Phase::Trailer { count } => {
                next_in_trailers(count, byte, Phase::TrailerLf { count: count + 1 })
            }
            Phase::TrailerLf { count } => {
                next_if(LF, byte, Phase::TrailerStart { count: count + 1 })
            }
            Phase::LastLf => next_if(LF, byte, Phase::Ended),
            Phase::Ended | Phase::Broken => Phase::Broken,
        }
    }

    /// The body has ended.
    pub(crate) fn is_ended(self) -> bool
        ensures { result ≡ is_ended self }
    {
        matches!(self, Phase::Ended)
    }

    /// No continuation is a body.
    pub(crate) fn is_broken(self) -> bool
        ensures { result ≡ is_broken self }
    {
        matches!(self, Phase::Broken)
    }

    /// The next byte is one of a chunk's bytes.
    pub(crate) fn is_data(self) -> bool
        ensures { result ≡ is_data self }
    {
        matches!(self, Phase::Data { .. })
    }
}

// The next phase where the byte is the one that must come here.
#[tactic(auto, unfolding(crate::specs::Machine::expected, crate::specs::Machine::is_within))]
fn next_if(wanted: u8, byte: u8, next: Phase) -> Phase
    requires { IsTrue (is_within next) }
    ensures phase { result ≡ expected wanted byte next }
    ensures within { IsTrue (is_within result) }
{
    if byte == wanted { next } else { Phase::Broken }
}

// Behind a byte in a size's digits.
#[tactic(auto, unfolding(crate::specs::Machine::in_digits, crate::specs::Machine::is_within))]
fn next_in_digits(count: u16, value: u32, byte: u8) -> Phase
    requires count { count ≤ 6 }
    requires value { value < 16 ^ count }
    ensures phase { result ≡ in_digits count value byte }
    ensures within { IsTrue (is_within result) }
{
    if count < DIGITS {
        if let Some(digit) = (byte as char).to_digit(16) {
            return Phase::Digits {
                count: count + 1,
                value: value * 16 + digit,
            };
        }
    }
    if count == 0 {
        return Phase::Broken;
    }
    if byte == b';' {
        return Phase::Extension {
            count: count + 1,
            value,
        };
    }
    next_if(CR, byte, Phase::SizeLf { value })
}

// Behind a byte in an extension.
#[tactic(auto, unfolding(crate::specs::Machine::in_extension, crate::specs::Machine::is_within))]
fn next_in_extension(count: u16, value: u32, byte: u8) -> Phase
    requires count { count ≤ 254 }
    requires value { value < 16 ^ 6 }
    ensures phase { result ≡ in_extension count value byte }
    ensures within { IsTrue (is_within result) }
{
    if byte == CR {
        return Phase::SizeLf { value };
    }
    if byte == LF || count + 3 > SIZE_LINE {
        return Phase::Broken;
    }
    Phase::Extension {
        count: count + 1,
        value,
    }
}

// Behind a size line: a chunk's bytes, or the trailers.
#[tactic(auto, unfolding(crate::specs::Machine::behind_size, crate::specs::Machine::is_within))]
fn next_behind_size(value: u32) -> Phase
    requires { value < 16 ^ 6 }
    ensures phase { result ≡ behind_size value }
    ensures within { IsTrue (is_within result) }
{
    if value == 0 {
        Phase::TrailerStart { count: 0 }
    } else {
        Phase::Data { left: value }
    }
}

// Behind one more byte of a chunk.
#[tactic(auto, unfolding(crate::specs::Machine::in_data, crate::specs::Machine::is_within))]
fn next_in_data(left: u32) -> Phase
    requires { left < 16 ^ 6 }
    ensures phase { result ≡ in_data left }
    ensures within { IsTrue (is_within result) }
{
    if left > 1 {
        Phase::Data { left: left - 1 }
    } else {
        Phase::DataCr
    }
}

// Behind a byte in the trailers, where CR leads on to this phase.
#[tactic(auto, unfolding(crate::specs::Machine::in_trailers, crate::specs::Machine::is_within))]
fn next_in_trailers(count: u16, byte: u8, behind: Phase) -> Phase
    requires count { count ≤ 1022 }
    requires behind { IsTrue (is_within behind) }
    ensures phase { result ≡ in_trailers count byte behind }
    ensures within { IsTrue (is_within result) }
{
    if byte == CR {
        return behind;
    }
    if byte == LF || count + 5 > TRAILERS {
        return Phase::Broken;
    }
    Phase::Trailer { count: count + 1 }
}
