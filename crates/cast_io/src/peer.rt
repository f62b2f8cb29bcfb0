//! The peer of a link, as a word.
ghost use Rattle.std.specs.Prelude.{◌≡◌, IsTrue};
ghost use Rattle.std.specs.List.{list_all};
ghost use Rattle.cast_io.specs.Peers.{is_word_byte, is_peer_word, no_peer, peer_word};

use crate::calls::copy_front;
use std::marker::Model;

/// The address and port of a peer, as `192.0.2.7:51234` or `[2001:db8::7]:51234`: one word of 1 to
/// 64 bytes of printable ASCII without a space (hexadecimal 21 to 7E). It is `-` where the peer is
/// not told. Contracts see the list of its bytes.
#[derive(Drop)]
pub struct PeerAddr {
    bytes: [u8; 64],
    len: usize,
}

impl Model for PeerAddr {
    ghost use Rattle.std.specs.Prelude.{◌≤◌, ℕ, List, IsTrue, take};
    ghost use Rattle.cast_io.specs.Peers.{is_peer_word};

    ghost Value = { List ℕ };

    ghost view = { λ p. take p.len p.bytes };

    ghost invariant = { λ p. (p.len ≤ 64) × IsTrue (is_peer_word (take p.len p.bytes)) };
}

impl PeerAddr {
    /// The peer that these bytes name, where they are one word; else `-`.
    pub fn new(bytes: &[u8]) -> Self
        ensures { result ≡ peer_word bytes.now }
    {
        if !is_word(bytes) {
            return PeerAddr::unknown();
        }
        let mut word = [0; 64];
        let len = copy_front(bytes, &mut word);
        PeerAddr { bytes: word, len }
    }

    /// A peer that is not told.
    pub fn unknown() -> Self
        ensures { result ≡ no_peer }
    {
        let mut bytes = [0; 64];
        bytes[0] = b'-';
        PeerAddr { bytes, len: 1 }
    }

    /// The bytes of the word.
    pub fn as_slice(&self) -> &[u8]
        ensures value { result.now ≡ self.now }
        ensures word { IsTrue (is_peer_word result.now) }
    {
        &self.bytes[..self.len]
    }
}

// Whether this byte may stand in a word.
fn is_printed(byte: u8) -> bool
    ensures { result ≡ is_word_byte byte }
{
    (0x21..=0x7E).contains(&byte)
}

// Whether each of these bytes may stand in a word.
fn are_printed(bytes: &[u8]) -> bool
    ensures { result ≡ list_all is_word_byte bytes.now }
{
    bytes.iter().all(|byte| is_printed(*byte))
}

// Whether these bytes are one word.
fn is_word(bytes: &[u8]) -> bool
    ensures { result ≡ is_peer_word bytes.now }
{
    if bytes.is_empty() || bytes.len() > 64 {
        return false;
    }
    are_printed(bytes)
}
