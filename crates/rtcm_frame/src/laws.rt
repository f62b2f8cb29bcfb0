//! Laws of frames and of the cut, each the contract of a function that does nothing: what a reader
//! of RTCM 10403.3 expects of any frame, and of any cut of a byte stream into frames.
ghost use Rattle.std.specs.Prelude.{◌≡◌, ℕ, ◌+◌, ◌*◌, ◌/◌, ◌<◌, List, [], ◌∷◌, ◌++◌, length, All, sum_by};
ghost use Rattle.std.specs.Prelude.{IsTrue, slice_index, bit_xor, replicate};
ghost use Rattle.rtcm_frame.specs.Crc.{crc24q_of, xor_each};
ghost use Rattle.std.specs.List.{concat};
ghost use Rattle.rtcm_frame.specs.Transport.{is_frame, framed, payload, number_of};
ghost use Rattle.rtcm_frame.specs.Cut.{cut, with_frame, with_junk, followed_by};
ghost use Rattle.rtcm_frame.specs.Order.{IsUnfinishedFrame, HasNoFrameInFront, StandIn};

/// CRC-24Q starts at 0 and ends with no exclusive or, so it is linear: the checksum of two messages
/// of one length, byte by byte exclusive-ored, is that of their checksums; and of a message in two
/// parts the front counts as if zeros followed it.
pub fn checksum_is_linear()
    ensures linear { (a b : List ℕ) → length a ≡ length b
        → crc24q_of (xor_each a b) ≡ bit_xor (crc24q_of a) (crc24q_of b) }
    ensures parts { (front behind : List ℕ) → crc24q_of (front ++ behind)
        ≡ bit_xor (crc24q_of (front ++ replicate (length behind) 0)) (crc24q_of behind) }
{}

/// What a frame is made of: every payload of at most 1,023 bytes makes one with every six reserved
/// bits, and every frame of bytes is made so. Its number is the payload's first twelve bits.
pub fn frame_by_parts()
    ensures made { (reserved : ℕ) (content : List ℕ) → length content < 1024
        → IsTrue (is_frame (framed reserved content)) }
    ensures every { (frame : List ℕ) → All (λ byte. byte < 256) frame → IsTrue (is_frame frame)
        → frame ≡ framed (slice_index frame 1 / 4) (payload frame) }
    ensures number { (reserved a b : ℕ) (behind : List ℕ)
        → number_of (framed reserved (a ∷ b ∷ behind)) ≡ Some (a * 16 + b / 16) }
    ensures no_number { (reserved : ℕ) (content : List ℕ) → length content < 2
        → number_of (framed reserved content) ≡ None }
{}

/// The four cases of the cut: nothing; a whole frame in front is cut off and the cut goes on
/// behind it; a frame that has not all come waits as the rest; any other first byte is junk and
/// the cut goes on with the next byte.
pub fn cut_by_cases()
    ensures nothing { cut [] ≡ record { frames = []; junk = 0; rest = [] } }
    ensures frame { (frame behind : List ℕ) → IsTrue (is_frame frame)
        → cut (frame ++ behind) ≡ with_frame frame (cut behind) }
    ensures unfinished { (bytes : List ℕ) → IsUnfinishedFrame bytes
        → cut bytes ≡ record { frames = []; junk = 0; rest = bytes } }
    ensures junk { (x : ℕ) (behind : List ℕ)
        → HasNoFrameInFront (x ∷ behind) → (IsUnfinishedFrame (x ∷ behind) → ⊥)
        → cut (x ∷ behind) ≡ with_junk (cut behind) }
{}

/// A stream that comes in two parts is cut as its first part, and then as what the first part left
/// waiting, with the second part behind it.
pub fn cut_in_parts()
    ensures { (a b : List ℕ)
        → cut (a ++ b) ≡ followed_by (cut a) (cut ((cut a).rest ++ b)) }
{}

/// The cut loses nothing: every frame is valid, the lengths of frames and rest with the count of
/// junk are the length of the stream, and the frames stand in the stream in this order.
pub fn cut_loses_none()
    ensures valid { (bytes : List ℕ) → All (λ frame. IsTrue (is_frame frame)) (cut bytes).frames }
    ensures counted { (bytes : List ℕ) → sum_by length (cut bytes).frames + (cut bytes).junk
        + length (cut bytes).rest ≡ length bytes }
    ensures order { (bytes : List ℕ)
        → StandIn (cut bytes).frames (cut bytes).junk (cut bytes).rest bytes }
{}

/// Frames that are joined to one byte string are cut into exactly these frames, with no junk and no
/// rest.
pub fn cut_of_frames()
    ensures { (frames : List (List ℕ)) → All (λ frame. IsTrue (is_frame frame)) frames
        → cut (concat frames) ≡ record { frames = frames; junk = 0; rest = [] } }
{}
