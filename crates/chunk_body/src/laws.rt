//! Laws of chunked bodies (RFC 9112, section 7.1), each the contract of a function that does
//! nothing: what the answers of a reader say of whole texts, and what the chunks of frames are.
ghost use Rattle.std.specs.Prelude.{◌≡◌, ℕ, ◌+◌, ◌<◌, ◌≤◌, ◌⊎◌, ◌↔◌, List, [], ◌∷◌, ◌++◌, length, All, IsTrue};
ghost use Rattle.std.specs.List.{concat, flat_map};
ghost use Rattle.rtcm_frame.specs.Transport.{is_frame};
ghost use Rattle.chunk_body.specs.declared.phase.Phase.TheVariants as phases;
ghost use Rattle.chunk_body.specs.Text.{BodyText, IsLive, IsOpen, HasEnded, IsBadAt, IsPlain};
ghost use Rattle.chunk_body.specs.Machine.{read};
ghost use Rattle.chunk_body.specs.Answer.{plain_of};
ghost use Rattle.chunk_body.specs.Written.{chunk_of};

/// A text holds one data, which is its plain data, and nothing behind a body is live.
pub fn bodies_are_plain()
    ensures nothing { IsPlain [] [] }
    ensures one_data { (text x y : List ℕ) → BodyText text x → BodyText text y → x ≡ y }
    ensures plain { (text content : List ℕ) → BodyText text content → IsPlain text content }
    ensures one_plain { (text x y : List ℕ) → IsPlain text x → IsPlain text y → x ≡ y }
    ensures nothing_behind { (text content : List ℕ) (byte : ℕ) (more : List ℕ)
        → BodyText text content → IsLive (text ++ byte ∷ more) → ⊥ }
{}

/// A live text has a continuation of bytes that is a body, and its fronts are live.
pub fn live_texts()
    ensures bytes { (text : List ℕ) → IsLive text → (behind content : List ℕ)
        × All (λ byte. byte < 256) behind × BodyText (text ++ behind) content }
    ensures fronts { (front behind : List ℕ) → IsLive (front ++ behind) → IsLive front }
{}

/// A text is open, has ended or is bad at one place, and no two of these. What has ended or is bad
/// stays so, whatever comes behind.
pub fn texts_are_one_of_three()
    ensures some { (text : List ℕ)
        → IsOpen text ⊎ (HasEnded text ⊎ ((place : ℕ) × IsBadAt text place)) }
    ensures not_bad { (text : List ℕ) (place : ℕ) → IsLive text → IsBadAt text place → ⊥ }
    ensures ended_or_bad { (text : List ℕ) (place : ℕ)
        → HasEnded text → IsBadAt text place → ⊥ }
    ensures one_place { (text : List ℕ) (j k : ℕ) → IsBadAt text j → IsBadAt text k → j ≡ k }
    ensures ended_stays { (text more : List ℕ) → HasEnded text → HasEnded (text ++ more) }
    ensures bad_stays { (text more : List ℕ) (place : ℕ)
        → IsBadAt text place → IsBadAt (text ++ more) place }
{}

/// What is read of any text says by the grammar where the text stands, and the data that it gave is
/// the plain data of the text.
pub fn reading_follows_grammar()
    ensures ended { (text : List ℕ) → ((read text).phase ≡ phases.Ended) ↔ HasEnded text }
    ensures bad { (text : List ℕ) (place : ℕ)
        → ((read text).phase ≡ phases.Broken × (read text).taken ≡ place) ↔ IsBadAt text place }
    ensures counted { (text : List ℕ) → IsOpen text → (read text).taken ≡ length text }
    ensures at_most { (text : List ℕ) → (read text).taken ≤ length text }
    ensures plain { (text : List ℕ) → IsPlain text (plain_of text) }
{}

/// Frames that are written as chunks are joined to an open text, whose plain data are the frames
/// joined; and with the shortest last chunk behind them, `0` CR LF CR LF, to a whole body. A chunk
/// has at most 7 bytes more than its frame.
pub fn frames_in_chunks()
    ensures room { (frame : List ℕ) → IsTrue (is_frame frame)
        → length (chunk_of frame) ≤ length frame + 7 }
    ensures goes_on { (frames : List (List ℕ)) → All (λ frame. IsTrue (is_frame frame)) frames
        → IsOpen (flat_map chunk_of frames) }
    ensures plain { (frames : List (List ℕ)) → All (λ frame. IsTrue (is_frame frame)) frames
        → IsPlain (flat_map chunk_of frames) (concat frames) }
    ensures whole { (frames : List (List ℕ)) → All (λ frame. IsTrue (is_frame frame)) frames
        → BodyText (flat_map chunk_of frames ++ 48 ∷ 13 ∷ 10 ∷ 13 ∷ 10 ∷ []) (concat frames) }
{}
