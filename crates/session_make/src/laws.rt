//! The laws of sessions that are made, each the contract of a function that does nothing.

ghost use Rattle.std.specs.Prelude.{◌≡◌, ℕ, ◌+◌, ◌*◌, ◌≤◌, length, sum_by, IsTrue, Ok, Some};
ghost use Rattle.rtcm_frame.specs.Transport.{is_frame, number_of};
ghost use Rattle.session_script.specs.declared.ScriptKind.TheVariants.{Bare};
ghost use Rattle.session_script.specs.Script.{IsSession, input_length, script_of};
ghost use Rattle.session_script.specs.Writing.{script_text};
ghost use Rattle.session_make.specs.Rounds.{frame_of, message_number, events_of};

/// What is made is a session of a bare script: its events are in the grammar's ranges and in an
/// order that they may have. So it can be written as a script, which is small enough and reads as
/// exactly these events.
pub fn makes_sessions()
    ensures session { (seed frames rovers : ℕ) → 1 ≤ rovers → rovers ≤ 64
        → IsSession Bare (events_of seed frames rovers) }
    ensures reads { (seed frames rovers : ℕ) → frames ≤ 10000 → 1 ≤ rovers → rovers ≤ 64
        → script_of Bare (script_text (events_of seed frames rovers))
        ≡ Ok (events_of seed frames rovers) }
{}

/// How large a session is: two events for each frame and each rover and one for the source, and at
/// most 106 bytes for each frame.
pub fn sizes_are_known()
    ensures events { (seed frames rovers : ℕ)
        → length (events_of seed frames rovers) ≡ 1 + 2 * frames + 2 * rovers }
    ensures input { (seed frames rovers : ℕ) → rovers ≤ 64
        → sum_by input_length (events_of seed frames rovers) ≤ 106 * frames }
{}

/// What comes in with a round is one whole frame of 8 to 106 bytes, with a message number from 1001
/// to 1229.
pub fn frames_are_whole()
    ensures valid { (state : ℕ) → IsTrue (is_frame (frame_of state)) }
    ensures least { (state : ℕ) → 8 ≤ length (frame_of state) }
    ensures most { (state : ℕ) → length (frame_of state) ≤ 106 }
    ensures number { (state : ℕ) → number_of (frame_of state) ≡ Some (message_number state) }
    ensures range { (state : ℕ) → (1001 ≤ message_number state) × (message_number state ≤ 1229) }
{}
