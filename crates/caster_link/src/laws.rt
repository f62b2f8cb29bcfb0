//! Laws of connections that were served, each a clause of a function that does nothing.

ghost use Rattle.std.specs.Prelude.{◌≡◌, ℕ, List};
ghost use Rattle.cast_io.specs.declared.steps.Step.{Step};
ghost use Rattle.source_session.specs.Body.{frames_of};
ghost use Rattle.session_calls.specs.Rings.{history_at};
ghost use Rattle.cast_config.specs.declared.config.Config.{Config};
ghost use Rattle.session_model.specs.declared.ending.Last.{Last};
ghost use Rattle.session_model.specs.declared.report.Receipt.{Receipt};
ghost use Rattle.session_model.specs.Judged.{Opening, SourceTerms};
ghost use Rattle.session_model.specs.Owed.{holding, came_to};
ghost use Rattle.session_model.specs.Run.{Histories};
ghost use Rattle.session_core.specs.Standing.{is_halted};
ghost use Rattle.session_model.specs.Courses.{steps_of};
ghost use Rattle.caster_link.specs.Publishes.{AreDue, HasPublished};
ghost use Rattle.caster_link.specs.Served.{LinkGoes};

/// A source, or a relay, that was given its claim has published exactly the frames of its body, in
/// order and each once, behind its Claim and before its Release; where it was halted, the first of
/// them.
pub fn sources_publish_their_frames()
    ensures { (c : Config) (opening : Opening) (me : ℕ) (start now : Histories) (took : List Step)
        (written : List ℕ) (last : Last) (receipt : Receipt)
        (goes : LinkGoes c opening me start now took written last receipt)
        (terms : SourceTerms) (body : List ℕ) (claim : ℕ)
        → came_to goes.j (steps_of goes.events) ≡ holding terms body claim
        → (frames : List (List ℕ))
        × AreDue (is_halted goes.ended) frames (frames_of terms.chunked body)
        × HasPublished me claim (history_at start.rings terms.mount)
        (history_at now.rings terms.mount) frames }
{}
