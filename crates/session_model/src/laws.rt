//! Laws of the definitions, each a clause of a function that does nothing.

ghost use Rattle.std.specs.Prelude.{◌≡◌, ◌≢◌, ℕ, List, ◌++◌, Some};
ghost use Rattle.cast_config.specs.declared.config.Config.{Config};
ghost use Rattle.session_script.specs.declared.Event.{Event};
ghost use Rattle.session_calls.specs.Plans.{Begins};
ghost use Rattle.session_model.specs.Headings.{Heading, incomplete};
ghost use Rattle.session_model.specs.Judged.{Opening, judged};
ghost use Rattle.session_model.specs.Owed.{plan_of};
ghost use Rattle.session_model.specs.Reports.{IsHeadingOf, IsReport};
ghost use Rattle.session_model.specs.Promises.{KeepsAll};

use crate::report::Report;

/// All bytes of a connection have one heading at most, and what a heading says it goes on to say,
/// whatever comes behind.
pub fn bytes_have_one_heading()
    ensures one { (opening : Opening) (bytes : List ℕ) (a b : Heading)
        → IsHeadingOf (Some opening) bytes a → IsHeadingOf (Some opening) bytes b → a ≡ b }
    ensures stays { (opening : Opening) (bytes more : List ℕ) (a : Heading) → a ≢ incomplete
        → IsHeadingOf (Some opening) bytes a → IsHeadingOf (Some opening) (bytes ++ more) a }
{}

/// It does not matter in which pieces the bytes of a connection come: what its last heading says of
/// the first bytes is what the heading of these said of them.
pub fn pieces_do_not_matter()
    ensures { (c : Config) (opening : Opening) (bytes more : List ℕ) (first last : Heading)
        → IsHeadingOf (Some opening) bytes first → IsHeadingOf (Some opening) (bytes ++ more) last
        → judged c opening last bytes ≡ judged c opening first bytes }
{}

/// What all bytes of a connection owe begins with what the first of them owe.
pub fn more_bytes_go_on()
    ensures { (c : Config) (opening : Opening) (heading : Heading) (bytes more : List ℕ)
        → Begins (plan_of c (judged c opening heading bytes))
        (plan_of c (judged c opening heading (bytes ++ more))) }
{}

/// A script has one report at most.
pub fn scripts_have_one_report()
    ensures { (c : Config) (script : List Event) (a b : Report)
        → IsReport c script a → IsReport c script b → a ≡ b }
{}

/// In every recorded run each segment of each connection is sound over the frames that its
/// mountpoint published: the frames sent and those counted as overrun are together the permitted
/// ones from where it began to where its last read ended. The body of a connection reads as exactly
/// the frames sent: under NTRIP 1.0 it is cut into them, and under NTRIP 2.0 its chunks hold them.
pub fn runs_keep_their_promise()
    ensures { (c : Config) (headings : ℕ → Heading) (script : List Event)
        → KeepsAll c headings script }
{}
