//! Laws of the texts, each a clause of a function that does nothing.

ghost use Rattle.std.specs.Prelude.{◌≡◌, ℕ, List};
ghost use Rattle.cast_config.specs.declared.config.Config.{Config};
ghost use Rattle.session_script.specs.declared.Event.{Event};
ghost use Rattle.session_script.specs.declared.ScriptKind.TheVariants.{Bare};
ghost use Rattle.session_script.specs.Script.{IsSession};
ghost use Rattle.run_texts.specs.Texts.{IsRunText, IsWarmText, bare_report_text};

/// A script has one text at most, with greetings and without, and that of bare connections is the
/// report of a run in which none of them sends a head.
pub fn runs_have_one_text()
    ensures one { (c : Config) (events : List Event) (a b : List ℕ)
        → IsRunText c events a → IsRunText c events b → a ≡ b }
    ensures one_greeted { (c : Config) (events : List Event) (a b : List ℕ)
        → IsWarmText c events a → IsWarmText c events b → a ≡ b }
    ensures bare { (c : Config) (events : List Event) (text : List ℕ) → IsSession Bare events
        → IsRunText c events text → text ≡ bare_report_text c events }
{}
