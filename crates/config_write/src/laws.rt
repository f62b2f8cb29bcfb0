//! Laws of what is written, each the contract of a function that does nothing.

ghost use Rattle.std.specs.Prelude.{◌≡◌, ◌⊎◌, ℕ, List, Result, Ok, Err};
ghost use Rattle.cast_config.specs.declared.config.Config.{Config};
ghost use Rattle.cast_config.specs.declared.fault.ConfigFault.{ConfigFault};
ghost use Rattle.cast_config.specs.declared.fault.ConfigFault.TheVariants.{Memory};
ghost use Rattle.cast_config.specs.Document.{IsRead};

/// Of bytes that are read as a configuration, `read_config` answers this configuration, unless
/// memory runs out.
pub fn a_document_is_read_as_one_configuration()
    ensures { (bytes : List ℕ) (c : Config) (answer : Result Config ConfigFault)
        → IsRead bytes (Ok c) → IsRead bytes answer
        → (answer ≡ Ok c) ⊎ (answer ≡ Err Memory) }
{}
