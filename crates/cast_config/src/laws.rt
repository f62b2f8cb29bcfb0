//! Laws of configurations, each the contract of a function that does nothing.

ghost use Rattle.std.specs.Prelude.{◌≡◌, ℕ, ◌≤◌, Ok};
ghost use Rattle.toml.specs.Data.{Members};
ghost use Rattle.cast_config.specs.Bare.{bare};
ghost use Rattle.cast_config.specs.Document.{config_of};
ghost use Rattle.cast_config.specs.Kept.{KeepsRules};

use crate::config::Config;

/// Every configuration that a document says keeps the rules of the file: names differ, numbers of
/// mountpoints and groups are in range, and texts are UTF-8. So does the smallest configuration,
/// but that its cap is the greatest number of its type.
pub fn configurations_keep_the_rules()
    ensures read { (ms : Members) (c : Config) → config_of ms ≡ Ok c → KeepsRules 1000000 c }
    ensures bare { (capacity : ℕ) → 1 ≤ capacity → capacity ≤ 4096
        → KeepsRules 4294967295 (bare capacity) }
{}
