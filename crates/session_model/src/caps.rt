//! How many sessions the accounts of a caster may have open.

ghost use Rattle.std.specs.Prelude.{◌≡◌, IfOk};
ghost use Rattle.session_model.specs.Setting.{anonymous_cap, caps};

use cast_config::Config;
use std::alloc::{AllocError, Global};

/// How many sessions of rovers without credentials may be open.
fn anonymous_cap(config: &Config) -> u32
    ensures { result ≡ anonymous_cap config.now.anonymous }
{
    match &config.anonymous {
        None => 0,
        Some(anonymous) => anonymous.cap,
    }
}

/// How many sessions of each account may be open, that of rovers without credentials first.
pub fn caps_of(alloc: Global, config: &Config) -> Result<Vec<u32>, AllocError>
    ensures { IfOk result (λ list. list.items ≡ caps config.now) }
{
    let mut list = Vec::new(alloc);
    list.push(anonymous_cap(config))?;
    for account in config.account.as_slice() {
        list.push(account.cap)?;
    }
    Ok(list)
}
