//! The names of a configuration, as words of a line.

ghost use Rattle.std.specs.Prelude.{◌≡◌};
ghost use Rattle.keep_lines.specs.Words.{IsWord};
ghost use Rattle.keep_lines.specs.Lines.{mount_word, user_word};

use cast_config::Config;

/// What stands for something that is not there.
pub(crate) const DASH: &[u8] = b"-";

/// The name of this mountpoint, or a dash where the configuration has none of this number.
#[tactic(auto, using(crate::proofs::WordLemmas::name_is_word))]
pub(crate) fn mount_word(config: &Config, mount: u32) -> &[u8]
    ensures value { result.now ≡ mount_word config.now mount }
    ensures word { IsWord result.now }
{
    match config.mount.as_slice().get(mount as usize) {
        None => DASH,
        Some(mount) => mount.name.bytes(),
    }
}

/// The user of this account, or a dash where it has none.
#[tactic(auto, using(crate::proofs::WordLemmas::name_is_word))]
pub(crate) fn user_word(config: &Config, account: u32) -> &[u8]
    ensures value { result.now ≡ user_word config.now account }
    ensures word { IsWord result.now }
{
    if account == 0 {
        return DASH;
    }
    match config.account.as_slice().get(account as usize - 1) {
        None => DASH,
        Some(account) => account.user.bytes(),
    }
}
