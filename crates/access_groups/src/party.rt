//! Who a rover is, by its credentials.

ghost use Rattle.std.specs.Prelude.{◌≡◌, ◌≤◌, length};
ghost use Rattle.access_groups.specs.Admission.{anonymous_party, party_of};

use crate::admission::Denial;
use crate::password::is_password;
use cast_config::{Anonymous, Config, place_named};
use ntrip_head::Auth;

/// An account and its group, by their numbers. Named accounts are numbered from 1; 0 is the account
/// of all who give no credentials.
#[derive(Clone, Copy)]
pub(crate) struct Party {
    pub(crate) account: u32,
    pub(crate) group: u32,
}

fn anonymous_party(anonymous: Option<Anonymous>) -> Result<Party, Denial>
    ensures { result ≡ anonymous_party anonymous }
{
    match anonymous {
        None => Err(Denial::NoAccount),
        Some(anonymous) => Ok(Party {
            account: 0,
            group: anonymous.group,
        }),
    }
}

/// Who it is, or why it is nobody.
pub(crate) fn party_of(config: &Config, auth: &Auth) -> Result<Party, Denial>
    requires { length config.now.account ≤ 1024 }
    ensures { result ≡ party_of config.now auth.now }
{
    match auth {
        Auth::Unread => Err(Denial::NoAccount),
        Auth::None => anonymous_party(config.anonymous),
        Auth::Basic { user, password } => {
            let accounts = config.account.as_slice();
            let Some(place) = place_named(accounts, user.bytes()) else {
                return Err(Denial::NoAccount);
            };
            let number = place as u32 + 1;
            let account = &accounts[place];
            if is_password(account.password.bytes(), password.bytes()) {
                Ok(Party {
                    account: number,
                    group: account.group,
                })
            } else {
                Err(Denial::Password { account: number })
            }
        }
    }
}
