//! What the head of a connection asked.

ghost use Rattle.std.specs.Prelude.{◌≡◌, ℕ, List, Some};
ghost use Rattle.std.specs.Option.{option_copied};
ghost use Rattle.session_model.specs.Headings.{Heading};
ghost use Rattle.session_model.specs.Judged.{Opening};
ghost use Rattle.session_model.specs.Reports.{IsHeadingOf};
ghost use Rattle.session_core.specs.Asking.{IsAsking, TellsAsked, asked_in, asked_of, user_of};

use crate::session::Session;
use cast_text::{MountName, Text};
use ntrip_head::{Auth, Request, Version};

/// What the head of a connection asked. No password is kept.
#[derive(Drop)]
pub enum Asked {
    /// The sourcetable.
    Table(Version),
    /// The frames of the mountpoint of this name, with the user of its credentials, if they name
    /// one.
    Rover {
        version: Version,
        mount: MountName,
        user: Option<Text>,
    },
    /// To give the frames of the mountpoint of this name.
    Source {
        version: Version,
        mount: MountName,
    },
}

/// The user of these credentials, if they name one.
fn user_of(auth: Auth) -> Option<Text>
    ensures { result ≡ user_of auth }
{
    match auth {
        Auth::None => None,
        Auth::Basic {
            user,
            password: _password,
        } => Some(user),
        Auth::Unread => None,
    }
}

/// What this request asks.
pub(crate) fn asked_of(request: Request) -> Asked
    ensures { result ≡ asked_of request }
{
    match request {
        Request::Table(version) => Asked::Table(version),
        Request::Rover {
            version,
            mount,
            auth,
            gga: _gga,
        } => Asked::Rover {
            version,
            mount,
            user: user_of(auth),
        },
        Request::Source {
            version,
            mount,
            password: _password,
            chunked: _chunked,
        } => Asked::Source { version, mount },
    }
}

impl Session {
    /// What its head asked, from when it was whole to the end of the session, without the
    /// password. Nothing where there is no head, where it was refused, and where memory was
    /// lacking to read it.
    pub fn asks(&self) -> Option<&Asked>
        ensures value { option_copied result ≡ self.now.asked }
        ensures heading { (opening : Opening) (heading : Heading) (text : List ℕ)
            → IsHeadingOf (Some opening) text heading → TellsAsked opening text self.now
            → IsAsking (option_copied result) self.now.ended (asked_in heading) }
    {
        self.asked.as_ref()
    }
}
