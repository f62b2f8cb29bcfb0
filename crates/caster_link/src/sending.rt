//! What a link is sent.

ghost use Rattle.std.specs.Prelude.{◌≡◌, [], OnOk, OnErr};
ghost use Rattle.caster_link.specs.Sending.{HasSent, HasTorn};

use cast_io::{Failed, Link};

/// Sends all of it, and leaves nothing; then the link rests, if it may. Before it is told where its
/// session is, if that is at a mountpoint. After a failure some first bytes of it were sent.
pub(crate) fn send<L: Link>(
    mount: Option<u32>,
    link: &mut L,
    out: &mut Vec<u8>,
    may_rest: bool,
) -> Result<(), Failed>
    ensures ok { OnOk result (HasSent (L.told link.old) (L.told link.new) out.old.items) }
    ensures empty { OnOk result (out.new.items ≡ []) }
    ensures err { OnErr result (HasTorn (L.told link.old) (L.told link.new) out.old.items) }
{
    if let Some(mount) = mount {
        link.set_mount(mount);
    }
    if !out.is_empty() {
        link.write(out)?;
        out.clear();
    }
    if may_rest {
        link.rest();
    }
    Ok(())
}
