//! Laws of replies, each the contract of a function that does nothing.

ghost use Rattle.std.specs.Prelude.{◌≡◌, ◌<◌, ◌^◌, ℕ, List, length, Some, Ok};
ghost use Rattle.ntrip_head.specs.Upstream.{UpstreamAnswer};
ghost use Rattle.ntrip_head.specs.declared.request.Version.TheVariants.{Two};
ghost use Rattle.ntrip_reply.specs.declared.kind.Reply.TheVariants as replies;
ghost use Rattle.ntrip_reply.specs.Body.{HasBody};
ghost use Rattle.ntrip_reply.specs.Status.{read_in};
ghost use Rattle.ntrip_reply.specs.Text.{reply_text};

use crate::kind::Reply;
use ntrip_head::{Upstream, Version};

/// Where a reply is the head of an HTTP response, it is one from its first byte to its last by the
/// grammar of RFC 9112, and whoever reads it as `ntrip_head::read_upstream` does finds the status,
/// and that chunks follow exactly where a rover of version 2 is admitted.
pub fn replies_are_heads_of_http()
    ensures { (version : Version) (r : Reply) (table : List ℕ) (upstream : Upstream)
        → read_in version r ≡ Some upstream
        → UpstreamAnswer (reply_text version r table) (Ok upstream) }
{}

/// The sourcetable of version 2 is the body of an HTTP response: its head has the status 200 and
/// says how many bytes the table has, and the table follows.
pub fn a_table_is_the_body_of_its_reply()
    ensures { (table : List ℕ) → length table < 2 ^ 64
        → HasBody (reply_text Two replies.Table table) 200 table }
{}
