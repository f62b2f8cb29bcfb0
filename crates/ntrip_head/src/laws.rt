//! Laws of heads, each the contract of a function that does nothing.

ghost use Rattle.std.specs.Prelude.{◌≡◌, ◌≤◌, ◌↔◌, ℕ, IsTrue, List, ◌++◌, length, Result, Ok};
ghost use Rattle.ntrip_head.specs.Head.{ends_with_empty_line, EndsWithEmptyLine, IsHead};
ghost use Rattle.ntrip_head.specs.Answer.{HeadAnswer};
ghost use Rattle.ntrip_head.specs.Credentials.{credentials, IsBasicText};
ghost use Rattle.ntrip_head.specs.Upstream.{UpstreamAnswer};
ghost use Rattle.ntrip_head.specs.declared.request.Auth.TheVariants.{Basic};

use crate::fault::HeadFault;
use crate::request::Request;
use crate::upstream::Upstream;

/// Bytes end with an empty line exactly where a line end follows the beginning or a LF.
pub fn empty_lines_are_line_ends()
    ensures { (bytes : List ℕ) → IsTrue (ends_with_empty_line bytes) ↔ EndsWithEmptyLine bytes }
{}

/// Bytes begin with one head at most: it is the shortest front that ends with an empty line, so
/// that it does not matter what came with it or in which pieces.
pub fn bytes_begin_with_one_head()
    ensures { (head other more rest : List ℕ) → IsHead head → IsHead other
        → head ++ more ≡ other ++ rest → head ≡ other }
{}

/// A head has one answer at most.
pub fn heads_have_one_answer()
    ensures head { (bytes : List ℕ) (answer other : Result Request HeadFault)
        → HeadAnswer bytes answer → HeadAnswer bytes other → answer ≡ other }
    ensures upstream { (bytes : List ℕ) (answer other : Result Upstream HeadFault)
        → UpstreamAnswer bytes answer → UpstreamAnswer bytes other → answer ≡ other }
{}

/// The value of an `Authorization` header is of the scheme `Basic` exactly where it has the form
/// of RFC 7617: the scheme, spaces, and base64 text of the user, a colon and the password.
pub fn credentials_have_their_form()
    ensures { (value user password : List ℕ)
        → (credentials value ≡ Basic user password) ↔ IsBasicText value user password }
{}

/// What is read as a request, or as the answer of an upstream caster, is a whole head: the empty
/// line at its end is its first one, so that `HeadBuf` gives exactly these bytes.
pub fn what_is_read_is_a_head()
    ensures request { (bytes : List ℕ) (request : Request) → HeadAnswer bytes (Ok request)
        → length bytes ≤ 8192 → IsHead bytes }
    ensures upstream { (bytes : List ℕ) (upstream : Upstream) → UpstreamAnswer bytes (Ok upstream)
        → length bytes ≤ 8192 → IsHead bytes }
{}
