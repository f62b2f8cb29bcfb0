//! Relays whose upstream caster refuses.

use crate::casting::{Answer, came_back, carry_out, has_ended, is_closed, mount, sum};
use crate::fakes::street_of;
use crate::link_tests::relay;
use crate::setting::{RELAY, REQUEST};
use crate::telling::Back;
use session_core::Ending;
use std::alloc::Global;
use std::sync::Wait;
use std::test::Fail;
use std::thread::Threads;
use test_support::FRAME_A;

/// What a caster came to whose relay is answered so, with a frame behind it.
fn serve_with_upstream<R: Threads + Wait + Sync>(
    rt: &R,
    alloc: Global,
    answer: &[u8],
) -> Result<(Answer, Back), Fail> {
    let street = street_of(alloc, [&[], &[], &[]], &[&[answer, FRAME_A]], &[], &[])?;
    carry_out(rt, alloc, RELAY, 1, street)
}

// What stands behind the answer is not read any more.
#[test]
fn a_refused_relay_publishes_nothing(rt: HostRuntime) -> Result<(), Fail> {
    for answer in [
        b"HTTP/1.1 404 Not Found\r\n\r\n".as_slice(),
        b"HTTP/1.0 401 Unauthorized\r\nContent-Length: 0\r\n\r\n".as_slice(),
    ] {
        let (answer, back) = serve_with_upstream(&rt, rt.alloc(), answer)?;
        let none = sum(0, 0, 0);
        assert!(rt; is_closed(answer, [mount(0, 0), mount(0, 0)], [none, none], none));
        let asked = b"three at 127.0.0.1:0\ndial 127.0.0.1:2101\n";
        assert!(rt; came_back(&back, 3, 1, asked, 0));
        assert!(rt; has_ended(&back.links, 0, REQUEST, 1));
    }
    Ok(())
}

#[test]
fn the_receipt_of_a_relay_has_the_refusal(rt: HostRuntime) -> Result<(), Fail> {
    for (answer, ending) in [
        (
            b"HTTP/1.1 404 Not Found\r\n\r\n".as_slice(),
            Ending::Upstream { status: 404 },
        ),
        (
            b"HTTP/1.0 401 Unauthorized\r\nContent-Length: 0\r\n\r\n".as_slice(),
            Ending::Upstream { status: 401 },
        ),
        (b"SOURCETABLE 200 OK\r\n".as_slice(), Ending::UpstreamTable),
        (b"ERROR - Bad Password\r\n".as_slice(), Ending::BadHead),
    ] {
        let told = relay(&rt, rt.alloc(), &[answer, FRAME_A])?;
        assert!(rt; told.ending == ending);
    }
    Ok(())
}
