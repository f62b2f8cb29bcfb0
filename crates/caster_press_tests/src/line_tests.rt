//! Lines at their limit.
use crate::making::expect_eq;
use caster_press::{Draft, LineFault};
use std::test::Fail;

// Whether 8 bytes, 500 and the largest number are a line, and so with a piece more, which comes
// last: what that answers, and how long the line is.
fn with_last(last: &[u8]) -> (Result<(), LineFault>, usize) {
    let mut draft = Draft::new();
    for _ in 0..60 {
        let _ = draft.push(b"01234567");
    }
    let _ = draft.push_decimal(u64::MAX);
    let answer = draft.push(last);
    (answer, draft.finish().bytes().len())
}

// There are 480 bytes, 20 digits and the last piece, and the newline.
#[test]
fn a_line_has_512_bytes_at_most(rt: HostRuntime) -> Result<(), Fail> {
    for (last, answer, length) in [
        (b"0123456789".as_slice(), Ok(()), 511),
        (b"0123456789a", Ok(()), 512),
        (b"0123456789ab", Err(LineFault::Long), 501),
        (b"0\n", Err(LineFault::Newline), 501),
        (b"0123456789a\n", Err(LineFault::Long), 501),
    ] {
        expect_eq(&rt, with_last(last), (answer, length));
    }
    Ok(())
}
