//! Lines for the tests.
use caster_press::{Draft, Line};
use std::alloc::Global;
use std::fmt::Debug;
use std::process::Abort;
use std::test::Fail;

// What was found is what was wanted. It is proved once for all types, and so costs a test less than
// an assertion of its own.
pub(crate) fn expect_eq<T: Copy + Debug + PartialEq>(rt: &impl Abort, found: T, wanted: T) {
    assert_eq!(rt; found, wanted);
}

// A line of this word and this number.
pub(crate) fn line_of(word: &[u8], number: u64) -> Result<Line, Fail> {
    let mut draft = Draft::new();
    if draft.push(word).is_err()
        || draft.push(b" ").is_err()
        || draft.push_decimal(number).is_err()
    {
        return Err("a line is too long".into());
    }
    Ok(draft.finish())
}

// The lines of this word and the numbers from 0 up to this one.
pub(crate) fn lines_of(alloc: Global, word: &[u8], count: u64) -> Result<Vec<Line>, Fail> {
    let mut lines = Vec::new(alloc);
    for number in 0..count {
        lines.push(line_of(word, number)?)?;
    }
    Ok(lines)
}
