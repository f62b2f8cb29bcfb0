//! An assertion that costs a test little.
use std::fmt::Debug;
use std::process::Abort;

// What was found is what was wanted. It is proved once for all types, and so costs a test less than
// an assertion of its own.
pub(crate) fn expect_eq<T: Copy + Debug + PartialEq>(rt: &impl Abort, found: T, wanted: T) {
    assert_eq!(rt; found, wanted);
}
