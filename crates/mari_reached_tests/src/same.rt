//! What tests compare.
//!
//! Written out in a test, an `assert_eq!` is proved in sight of all that the test holds at that place, which takes
//! seconds each; a call doesn't. What a proof goes on from, such as a length, a test asserts itself.

use std::fmt::Debug;
use std::process::Abort;

/// Fails where two values differ.
pub(crate) fn same<T: PartialEq + Debug + Drop>(rt: &impl Abort, got: T, want: T) {
    assert_eq!(rt; got, want);
}

/// Fails where two values differ, and names the case.
pub(crate) fn same_in<T: PartialEq + Debug + Drop>(rt: &impl Abort, case: &str, got: T, want: T) {
    assert_eq!(rt; got, want, "{case}");
}
