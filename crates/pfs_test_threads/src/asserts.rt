//! Assertions as calls: behind a call a test knows no more than before, so a proof of many of them stays short.

use std::fmt::Debug;
use std::process::Abort;

// The two are equal; the text says what they are.
pub(crate) fn same<T: PartialEq + Debug + Drop>(rt: &impl Abort, what: &str, got: T, want: T) {
    assert_eq!(rt; got, want, "{what}");
}
