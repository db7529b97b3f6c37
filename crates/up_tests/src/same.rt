//! The comparison of what a test finds with what it wants.
use std::fmt::Debug;
use std::process::Abort;

/// Checks that two values are the same. If they differ, shows both and ends the test.
pub fn expect_same<T: Debug + PartialEq, R: Abort>(rt: &R, found: &T, wanted: &T) {
    assert_eq!(rt; *found, *wanted);
}

/// Checks that the bytes are this text.
pub fn expect_text(rt: &impl Abort, found: &[u8], wanted: &str) {
    expect_same(rt, &str::from_utf8(found).expect(rt, "text"), &wanted);
}
