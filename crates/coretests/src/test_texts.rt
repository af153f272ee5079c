//! Values as tests compare them.
use crate::texts::is_text;
use std::alloc::Global;
use std::fmt::{Debug, Display};
use std::process::Abort;

/// These bytes are those of the text.
pub(crate) fn reads<R: Abort>(rt: &R, bytes: &[u8], text: &str) {
    assert!(rt; is_text(bytes, text), "{bytes:?} in place of {text}");
}

/// The value is displayed as this text.
pub(crate) fn shows<T: Display, R: Abort>(rt: &R, alloc: Global, value: &T, text: &str) {
    let shown = format!(in alloc; "{value}").expect(rt, "memory for the text");
    reads(rt, shown.as_bytes(), text);
}

/// Stops the test unless these are equal, and says where they were compared.
pub(crate) fn same_at<T: PartialEq + Debug, A: Debug + Drop, R: Abort>(
    rt: &R,
    left: &T,
    right: &T,
    at: A,
) {
    assert!(rt; *left == *right, "{left:?} in place of {right:?} at {at:?}");
}

/// Stops the test unless these are equal. A call of this is proved much faster than the comparison written out.
pub(crate) fn same<T: PartialEq + Debug, R: Abort>(rt: &R, left: &T, right: &T) {
    assert!(rt; *left == *right, "{left:?} in place of {right:?}");
}
