//! How the tests compare values, and read keymaps. What `assert_eq!` does where two values differ is proved wherever it
//! stands, and here it stands once. A library can't have this function, since it may end the process.

use keymap_core::KeyMap;
use keymap_text::read_map;
use std::fmt::Debug;
use std::process::Abort;

/// The values are equal; else the test fails and shows both.
pub(crate) fn expect_equal<T: PartialEq + Debug + Copy>(rt: &impl Abort, left: T, right: T) {
    assert_eq!(rt; left, right);
}

/// The values of a row of a table are equal; else the test fails and names the row.
pub(crate) fn expect_equal_at<R: Debug + Copy, T: PartialEq + Debug + Copy>(
    rt: &impl Abort,
    row: R,
    left: T,
    right: T,
) {
    assert_eq!(rt; left, right, "{row:?}");
}

/// The condition holds; else the test fails and names the row of a table.
pub(crate) fn expect_at<R: Debug + Copy>(rt: &impl Abort, row: R, holds: bool) {
    assert!(rt; holds, "{row:?}");
}

/// The keymap of a text without a fault.
pub(crate) fn map_of<R: Abort + AllocGlobal>(rt: &R, text: &[u8]) -> KeyMap {
    read_map(rt.alloc(), text).expect(rt, "a map")
}
