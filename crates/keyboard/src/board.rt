//! The boards.

/// A keyboard.
#[derive(Clone, Copy, Debug, PartialEq, Eq)]
pub enum Board {
    /// 105 keys, with a high Enter.
    Iso,
    /// 104 keys, with a flat Enter.
    Ansi,
}
