//! What is written of a script that is played.

/// What is written of a script that is played.
#[derive(Clone, Copy, Debug, PartialEq, Eq)]
pub enum Show {
    /// A line for each delivered event.
    Lines,
    /// The bytes that the answers type.
    Typed,
}
