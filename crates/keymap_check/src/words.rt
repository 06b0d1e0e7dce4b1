//! The words of the check. What is told stands at the places `{}`. The definitions have these bytes of their own, which
//! are proved to be the same (`specs/Said.antt`).

/// A key with a finding, its first modifier or lock and where it stands, and where the first character stands.
pub(crate) const FINDING: &[u8] =
    b"key {}: {} at slot {} column {}, character at slot {} column {}";
