//! The cases of a script, each from rest to rest.
use crate::kind::Kind;
use crate::spots::Holdings;
use keymap_core::{Holding, KeyCode};

/// What a case is about.
#[derive(Clone, Copy, Debug, PartialEq, Eq)]
pub enum What {
    /// Two modifiers or locks, on together.
    Together(Holding, Holding),
    /// A modifier or lock, pressed, repeated and released alone.
    Alone(Holding),
    /// A key that is pressed as one cell, and repeated and released as others.
    Across(KeyCode, Kind, Kind, Option<Kind>),
    /// What comes between the dead key of an accent and a base.
    Between(u8, Kind),
    /// The dead key is repeated before a base.
    BetweenRepeats(u8),
    /// Many keys that hold are pressed at once.
    Many,
    /// Characters are repeated.
    Repeats,
    /// Characters while the scroll lock is on.
    ScrollLock,
    /// The blank and the bases of an accent.
    Pairs(u8),
    /// Cells that are looked up while these are on, by keys no cell of which isn't pressed.
    Cells(Holdings),
    /// And by the other keys.
    RiskyCells(Holdings),
    /// A nop of a key some cell of which isn't pressed, between the dead key of an accent and a base.
    RiskyBetween(u8, KeyCode),
}

/// A case: what it is about, and before which event it begins.
#[derive(Clone, Copy, Debug, PartialEq, Eq)]
pub struct Case {
    pub what: What,
    pub at: usize,
}
