//! What is wrong with a text.
ghost use Rattle.std.specs.Prelude.{◌≡◌, ◌≤◌, length};
ghost use Rattle.keymap_text.specs.FaultNames.{fault_name};

use keymap_core::ReadFault;
use thiserror::Error;

/// The kinds of faults of a text.
#[derive(Clone, Copy, Debug, PartialEq, Eq)]
pub enum TextFaultKind {
    /// A byte that begins no token.
    BadByte,
    /// An apostrophe at which no quoted character stands.
    BadLiteral,
    /// A word without a meaning, or of more than 32 bytes.
    BadWord,
    /// A token that isn't wanted at its place.
    Unexpected,
    /// A slot above 255.
    KeyTooLarge,
    /// A number that is no Unicode scalar value, where a character is wanted.
    BadChar,
    /// A screen or function key that doesn't exist.
    BadFunction,
    /// A pair after the 52nd of an accent.
    TooManyPairs,
    /// A pair whose base is the character 0.
    ZeroBase,
    /// The name of a modifier joined with a lock.
    Combined,
    /// The text ends inside a token or a definition.
    EndInside,
}

impl TextFaultKind {
    /// The name of the kind, which is told with a fault; it has at most 12 letters.
    pub fn name(self) -> &'static [u8]
        ensures name { result.now ≡ fault_name self }
        ensures bound { length result.now ≤ 12 }
    {
        match self {
            TextFaultKind::BadByte => b"BadByte",
            TextFaultKind::BadLiteral => b"BadLiteral",
            TextFaultKind::BadWord => b"BadWord",
            TextFaultKind::Unexpected => b"Unexpected",
            TextFaultKind::KeyTooLarge => b"KeyTooLarge",
            TextFaultKind::BadChar => b"BadChar",
            TextFaultKind::BadFunction => b"BadFunction",
            TextFaultKind::TooManyPairs => b"TooManyPairs",
            TextFaultKind::ZeroBase => b"ZeroBase",
            TextFaultKind::Combined => b"Combined",
            TextFaultKind::EndInside => b"EndInside",
        }
    }
}

/// A fault of a text with its place: the offset in bytes, and the line, counted from 1.
#[derive(Clone, Copy, Debug, PartialEq, Eq)]
pub struct TextFault {
    pub offset: u64,
    pub line: u64,
    pub kind: TextFaultKind,
}

/// Why a text gave no map.
#[derive(Clone, Copy, Debug, PartialEq, Eq, Error)]
pub enum TextError {
    #[error("out of memory")]
    Memory,
    /// The reader failed, or the text is longer than one that is read from a reader may be.
    #[error("the text can't be read")]
    Read(ReadFault),
    #[error("the text has a fault")]
    Fault(TextFault),
}
