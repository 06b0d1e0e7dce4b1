//! What is wrong with the bytes of a table file.

ghost use Rattle.std.specs.Prelude.{◌≡◌, ◌+◌, ◌^◌, ◌<◌};

use keymap_core::ReadFault;
use thiserror::Error;

/// What stands at the offset of a fault.
#[derive(Clone, Copy, Debug, PartialEq, Eq)]
pub enum TableFaultKind {
    /// The file ends there, and is too short.
    Short,
    /// The file goes on there, past its length.
    Long,
    /// A count of slots above 256, or of accents above 15.
    BadCount,
    /// A pad that isn't 0.
    BadPad,
    /// A lock flag above 3.
    BadFlag,
    /// A cell that is marked as an action, with a number that is none.
    BadAction,
    /// A cell that is marked as an action, with the code of one that joins a modifier with the alt lock.
    Combined,
    /// A number that is no character.
    BadChar,
    /// A byte that isn't 0, in a slot, an accent or a pair that isn't in use.
    NotEmpty,
}

/// A fault, at so many bytes from the start of the file.
#[derive(Clone, Copy, Debug, PartialEq, Eq)]
pub struct TableFault {
    pub offset: u64,
    pub kind: TableFaultKind,
}

/// Why tables were not read.
#[derive(Clone, Copy, Debug, PartialEq, Eq, Error)]
pub enum TableError {
    #[error("out of memory")]
    Memory,
    #[error("the reader failed after {} bytes", .0.offset)]
    Read(ReadFault),
    #[error("a fault at offset {}: {:?}", .0.offset, .0.kind)]
    Fault(TableFault),
}

impl TableFault {
    /// The fault as it is told of a file in which `base` more bytes come before.
    pub(crate) fn after(self, base: usize) -> TableFault
        requires { base + self.offset < 2 ^ 64 }
        ensures { result ≡ record self { offset = base + self.offset } }
    {
        TableFault {
            offset: base as u64 + self.offset,
            kind: self.kind,
        }
    }
}
