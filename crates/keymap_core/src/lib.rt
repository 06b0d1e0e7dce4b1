//! The values of a keymap(5) of the FreeBSD console, and the devices that bytes come from and go to.
//!
//! A [`KeyMap`] is `struct keymap` and `struct accentmap` of sys/kbio.h: entries of eight cells and a lock flag, and
//! accents with their pairs. A cell is a character or an [`Action`], which has a code in tables and a name in texts. A
//! contract sees a map as the lists of its defined entries and accents, and specs/ states on these lists which slots
//! are live and which keys bear which modifiers and locks. The crates for texts, tables and the translation stand on
//! these values.
//!
//! [`Read`] and [`Write`] are the devices of all calls that read or write: their laws say which bytes a call took, and
//! that a failure is never taken for an end. A caller learns of each call how many bytes were taken before a fault.
//!
//! Nothing here takes memory but [`KeyMap::new`], [`KeyMap::try_clone`] and [`read_up_to`]. A map reserves at once all
//! that it ever holds, so no later change can fail. The texts and names of fixed capacity are those of `arrayvec`.
#![tactic(auto)]

mod accent;
mod action;
mod bearers;
mod bounds;
mod code_point;
mod definitions;
mod device;
mod entry;
mod from_std;
mod key_code;
mod keymap;
pub mod laws;
mod limits;
mod map;
mod named;
mod names;
mod passing;
mod stream;
mod to_std;
mod transfer;
mod unseen;

pub use accent::{Accent, PairFault};
pub use action::{
    AccentIndex, Action, FunctionNumber, HOLDINGS, Holding, LOCKS, Lock, MODIFIERS, Modifier, Name,
    ScreenNumber,
};
pub use bearers::{is_borne_in, is_upper_live_in};
pub use code_point::{code_digits, code_text, hex_digit};
pub use definitions::Definitions;
pub use device::{Failed, Read, Write};
pub use entry::{Cell, Entry, LockFlag};
pub use from_std::FromStd;
pub use key_code::{KeyCode, key_with};
pub use keymap::Keymap;
pub use limits::{ACCENT_LIMIT, COLUMN_COUNT, KEY_COUNT, PAIR_LIMIT, SLOT_LIMIT};
pub use map::{BadAccent, KeyMap};
pub use named::Named;
pub use passing::push_if;
pub use stream::{SizedStream, Stream};
pub use to_std::ToStd;
pub use transfer::{ReadError, ReadFault, ReadFaultKind, WriteFault, put, read_up_to, write_text};
pub use unseen::is_unseen;
