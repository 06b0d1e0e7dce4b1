//! What the calls are given.
use keymap_core::{KeyMap, ToStd};
use keymap_tables::{NARROW_FILE, WIDE_FILE, write_narrow, write_tables};
use keymap_text::read_map;
use std::alloc::{AllocError, Global};

/// Letters, a shift, two locks and a dead key with its accent.
pub(crate) const TEXT: &[u8] = b"018 'e' 'E' nop nop 'e' 'E' nop nop C
026 dacu dacu dacu dacu dacu dacu dacu dacu O
030 'a' 'A' nop nop 'a' 'A' nop nop C
031 nop slock nop slock nop slock nop slock O
042 lshift lshift lshift lshift lshift lshift lshift lshift O
058 clock clock clock clock clock clock clock clock O
dacu 180 ( 'e' 0xe9 )
";

/// The same but for what the accent makes of its base, which only a tap of the dead key tells, and for a slot that no
/// key selects.
pub(crate) const CHANGED: &[u8] = b"018 'e' 'E' nop nop 'e' 'E' nop nop C
026 dacu dacu dacu dacu dacu dacu dacu dacu O
030 'a' 'A' nop nop 'a' 'A' nop nop C
031 nop slock nop slock nop slock nop slock O
042 lshift lshift lshift lshift lshift lshift lshift lshift O
058 clock clock clock clock clock clock clock clock O
158 'a' 'A' nop nop 'a' 'A' nop nop C
dacu 180 ( 'e' 0xea )
";

/// A shift that is a character where control is on.
pub(crate) const TRAP: &[u8] = b"029 lctrl lctrl lctrl lctrl lctrl lctrl lctrl lctrl O
042 lshift lshift 'x' 'x' lshift lshift lshift lshift O
";

/// A text with a fault in its first byte.
pub(crate) const FAULTY: &[u8] = b")";

/// Letters, one of which takes the dead key before its base, often enough that their list outgrows its memory.
pub(crate) const SENTENCE: &[u8] = b"aA\xc3\xa9AaA\xc3\xa9AaA\xc3\xa9AaA\xc3\xa9A";

/// A sentence of which most characters have no keys, enough of them that their lists outgrow their memory.
pub(crate) const LACKING: &[u8] =
    b"abcdefghijklmnopqrstuvwxyz\nABCDEFGHIJKLMNOPQRSTUVWXYZ\xe2\x82\xac\n";

/// The keymap of a text without a fault.
pub(crate) fn map_of(alloc: Global, text: &[u8]) -> Result<KeyMap, AllocError> {
    match read_map(alloc, text) {
        Ok(map) => Ok(map),
        Err(_) => Err(AllocError),
    }
}

/// A keymap that a call is lent, and its twin, which no call is lent.
#[derive(Drop)]
pub(crate) struct Lent {
    pub(crate) map: KeyMap,
    twin: KeyMap,
}

impl Lent {
    pub(crate) fn of(alloc: Global, text: &[u8]) -> Result<Lent, AllocError> {
        let map = map_of(alloc, text)?;
        let twin = map_of(alloc, text)?;
        Ok(Lent { map, twin })
    }

    /// Whether the call left the keymap alone.
    pub(crate) fn is_kept(&self) -> bool {
        self.map == self.twin
    }
}

/// The call of this name, and what it is lent.
#[derive(Clone, Copy)]
pub(crate) struct Call<'a> {
    pub(crate) alloc: Global,
    pub(crate) name: &'a str,
    pub(crate) sample: &'a Lent,
    /// A keymap in which a modifier sticks.
    pub(crate) trap: &'a Lent,
}

pub(crate) fn tables(alloc: Global, map: &KeyMap) -> Result<Vec<u8>, AllocError> {
    let mut bytes = Vec::from_array(alloc, [0; WIDE_FILE])?;
    let _ = write_tables(map, &mut ToStd::new(bytes.as_mut_slice()));
    Ok(bytes)
}

pub(crate) fn narrow(alloc: Global, map: &KeyMap) -> Result<Vec<u8>, AllocError> {
    let mut bytes = Vec::from_array(alloc, [0; NARROW_FILE])?;
    let _ = write_narrow(map, &mut ToStd::new(bytes.as_mut_slice()));
    Ok(bytes)
}

/// A script of a thousand lines: more bytes than are read at once, so that they outgrow their memory as the events do.
pub(crate) fn script() -> [u8; 8000] {
    let mut script = [0; 8000];
    for (index, byte) in script.iter_mut().enumerate() {
        *byte = b"down 30\n"[index % 8];
    }
    script
}
