//! The keymaps that tests use, as texts of keymap(5).
pub const LETTER_AND_SHIFT: &[u8] = b"030 'a' 'A' soh soh 'a' 'A' soh soh C
042 lshift lshift lshift lshift lshift lshift lshift lshift O
";

pub const TWO_SCROLL_LOCKS: &[u8] = b"070 slock slock slock slock slock slock slock slock O
104 slock slock slock slock slock slock slock slock O
";

/// Left shift, which is a character where control is on.
pub const SHIFT_WITH_TRAP: &[u8] = b"029 lctrl lctrl lctrl lctrl lctrl lctrl lctrl lctrl O
042 lshift lshift 'x' 'x' lshift lshift lshift lshift O
";

/// As the one before, but the character is in a cell that shift doesn't lead to.
pub const SHIFT_WITHOUT_TRAP: &[u8] = b"029 lctrl lctrl lctrl lctrl lctrl lctrl lctrl lctrl O
042 lshift lshift 'x' lshift lshift lshift lshift lshift O
";

/// Left shift and alt shift, with nothing in the upper half.
pub const ALT_SHIFT_WITH_TRAP: &[u8] =
    b"042 lshift lshift lshift lshift lshift lshift lshift lshift O
093 ashift ashift ashift ashift ashift ashift ashift ashift O
";

pub const CAPS_AND_NUM: &[u8] = b"030 'a' 'A' soh soh 'a' 'A' soh soh B
058 clock clock clock clock clock clock clock clock O
069 nlock nlock nlock nlock nlock nlock nlock nlock O
";

pub const ACCENTS: &[u8] = b"015 ht btab ht ht ht btab ht ht O
018 'e' 'E' enq enq 'e' 'E' enq enq C
030 'a' 'A' soh soh 'a' 'A' soh soh C
026 dacu dacu dacu dacu dacu dacu dacu dacu O
041 dgra dgra dgra dgra dgra dgra dgra dgra O
042 lshift lshift lshift lshift lshift lshift lshift lshift O
056 meta meta meta meta meta meta meta meta O
057 ' ' ' ' ' ' ' ' ' ' ' ' ' ' ' ' O
059 fkey01 fkey01 fkey01 fkey01 fkey01 fkey01 fkey01 fkey01 O
092 nscr nscr nscr nscr nscr nscr nscr nscr O
dacu 180 ( 'e' 0xe9 ) ( 'E' 0xc9 ) ( 'e' 0xea )
";

pub const TWO_CONTROLS: &[u8] = b"029 lctrl rctrl lctrl rctrl lctrl rctrl lctrl rctrl O
042 lshift lshift lshift lshift lshift lshift lshift lshift O
";

pub const UPPER_HALF: &[u8] = b"030 'a' 'A' soh soh 'a' 'A' soh soh C
058 alock alock alock alock alock alock alock alock O
093 ashift ashift ashift ashift ashift ashift ashift ashift O
158 'b' 'B' stx stx 'b' 'B' stx stx C
186 alock alock alock alock alock alock alock alock O
221 ashift ashift ashift ashift ashift ashift ashift ashift O
";

pub const TWO_SHIFTS: &[u8] = b"042 lshift lshift lshift lshift lshift lshift lshift lshift O
054 lshift lshift lshift lshift lshift lshift lshift lshift O
";

pub const SHIFT_AND_CAPS: &[u8] = b"042 lshift lshift lshift lshift lshift lshift lshift lshift O
058 clock clock clock clock clock clock clock clock O
";

pub const NOP_UNDER_CONTROL: &[u8] = b"030 'a' 'A' nop nop 'a' 'A' nop nop C";

/// Dead keys of an acute accent and of a macron that is defined and has no character.
pub const BLANK_MACRON: &[u8] = b"026 dacu dacu dacu dacu dacu dacu dacu dacu O
040 dmac dmac dmac dmac dmac dmac dmac dmac O
dacu 180
dmac 0
";

/// An acute accent, and a grave one under shift, on one key, and a third level under ashift.
pub const TWO_DEAD_KEYS: &[u8] = b"016 'q' 'Q' dc1 dc1 'q' 'Q' dc1 dc1 C
029 lctrl lctrl lctrl lctrl lctrl lctrl lctrl lctrl O
030 'a' 'A' soh soh 'a' 'A' soh soh C
040 dacu dgra nop nop nop nop nop nop O
042 lshift lshift lshift lshift lshift lshift lshift lshift O
057 ' ' ' ' nul ' ' ' ' ' ' ' ' ' ' O
100 ashift ashift ashift ashift ashift ashift ashift ashift O
144 '@' '@' 0x3a9 0x3a9 '@' '@' 0x3a9 0x3a9 O
dacu 180 ( 'a' 0xe1 )
dgra '`' ( 'a' 0xe0 )
";

pub const SHIFT_ALONE: &[u8] = b"042 lshift lshift lshift lshift lshift lshift lshift lshift O
";

/// A scroll lock key of the layout that kbdcontrol(1) dumps.
pub const DUMPED_LINE: &[u8] = b"#                                                         alt
  104   slock  saver  slock  saver  susp   nop    susp   nop     O
";

pub const CAPS_WITH_NOPS: &[u8] = b"042 lshift lshift lshift lshift lshift lshift lshift lshift O
058 nop clock nop clock nop clock nop clock O
";

pub const SHIFT_AND_LINE_FEED: &[u8] = b"001 esc esc esc esc esc esc esc esc O
002 0x202e 0x202e 0x202e 0x202e 0x202e 0x202e 0x202e 0x202e O
003 '#' '#' '#' '#' '#' '#' '#' '#' O
004 0xe9 0xe9 0xe9 0xe9 0xe9 0xe9 0xe9 0xe9 O
028 nl nl nl nl nl nl nl nl O
030 'a' 'A' soh soh 'a' 'A' soh soh C
042 lshift lshift lshift lshift lshift lshift lshift lshift O
";

/// Left shift in the lower half alone, and the alt lock in both.
pub const ALT_LOCK_TO_NOTHING: &[u8] =
    b"042 lshift lshift lshift lshift lshift lshift lshift lshift O
058 alock alock alock alock alock alock alock alock O
186 alock alock alock alock alock alock alock alock O
";

/// The caps lock in the lower half alone, and alt shift in both.
pub const CAPS_LOCK_TO_NOTHING: &[u8] = b"058 clock clock clock clock clock clock clock clock O
093 ashift ashift ashift ashift ashift ashift ashift ashift O
221 ashift ashift ashift ashift ashift ashift ashift ashift O
";

/// Key 1 can remember left shift where it looks up the letter, but then key 2 holds left shift on.
pub const REMEMBERED_BUT_HELD_BY_ANOTHER: &[u8] = b"001 nop lshift nop 'a' lshift lshift nop nop O
002 lshift lshift lshift lshift lshift lshift lshift lshift O
003 lctrl nop lctrl nop lctrl nop lctrl nop O
004 lalt lalt lalt lalt lalt lalt lalt lalt O
";

pub const CAPS_ALONE: &[u8] = b"058 clock clock clock clock clock clock clock clock O
";

/// Left shift sticks where the caps lock is on, and only under left shift a key turns that on.
pub const STICKS_UNDER_CAPS: &[u8] = b"042 'x' lshift 'x' lshift 'x' lshift 'x' lshift C
059 nop clock nop clock nop clock nop clock O
";

/// As the one before, but no key bears the caps lock.
pub const WOULD_STICK_UNDER_CAPS: &[u8] = b"042 'x' lshift 'x' lshift 'x' lshift 'x' lshift C
";
