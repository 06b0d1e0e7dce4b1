//! Characters that have a name for a legend, which small letters a capital stands for, and the marks of the accents.

/// A character that nobody sees, and its short name, filled with blanks to five bytes.
#[derive(Clone, Copy)]
pub(crate) struct UnseenName(pub(crate) u32, pub(crate) [u8; 5]);

/// Small letters, from the first to the last, both among them, only every other one where that is said; and how far
/// below each its capital is.
#[derive(Clone, Copy)]
pub(crate) struct CaseRow(
    pub(crate) u32,
    pub(crate) u32,
    pub(crate) bool,
    pub(crate) u8,
);

/// The blanks, joiners and marks of direction that have a name which people know.
pub(crate) static UNSEEN_NAMES: [UnseenName; 20] = [
    UnseenName(0xa0, *b"nbsp "),
    UnseenName(0xad, *b"shy  "),
    UnseenName(0x61c, *b"alm  "),
    UnseenName(0x200b, *b"zwsp "),
    UnseenName(0x200c, *b"zwnj "),
    UnseenName(0x200d, *b"zwj  "),
    UnseenName(0x200e, *b"lrm  "),
    UnseenName(0x200f, *b"rlm  "),
    UnseenName(0x202a, *b"lre  "),
    UnseenName(0x202b, *b"rle  "),
    UnseenName(0x202c, *b"pdf  "),
    UnseenName(0x202d, *b"lro  "),
    UnseenName(0x202e, *b"rlo  "),
    UnseenName(0x202f, *b"nnbsp"),
    UnseenName(0x2060, *b"wj   "),
    UnseenName(0x2066, *b"lri  "),
    UnseenName(0x2067, *b"rli  "),
    UnseenName(0x2068, *b"fsi  "),
    UnseenName(0x2069, *b"pdi  "),
    UnseenName(0xfeff, *b"bom  "),
];

/// Small letters with their capitals. Each capital belongs to one small letter. Turkish i and dotless i, sharp s, final
/// sigma and y diaeresis aren't among them on purpose.
pub(crate) static CASES: [CaseRow; 28] = [
    CaseRow(0x61, 0x7a, false, 32),
    CaseRow(0xe0, 0xf6, false, 32),
    CaseRow(0xf8, 0xfe, false, 32),
    CaseRow(0x101, 0x12f, true, 1),
    CaseRow(0x133, 0x137, true, 1),
    CaseRow(0x13a, 0x148, true, 1),
    CaseRow(0x14b, 0x177, true, 1),
    CaseRow(0x17a, 0x17e, true, 1),
    CaseRow(0x1a1, 0x1a5, true, 1),
    CaseRow(0x1b0, 0x1b0, false, 1),
    CaseRow(0x201, 0x21f, true, 1),
    CaseRow(0x223, 0x233, true, 1),
    CaseRow(0x259, 0x259, false, 202),
    CaseRow(0x3ac, 0x3ac, false, 38),
    CaseRow(0x3ad, 0x3af, false, 37),
    CaseRow(0x3b1, 0x3c1, false, 32),
    CaseRow(0x3c3, 0x3cb, false, 32),
    CaseRow(0x3cc, 0x3cc, false, 64),
    CaseRow(0x3cd, 0x3ce, false, 63),
    CaseRow(0x430, 0x44f, false, 32),
    CaseRow(0x450, 0x45f, false, 80),
    CaseRow(0x461, 0x481, true, 1),
    CaseRow(0x48b, 0x4bf, true, 1),
    CaseRow(0x4c2, 0x4ce, true, 1),
    CaseRow(0x4d1, 0x52f, true, 1),
    CaseRow(0x561, 0x586, false, 48),
    CaseRow(0x1e01, 0x1e95, true, 1),
    CaseRow(0x1ea1, 0x1eff, true, 1),
];

/// The marks of the accents, in the order of their index.
pub(crate) static ACCENT_MARKS: [char; 15] = [
    '\u{300}', '\u{301}', '\u{302}', '\u{303}', '\u{304}', '\u{306}', '\u{307}', '\u{308}',
    '\u{338}', '\u{30a}', '\u{327}', '\u{313}', '\u{30b}', '\u{328}', '\u{30c}',
];
