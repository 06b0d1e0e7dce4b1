//! The words of the diagnostics. What is told stands at the places `{}`. The forms are those of docs/FORMATS.md,
//! "Diagnostics". The definitions have most of them in bytes of their own (specs/Heads.antt, Said.antt, Wanted.antt,
//! Notes.antt and Faults.antt), which are proved to be the same. The words of a mixed key, of a text that is half
//! defined and of most faults they take from here.

// A diagnostic or note: the file, the line, the column and what is said, or where it is said of the whole text the file
// and what is said.
pub(crate) const AT_PLACE: &[u8] = b"{}:{}:{}: {}\n";

pub(crate) const AT_NO_PLACE: &[u8] = b"{}:1:1: {}\n";

// The severity, the message and the kind; or the message.
pub(crate) const DIAGNOSTIC: &[u8] = b"{}: {} [{}]";

pub(crate) const NOTE: &[u8] = b"note: {}";

// Of a text that spells a keymap.
pub(crate) const NO_KEY: &[u8] = b"the text defines no key{}";

pub(crate) const CR_ALONE: &[u8] =
    b": its lines end in CR alone, so a comment reaches to its end; end them in LF";

pub(crate) const CANNOT_TYPE: &[u8] = b"no keys type {}";

pub(crate) const NO_SHIFT: &[u8] = b"no key is lshift or rshift";

pub(crate) const MIXED_KEY: &[u8] =
    b"key {} is {} here and the character {} in {}{}; put {} or nop for its characters{}";

pub(crate) const OTHER_SLOT: &[u8] = b" of slot {}";

pub(crate) const NEVER_STICKS: &[u8] = b", though no modifier ever stays on";

pub(crate) const HALF_DEFINED: &[u8] =
    b"{} selects the slots from 128 on, but the text does not define {}{}";

pub(crate) const MISSING_SLOT: &[u8] = b"slot {}, which gives nul";

pub(crate) const MISSING_SLOTS: &[u8] = b"slots {}, which give nul";

pub(crate) const NUL_KEY: &[u8] = b"; so key {} is a modifier or lock with a character";

pub(crate) const NUL_KEYS: &[u8] = b"; so keys {} are each a modifier or lock with a character";

pub(crate) const DEFINED_AGAIN: &[u8] =
    b"this definition of {} has no effect: line {} defines it again{}";

pub(crate) const NOT_JOINED: &[u8] = b", and pairs are not joined";

pub(crate) const GAP: &[u8] = b"the text does not define {}";

pub(crate) const EXCHANGED: &[u8] = b"slot {} gives {} without shift and {} with it";

pub(crate) const TWICE: &[u8] = b"slots {} and {} both give {} in {}, and none gives {}";

pub(crate) const LOST_CONTROLS: &[u8] = b"control types no {}{}";

pub(crate) const CONTROL: &[u8] = b"{} (ctrl-{})";

pub(crate) const LOST_LETTERS: &[u8] = b"control types no control character of the letters {}{}";

pub(crate) const ABOVE: &[u8] = b" while ashift or alock is on";

pub(crate) const SMALL_SLOT: &[u8] =
    b"caps lock makes no capital of the letter of slot {}, whose lock letter is O or N; with C or B it does";

pub(crate) const SMALL_SLOTS: &[u8] =
    b"caps lock makes no capitals of the letters of slots {}, whose lock letter is O or N; with C or B it does";

pub(crate) const OCTAL_LIKE: &[u8] = b"{} is the decimal number {}, which is {}{}";

pub(crate) const OCTAL: &[u8] = b"; the octal one is 0x{}";

pub(crate) const DEAD_KEY: &[u8] = b"the text does not define {}, so pressing {} is an error";

pub(crate) const ONE_ACCENT: &[u8] = b"it";

pub(crate) const ACCENTS: &[u8] = b"one";

pub(crate) const NO_ACCENT: &[u8] = b"the text defines no accent, so pressing {} is an error";

pub(crate) const ZERO_ACCENT: &[u8] =
    b"with the character 0 {} counts as not defined, so pressing it is an error and its pairs have no effect";

pub(crate) const PAIR_AGAIN: &[u8] =
    b"this pair has no effect: {} has one with the base {} before it, in line {}";

pub(crate) const UNUSED_SLOT: &[u8] = b"no key is ashift or alock, so slot {} is never looked at";

pub(crate) const UNUSED_SLOTS: &[u8] =
    b"no key is ashift or alock, so slots {} are never looked at";

pub(crate) const BARE_DIGIT: &[u8] =
    b"{} is the character number {}, which is {}; the digit is '{}'";

// Of directives.
pub(crate) const UNUSED_IGNORE: &[u8] = b"no {} is kept back here";

pub(crate) const NO_KIND: &[u8] = b"{} is no kind";

pub(crate) const NOT_IGNORED: &[u8] = b"{} can not be ignored";

pub(crate) const NO_KINDS: &[u8] = b"no kind stands behind ignore";

pub(crate) const NO_WORD: &[u8] = b"behind kmap: stands ignore or ignore-text, and kinds";

// Of what the search found, and where a definition begins.
pub(crate) const STICKS: &[u8] = b"{} {} on with no key pressed, after: {}";

pub(crate) const ONE_STAYS: &[u8] = b"stays";

pub(crate) const SOME_STAY: &[u8] = b"stay";

pub(crate) const UNDECIDED: &[u8] =
    b"whether a modifier can stay on is undecided: more than 65536 states";

pub(crate) const BEGINS: &[u8] = b"{} is defined from here on";

// Of a text with a fault.
pub(crate) const UNNAMED_BYTE: &[u8] = b"the byte 0x{} begins no word";

pub(crate) const BAD_BYTE: &[u8] = b"{} begins no word; a character that is meant is quoted: '{}'";

pub(crate) const MARK: &[u8] = b"a byte order mark begins no word; remove it";

pub(crate) const UTF16: &[u8] = b"the text is UTF-16; save it as UTF-8";

// Behind the first fault, where the text is another one.
pub(crate) const TABLES: &[u8] = b"; this is a table file: kmap dump prints its text";

pub(crate) const COMPRESSED: &[u8] = b"; the text is compressed";

pub(crate) const NO_TEXT: &[u8] = b"; this is no text";

pub(crate) const LOADKEYS: &[u8] = b"; this looks like a keymap for loadkeys";

pub(crate) const XKB: &[u8] = b"; this looks like a text for xkb: ckbcomp -freebsd makes keymaps";

pub(crate) const XMODMAP: &[u8] = b"; this looks like a text for xmodmap";

pub(crate) const OTHER_COMMENT: &[u8] = b"; a comment begins with #";

pub(crate) const MORE_FAULTS: &[u8] = b"more faults follow";

pub(crate) const BAD_LITERAL: &[u8] =
    b"no quoted character stands here: an apostrophe, one character other than a line feed, an apostrophe";

pub(crate) const TWO_CHARACTERS: &[u8] =
    b"two characters stand between the apostrophes: U+{} and U+{}; a quoted character is one";

pub(crate) const BAD_WORD: &[u8] = b"{} means nothing{}";

pub(crate) const LONG_WORD: &[u8] = b"a word has at most 32 bytes; this one has {}{}";

pub(crate) const MEANT_NUMBER: &[u8] = b"; for U+{} write 0x{}";

pub(crate) const MEANT_CHARACTER: &[u8] = b"; the character is '{}'";

pub(crate) const MEANT_NAME: &[u8] = b"; did you mean {}";

pub(crate) const NOP: &[u8] =
    b"; a character is written as 'x' or 0xh, a cell that gives nothing as nop";

pub(crate) const LOCK_LETTERS: &[u8] = b"; a lock letter is O, C, N or B";

pub(crate) const UNEXPECTED: &[u8] = b"{} stands where {} is wanted{}";

pub(crate) const FEW_CELLS: &[u8] = b"; {} has {} of 8 cells";

pub(crate) const ALL_CELLS: &[u8] = b"; it has its 8 cells";

pub(crate) const KEY_TOO_LARGE: &[u8] = b"{} is no slot: slots are 0 to 255";

pub(crate) const BAD_CHAR: &[u8] =
    b"{} is no character: characters are 0 to 0xd7ff and 0xe000 to 0x10ffff";

pub(crate) const BAD_FUNCTION: &[u8] = b"{} does not exist: there are {}";

pub(crate) const SCREENS: &[u8] = b"scr01 to scr16";

pub(crate) const FUNCTION_KEYS: &[u8] = b"fkey01 to fkey96";

pub(crate) const TOO_MANY_PAIRS: &[u8] = b"{} has 52 pairs already, and room for no more";

pub(crate) const ZERO_BASE: &[u8] = b"the base of a pair is a character other than 0";

pub(crate) const COMBINED: &[u8] =
    b"{}, a modifier joined with alock, is not supported; write {} or alock";

pub(crate) const ENDS: &[u8] = b"the text ends where {} is wanted";

pub(crate) const ENDS_QUOTED: &[u8] = b"the text ends in a quoted character";

// What is wanted, by what the definition that has begun defines.
pub(crate) const A_DEFINITION: &[u8] = b"the number of a slot or the name of an accent";

pub(crate) const A_CELL: &[u8] = b"the cell of {} in {}";

pub(crate) const A_LOCK: &[u8] = b"the lock letter of {} (O, C, N or B)";

pub(crate) const A_CHARACTER: &[u8] = b"the character of {}";

pub(crate) const A_PAIR: &[u8] = b"a pair of {}, the number of a slot or the name of an accent";

pub(crate) const A_BASE: &[u8] = b"the base of a pair of {}";

pub(crate) const A_RESULT: &[u8] = b"the result of a pair of {}";

pub(crate) const A_PAIR_END: &[u8] = b"the ')' of a pair of {}";

// A character.
pub(crate) const QUOTED: &[u8] = b"'{}'";

// A slot, and a column with what selects it.
pub(crate) const SLOT: &[u8] = b"slot {}";

pub(crate) const COLUMN: &[u8] = b"column {} ({})";
