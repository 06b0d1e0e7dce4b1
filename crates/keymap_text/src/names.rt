//! The names of characters, lock letters and actions: one table, by which words are read and control characters are
//! printed. It sees the letters of one word.
ghost use Rattle.std.specs.Prelude.{◌≡◌, ◌==◌, ◌⊎◌, ◌≤◌, ◌<◌, if◌then◌else◌, All, IfSome, length, map, take, Some};
ghost use Rattle.std.specs.Prelude.{ℕ, ◌+◌, ◌*◌, ◌/◌, ◌%◌, None, IsSome, slice_index, slice_index_or};
ghost use Rattle.std.specs.Char.{to_ascii_lowercase};
ghost use Rattle.keymap_text.specs.Lexical.{leading, is_word};
ghost use Rattle.keymap_text.specs.Words.{meaning, same_name};
ghost use Rattle.keymap_text.specs.Inner.Keys.{is_letter, letters, meaning_by_names, sense_meaning};
ghost use Rattle.keymap_text.specs.Words.{named, table};
ghost use Rattle.keymap_text.specs.Inner.Keys.{pack, KeyMeans, IsTrueName, ArePlaced, name_key};
ghost use Rattle.keymap_text.specs.Printed as printed;

use crate::words::Meaning;
use keymap_core::{
    ACCENT_LIMIT, AccentIndex, Action, FunctionNumber, Lock, LockFlag, Modifier, ScreenNumber,
};

/// What a name means, as plain data, since a static can't hold a value that has a model of its own.
#[derive(Clone, Copy)]
pub(crate) enum Sense {
    Char(u8),
    Letter(LockFlag),
    Nop,
    Mod(Modifier),
    Lock(Lock),
    DeadKey(u8),
    BackTab,
    NextScreen,
    PreviousScreen,
    Boot,
    Debug,
    Suspend,
    Saver,
    Standby,
    Panic,
    Halt,
    PowerDown,
    Paste,
}

/// A name in lower case, filled with blanks to eight bytes, and what it means.
#[derive(Clone, Copy)]
pub(crate) struct Name(pub(crate) [u8; 8], pub(crate) Sense);

/// How long a name is without the blanks that fill it.
#[tactic(auto, using(crate::proofs::Leading::leading_rules))]
fn name_len(name: &[u8]) -> usize
    ensures length { result ≤ length name.now }
    ensures value { result ≡ leading is_letter name.now }
{
    let mut i: usize = 0;
    while i < name.len() && name[i] != b' ' {
        i += 1;
    }
    i
}

impl Name {
    /// The name without the blanks.
    fn letters(&self) -> &[u8]
        ensures { result.now ≡ letters self.now.0 }
    {
        let n = name_len(&self.0);
        &self.0[..n]
    }
}

pub(crate) fn is_same_name(a: &[u8], b: &[u8]) -> bool
    ensures { result ≡ same_name a.now b.now }
{
    a.eq_ignore_ascii_case(b)
}

fn is_name(name: &Name, word: &[u8]) -> bool
    ensures { result ≡ same_name (letters name.now.0) word.now }
{
    is_same_name(name.letters(), word)
}

#[inline(always)]
fn meaning_of(sense: Sense) -> Meaning
    ensures { result ≡ sense_meaning sense }
{
    match sense {
        Sense::Char(c) => Meaning::Char(c as char),
        Sense::Letter(flag) => Meaning::Letter(flag),
        Sense::Nop => Meaning::Act(Action::Nop),
        Sense::Mod(modifier) => Meaning::Act(Action::Mod(modifier)),
        Sense::Lock(lock) => Meaning::Act(Action::Lock(lock)),
        Sense::DeadKey(n) => {
            if n >= ACCENT_LIMIT as u8 {
                Meaning::Unknown
            } else {
                Meaning::Act(Action::DeadKey(AccentIndex::new(n)))
            }
        }
        Sense::BackTab => Meaning::Act(Action::BackTab),
        Sense::NextScreen => Meaning::Act(Action::NextScreen),
        Sense::PreviousScreen => Meaning::Act(Action::PreviousScreen),
        Sense::Boot => Meaning::Act(Action::Boot),
        Sense::Debug => Meaning::Act(Action::Debug),
        Sense::Suspend => Meaning::Act(Action::Suspend),
        Sense::Saver => Meaning::Act(Action::Saver),
        Sense::Standby => Meaning::Act(Action::Standby),
        Sense::Panic => Meaning::Act(Action::Panic),
        Sense::Halt => Meaning::Act(Action::Halt),
        Sense::PowerDown => Meaning::Act(Action::PowerDown),
        Sense::Paste => Meaning::Act(Action::Paste),
    }
}

/// Where the name of a control character stands in the table.
fn control_place(c: u8) -> usize
    requires { (c < 32) ⊎ (c ≡ 127) }
    ensures value { result ≡ if c == 127 then 32 else c }
    ensures inside { result ≤ 32 }
{
    if c == 127 { 32 } else { c as usize }
}

/// The name of a control character: `nul` to `ns`, or `del`.
pub fn control_name(c: u8) -> &'static [u8]
    requires { (c < 32) ⊎ (c ≡ 127) }
    ensures name { result.now ≡ printed.control_name c }
    ensures short { length result.now ≤ 3 }
{
    let place = control_place(c);
    NAMES[place].letters()
}

/// The name of a control character, filled on the right with blanks to six places.
#[inline(always)]
pub(crate) fn control_places(c: u8) -> [u8; 6]
    requires { (c < 32) ⊎ (c ≡ 127) }
    ensures { result ≡ printed.filled (printed.control_name c) }
{
    let name = &NAMES[control_place(c)].0;
    [name[0], name[1], name[2], b' ', b' ', b' ']
}

/// What the first of these names means that is the word, without regard to case.
#[tactic(auto, using(crate::proofs::Numbers::look_rules))]
fn lookup(names: &[Name], word: &[u8]) -> Option<Meaning>
    ensures { result ≡ meaning_by_names names.now word.now }
{
    for name in names {
        if is_name(name, word) {
            return Some(meaning_of(name.1));
        }
    }
    None
}

/// What the word means by the names of characters and the lock letters.
pub(crate) fn character_or_letter(word: &[u8]) -> Option<Meaning>
    ensures { result ≡ named table word.now }
{
    lookup(&NAMES[..40], word)
}

/// The low bytes of a number, by their count.
static LOW_BYTES: [u64; 9] = [
    0,
    0xff,
    0xffff,
    0xff_ffff,
    0xffff_ffff,
    0xff_ffff_ffff,
    0xffff_ffff_ffff,
    0xff_ffff_ffff_ffff,
    0xffff_ffff_ffff_ffff,
];

/// The key of n bytes in front: with the bit of lower case and filled with blanks, as a number.
#[inline(always)]
fn key_of(bytes: &[u8], n: usize) -> u64
    requires word { n ≤ leading is_word bytes.now }
    requires short { n ≤ 8 }
    ensures { result ≡ pack 8 (map to_ascii_lowercase (take n bytes.now)) }
{
    if bytes.len() < 8 {
        key_at_end(bytes, n)
    } else {
        key_of_eight(bytes, n)
    }
}

#[inline(always)]
fn key_of_eight(bytes: &[u8], n: usize) -> u64
    requires word { n ≤ leading is_word bytes.now }
    requires short { n ≤ 8 }
    requires room { 8 ≤ length bytes.now }
    ensures { result ≡ pack 8 (map to_ascii_lowercase (take n bytes.now)) }
{
    let eight = bytes.first_chunk::<8>().unwrap();
    (u64::from_le_bytes(*eight) & LOW_BYTES[n]) | 0x2020_2020_2020_2020
}

#[inline(never)]
fn key_at_end(bytes: &[u8], n: usize) -> u64
    requires word { n ≤ leading is_word bytes.now }
    requires short { n ≤ 8 }
    requires inside { n ≤ length bytes.now }
    ensures { result ≡ pack 8 (map to_ascii_lowercase (take n bytes.now)) }
{
    let mut eight = [b' '; 8];
    let mut i: usize = 0;
    while i < n {
        eight[i] = bytes[i];
        i += 1;
    }
    key_of_eight(&eight, n)
}

/// The meaning of the words with this key, if they are a name. A name that another one hid from it would break the
/// requirement `placed`.
#[inline(always)]
fn key_meaning(names: &[Name], key: u64) -> Option<Meaning>
    requires means { All IsTrueName names.now }
    requires placed { ArePlaced names.now }
    requires inside { (i : ℕ) → i < 256 → slice_index PLACES i < length names.now }
    ensures means { IfSome result (KeyMeans key) }
    ensures found { (i : ℕ) (d : Name) → i < length names.now → name_key (slice_index_or names.now i d) ≡ key
        → IsSome result }
{
    let place = PLACES[(key.wrapping_mul(SPREAD) / 0x100_0000_0000_0000) as usize] as usize;
    prove!(place < names.len());
    if u64::from_le_bytes(names[place].0) == key {
        Some(meaning_of(names[place].1))
    } else {
        None
    }
}

/// The key of `fkey00`, which is no name, and which the keys of function keys exceed by their digits.
const FUNCTION_ZERO: u64 = 0x2020_3030_7965_6b66;

/// The key of `scr00`, for screens.
const SCREEN_ZERO: u64 = 0x2020_2030_3072_6373;

/// The number of two digits, whose values are bytes and of which the first is the lowest byte; 0 where one is none.
#[inline(always)]
fn two_digits(digits: u64) -> u64
    ensures { 0 < result → (result < 100) × (digits ≡ result / 10 + result % 10 * 256) }
{
    let tens = digits % 256;
    let ones = digits / 256;
    if tens < 10 && ones < 10 {
        tens * 10 + ones
    } else {
        0
    }
}

/// The meaning of the words with this key, if they are the name of a function key or a screen, with two digits.
#[inline(always)]
fn numbered_meaning(key: u64) -> Option<Meaning>
    ensures { IfSome result (KeyMeans key) }
{
    let behind = key.wrapping_sub(FUNCTION_ZERO);
    if behind % 0x1_0000_0000 == 0 {
        let n = two_digits(behind / 0x1_0000_0000);
        if n > 0 && n <= 96 {
            return Some(Meaning::Act(Action::Function(FunctionNumber::new(n as u8))));
        }
    }
    let behind = key.wrapping_sub(SCREEN_ZERO);
    if behind % 0x100_0000 == 0 {
        let n = two_digits(behind / 0x100_0000);
        if n > 0 && n <= 16 {
            return Some(Meaning::Act(Action::Screen(ScreenNumber::new(n as u8))));
        }
    }
    None
}

/// The meaning of the words with this key, if they are a name.
#[inline(always)]
fn meaning_of_key(key: u64) -> Option<Meaning>
    ensures { IfSome result (KeyMeans key) }
{
    match key_meaning(&NAMES, key) {
        Some(meaning) => Some(meaning),
        None => numbered_meaning(key),
    }
}

/// The meaning of the word of n bytes in front, if it is a name of at most eight bytes.
#[inline(always)]
#[tactic(auto, using(crate::proofs::Meanings::some_means))]
pub(crate) fn name_meaning(bytes: &[u8], n: usize) -> Option<Meaning>
    requires { n ≤ leading is_word bytes.now }
    ensures { IfSome result (λ m. m ≡ meaning (take n bytes.now)) }
{
    if n > 8 {
        return None;
    }
    meaning_of_key(key_of(bytes, n))
}

/// The control characters 0 to 31 in their order, del, further names of characters, the lock letters, and the actions
/// but for screens and function keys.
static NAMES: [Name; 84] = [
    Name(*b"nul     ", Sense::Char(0)),
    Name(*b"soh     ", Sense::Char(1)),
    Name(*b"stx     ", Sense::Char(2)),
    Name(*b"etx     ", Sense::Char(3)),
    Name(*b"eot     ", Sense::Char(4)),
    Name(*b"enq     ", Sense::Char(5)),
    Name(*b"ack     ", Sense::Char(6)),
    Name(*b"bel     ", Sense::Char(7)),
    Name(*b"bs      ", Sense::Char(8)),
    Name(*b"ht      ", Sense::Char(9)),
    Name(*b"nl      ", Sense::Char(10)),
    Name(*b"vt      ", Sense::Char(11)),
    Name(*b"ff      ", Sense::Char(12)),
    Name(*b"cr      ", Sense::Char(13)),
    Name(*b"so      ", Sense::Char(14)),
    Name(*b"si      ", Sense::Char(15)),
    Name(*b"dle     ", Sense::Char(16)),
    Name(*b"dc1     ", Sense::Char(17)),
    Name(*b"dc2     ", Sense::Char(18)),
    Name(*b"dc3     ", Sense::Char(19)),
    Name(*b"dc4     ", Sense::Char(20)),
    Name(*b"nak     ", Sense::Char(21)),
    Name(*b"syn     ", Sense::Char(22)),
    Name(*b"etb     ", Sense::Char(23)),
    Name(*b"can     ", Sense::Char(24)),
    Name(*b"em      ", Sense::Char(25)),
    Name(*b"sub     ", Sense::Char(26)),
    Name(*b"esc     ", Sense::Char(27)),
    Name(*b"fs      ", Sense::Char(28)),
    Name(*b"gs      ", Sense::Char(29)),
    Name(*b"rs      ", Sense::Char(30)),
    Name(*b"ns      ", Sense::Char(31)),
    Name(*b"del     ", Sense::Char(127)),
    Name(*b"lf      ", Sense::Char(10)),
    Name(*b"np      ", Sense::Char(12)),
    Name(*b"us      ", Sense::Char(31)),
    Name(*b"o       ", Sense::Letter(LockFlag::O)),
    Name(*b"c       ", Sense::Letter(LockFlag::C)),
    Name(*b"n       ", Sense::Letter(LockFlag::N)),
    Name(*b"b       ", Sense::Letter(LockFlag::B)),
    Name(*b"nop     ", Sense::Nop),
    Name(*b"lshift  ", Sense::Mod(Modifier::LeftShift)),
    Name(*b"rshift  ", Sense::Mod(Modifier::RightShift)),
    Name(*b"lctrl   ", Sense::Mod(Modifier::LeftControl)),
    Name(*b"rctrl   ", Sense::Mod(Modifier::RightControl)),
    Name(*b"lalt    ", Sense::Mod(Modifier::LeftAlt)),
    Name(*b"ralt    ", Sense::Mod(Modifier::RightAlt)),
    Name(*b"ashift  ", Sense::Mod(Modifier::AltShift)),
    Name(*b"meta    ", Sense::Mod(Modifier::Meta)),
    Name(*b"clock   ", Sense::Lock(Lock::Caps)),
    Name(*b"nlock   ", Sense::Lock(Lock::Num)),
    Name(*b"slock   ", Sense::Lock(Lock::Scroll)),
    Name(*b"alock   ", Sense::Lock(Lock::Alt)),
    Name(*b"dgra    ", Sense::DeadKey(0)),
    Name(*b"dacu    ", Sense::DeadKey(1)),
    Name(*b"dcir    ", Sense::DeadKey(2)),
    Name(*b"dtil    ", Sense::DeadKey(3)),
    Name(*b"dmac    ", Sense::DeadKey(4)),
    Name(*b"dbre    ", Sense::DeadKey(5)),
    Name(*b"ddot    ", Sense::DeadKey(6)),
    Name(*b"duml    ", Sense::DeadKey(7)),
    Name(*b"dsla    ", Sense::DeadKey(8)),
    Name(*b"drin    ", Sense::DeadKey(9)),
    Name(*b"dced    ", Sense::DeadKey(10)),
    Name(*b"dapo    ", Sense::DeadKey(11)),
    Name(*b"ddac    ", Sense::DeadKey(12)),
    Name(*b"dogo    ", Sense::DeadKey(13)),
    Name(*b"dcar    ", Sense::DeadKey(14)),
    Name(*b"btab    ", Sense::BackTab),
    Name(*b"nscr    ", Sense::NextScreen),
    Name(*b"pscr    ", Sense::PreviousScreen),
    Name(*b"boot    ", Sense::Boot),
    Name(*b"debug   ", Sense::Debug),
    Name(*b"susp    ", Sense::Suspend),
    Name(*b"saver   ", Sense::Saver),
    Name(*b"stby    ", Sense::Standby),
    Name(*b"panic   ", Sense::Panic),
    Name(*b"halt    ", Sense::Halt),
    Name(*b"pdwn    ", Sense::PowerDown),
    Name(*b"paste   ", Sense::Paste),
    Name(*b"alt     ", Sense::Mod(Modifier::LeftAlt)),
    Name(*b"ctrl    ", Sense::Mod(Modifier::LeftControl)),
    Name(*b"backtab ", Sense::BackTab),
    Name(*b"ddia    ", Sense::DeadKey(7)),
];

/// Keeps the keys of the names apart: no two of their products have the same high byte. Found by trying random odd
/// numbers, as bench/find_spread.py does, which prints it and `PLACES` for the names above.
const SPREAD: u64 = 0xebcb_a9e4_71cd_1edd;

/// Where the name stands whose key times `SPREAD` has this high byte; 0, where `nul` is, where none has.
static PLACES: [u8; 256] = [
    0, 64, 0, 0, 6, 13, 0, 0, 0, 32, 0, 0, 0, 0, 0, 0, 0, 0, 0, 0, 43, 0, 0, 22, 0, 71, 0, 0, 11,
    0, 0, 27, 0, 0, 0, 0, 0, 0, 80, 1, 0, 76, 0, 66, 0, 61, 45, 79, 59, 7, 78, 0, 58, 0, 0, 9, 4,
    0, 0, 0, 12, 0, 0, 60, 83, 23, 24, 0, 0, 0, 0, 0, 20, 0, 17, 0, 0, 0, 0, 0, 0, 67, 47, 0, 74,
    0, 0, 0, 82, 0, 0, 0, 0, 0, 0, 14, 0, 10, 0, 0, 0, 35, 21, 0, 0, 0, 0, 0, 0, 70, 0, 5, 0, 0, 0,
    0, 41, 0, 0, 0, 0, 0, 63, 0, 0, 0, 0, 77, 29, 0, 0, 0, 0, 0, 0, 0, 0, 0, 51, 0, 0, 0, 0, 34, 0,
    75, 0, 0, 28, 69, 0, 0, 0, 15, 0, 44, 53, 73, 19, 0, 55, 30, 0, 48, 0, 0, 0, 0, 0, 0, 0, 0, 0,
    0, 0, 0, 0, 0, 0, 0, 0, 46, 0, 0, 0, 68, 65, 54, 0, 0, 0, 2, 0, 0, 0, 33, 0, 0, 0, 0, 37, 0, 0,
    0, 56, 49, 0, 0, 72, 0, 0, 0, 0, 0, 36, 0, 0, 81, 3, 40, 0, 39, 0, 0, 0, 0, 25, 57, 0, 8, 0, 0,
    0, 0, 38, 0, 0, 0, 0, 50, 0, 26, 31, 0, 18, 16, 52, 0, 0, 0, 42, 0, 0, 62, 0, 0,
];
