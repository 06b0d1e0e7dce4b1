//! Reading bytes token by token, as far as they show whole tokens. It sees bytes, and asks `token` where a token ends,
//! `words` what it means, and `grammar` whether it may stand there. It knows neither offsets nor lines.
ghost use Rattle.std.specs.Prelude.{◌≡◌, ◌+◌, ◌<◌, ◌≤◌, ◌^◌, length, drop, Ok, IfSome, OnOk, IfOk, IsFalse, IfErr};
ghost use Rattle.std.specs.Prelude.{true, false, slice_index};
ghost use Rattle.keymap_text.specs.Lexical.{separates};
ghost use Rattle.keymap_text.specs.Types.{Word};
ghost use Rattle.keymap_core.specs.Maps.{MapValue};
ghost use Rattle.keymap_core.specs.Numbers.{column_count};
ghost use Rattle.keymap_text.specs.Inner.Grammar.{at};
ghost use Rattle.keymap_text.specs.Inner.Views.{IsPlace, grammar_view};
ghost use Rattle.keymap_text.specs.Inner.Scanning.{Advances, Takes, Leaves, TookCell, TakesLast, Ends, Fronts, IsOpen};

use crate::fault::TextFaultKind;
use crate::grammar::{Grammar, Place, cell_of};
use crate::names::name_meaning;
use crate::token::{
    Front, TokenKind, first_spaces, is_blank_byte, line_len, short_word_len, space_run, token_front,
};
use crate::words::{Item, Meaning, four_digit_number, item_of, three_digit_number};
use keymap_core::Definitions;

/// Why bytes are refused, and how many stand before the fault.
#[derive(Clone, Copy)]
pub(crate) struct Stop {
    pub(crate) kind: TextFaultKind,
    pub(crate) at: usize,
}

/// How many bytes were taken, or why they are refused.
pub(crate) type Taken = Result<usize, Stop>;

/// A fault behind n bytes more.
#[inline(always)]
pub(crate) fn behind(n: usize, stop: Stop) -> Stop
    requires { n + stop.at < 2 ^ 64 }
    ensures kind { result.kind ≡ stop.kind }
    ensures at { result.at ≡ n + stop.at }
{
    Stop {
        kind: stop.kind,
        at: n + stop.at,
    }
}

/// The word in front, and how many bytes it has, if it is a short name.
#[inline(always)]
fn front_name(rest: &[u8]) -> Option<(Item, usize)>
    ensures { IfSome result (λ found. Fronts rest.now found.0 found.1) }
{
    let n = short_word_len(rest);
    if n < 1 || n > 15 {
        return None;
    }
    match name_meaning(rest, n) {
        Some(meaning) => Some((Item::Value(meaning), n)),
        None => None,
    }
}

/// The number in front, and how many bytes it has, if it is `0x` and four digits, or three digits, as most are.
#[inline(always)]
fn front_number(rest: &[u8]) -> Option<(Item, usize)>
    ensures { IfSome result (λ found. Fronts rest.now found.0 found.1) }
{
    if rest.len() > 6 {
        if let Some(number) = four_digit_number(rest) {
            return Some((Item::Value(Meaning::Number(number as u128)), 6));
        }
    }
    match three_digit_number(rest) {
        Some(number) => Some((Item::Value(Meaning::Number(number as u128)), 3)),
        None => None,
    }
}

/// The token in front of the bytes, and how many bytes it has, where they show at once that it is whole. Other tokens
/// are left to `take_any_token`.
#[inline(always)]
fn whole_token(rest: &[u8]) -> Option<(Item, usize)>
    requires { 0 < length rest.now }
    ensures { IfSome result (λ found. Fronts rest.now found.0 found.1) }
{
    let c = rest[0];
    if c > b'9' {
        return front_name(rest);
    }
    if c >= b'0' {
        return front_number(rest);
    }
    match c {
        b'\'' => {
            if rest.len() < 3 || rest[1] < b' ' || rest[1] > b'~' || rest[2] != b'\'' {
                return None;
            }
            Some((Item::Value(Meaning::Char(rest[1] as char)), 3))
        }
        b'(' => Some((Item::Open, 1)),
        b')' => Some((Item::Close, 1)),
        _ => None,
    }
}

/// Takes the whole tokens in front. Answers how many bytes were taken: all, but for a token or a comment that the bytes
/// break off.
#[inline(always)]
pub(crate) fn scan<D: Definitions>(grammar: &mut Grammar, into: &mut D, bytes: &[u8]) -> Taken
    requires { IsPlace grammar.old.place grammar.old.accent }
    ensures takes { Takes D.shows into.old into.new result grammar.old grammar.new bytes.now }
    ensures leaves { Leaves result grammar.new bytes.now }
    ensures open { IfOk result (λ n. IsOpen (drop n bytes.now)) }
{
    let mut at = 0;
    while at < bytes.len() {
        match take_in_front(grammar, into, &bytes[at..]) {
            Ok(0) => return Ok(at),
            Ok(n) => at += n,
            Err(stop) => return Err(behind(at, stop)),
        }
    }
    Ok(at)
}

/// Takes the end of a line in front, or blanks and a comment or a token behind them. Answers how many bytes were taken,
/// and 0 where the bytes break off what they begin with.
#[inline(always)]
fn take_in_front<D: Definitions>(grammar: &mut Grammar, into: &mut D, rest: &[u8]) -> Taken
    requires place { IsPlace grammar.old.place grammar.old.accent }
    requires some { 0 < length rest.now }
    ensures takes { Takes D.shows into.old into.new result grammar.old grammar.new rest.now }
    ensures leaves { Leaves result grammar.new rest.now }
    ensures open { result ≡ Ok 0 → IsOpen rest.now }
{
    if rest[0] == b'\n' {
        return Ok(1);
    }
    let blanks = first_spaces(rest);
    if blanks == rest.len() {
        return Ok(blanks);
    }
    match take_token(grammar, into, &rest[blanks..]) {
        Ok(n) => Ok(blanks + n),
        Err(stop) => Err(behind(blanks, stop)),
    }
}

/// Takes the comment or token in front, or a blank. Answers how many bytes it has, and 0 where the bytes break it off.
#[inline(always)]
fn take_token<D: Definitions>(grammar: &mut Grammar, into: &mut D, rest: &[u8]) -> Taken
    requires place { IsPlace grammar.old.place grammar.old.accent }
    requires some { 0 < length rest.now }
    ensures takes { Takes D.shows into.old into.new result grammar.old grammar.new rest.now }
    ensures leaves { Leaves result grammar.new rest.now }
    ensures open { result ≡ Ok 0 → IsOpen rest.now }
{
    match whole_token(rest) {
        Some((item, n)) => match grammar.accept(into, &item) {
            Ok(()) => Ok(n + take_cells(grammar, &rest[n..])),
            Err(kind) => Err(Stop { kind, at: 0 }),
        },
        None => take_any_piece(grammar, into, rest),
    }
}

/// Takes the cells in front that are seen at once, where a cell is wanted. Answers how many bytes were taken.
#[inline(always)]
fn take_cells(grammar: &mut Grammar, rest: &[u8]) -> usize
    requires place { IsPlace grammar.old.place grammar.old.accent }
    ensures took { (m : MapValue) → Advances (at m (grammar_view grammar.old)) (at m (grammar_view grammar.new)) rest.now
        result }
    ensures place { IsPlace grammar.new.place grammar.new.accent }
    ensures inside { result ≤ length rest.now }
{
    match grammar.place {
        Place::Cell { slot, index } => take_cells_from(grammar, slot, index, rest),
        _ => 0,
    }
}

/// Takes the cells in front from this column on that are seen at once. The place is kept only behind the last of them.
#[inline(always)]
fn take_cells_from(grammar: &mut Grammar, slot: u8, first: u8, rest: &[u8]) -> usize
    requires place { grammar.old.place ≡ Place.Cell slot first }
    requires index { first < column_count }
    ensures took { (m : MapValue) → Advances (at m (grammar_view grammar.old)) (at m (grammar_view grammar.new)) rest.now
        result }
    ensures place { IsPlace grammar.new.place grammar.new.accent }
    ensures inside { result ≤ length rest.now }
{
    let mut left = rest;
    let mut index = first;
    while index < 8 {
        let n = take_cell(grammar, index, left);
        if n == 0 {
            grammar.place = Place::Cell { slot, index };
            return rest.len() - left.len();
        }
        left = &left[n..];
        index += 1;
    }
    grammar.place = Place::Lock { slot };
    rest.len() - left.len()
}

/// Takes the cell in front and the blanks before it, but for the place. Answers how many bytes these have, and 0 where
/// no cell is seen at once or fewer than 32 bytes are left: nothing that follows needs to see where these end.
#[inline(always)]
fn take_cell(grammar: &mut Grammar, index: u8, rest: &[u8]) -> usize
    requires { index < column_count }
    ensures took { TookCell result grammar.old grammar.new index rest.now }
    ensures inside { result ≤ length rest.now }
{
    if rest.len() < 32 {
        return 0;
    }
    let blanks = space_run(rest);
    match whole_token(&rest[blanks..]) {
        None => 0,
        Some((item, n)) => match cell_of(&item) {
            Ok(cell) => {
                grammar.entry.cells[index as usize] = cell;
                blanks + n
            }
            Err(_) => 0,
        },
    }
}

/// Takes the blank, comment or token in front. Answers how many bytes it has, and 0 where the bytes break it off.
#[inline(never)]
fn take_any_piece<D: Definitions>(grammar: &mut Grammar, into: &mut D, rest: &[u8]) -> Taken
    requires place { IsPlace grammar.old.place grammar.old.accent }
    requires some { 0 < length rest.now }
    ensures takes { Takes D.shows into.old into.new result grammar.old grammar.new rest.now }
    ensures leaves { Leaves result grammar.new rest.now }
    ensures open { result ≡ Ok 0 → IsOpen rest.now }
{
    if is_blank_byte(rest[0]) {
        return Ok(1);
    }
    if rest[0] != b'#' {
        return take_any_token(grammar, into, rest);
    }
    let n = line_len(rest);
    if n < rest.len() { Ok(n) } else { Ok(0) }
}

/// Is a token of these first bytes whole? A word at the end may go on.
#[inline(always)]
fn is_whole(kind: TokenKind, size: usize, rest: &[u8]) -> bool
    requires { size ≤ length rest.now }
    ensures whole { result ≡ true → kind ≡ Word → size < length rest.now }
    ensures open { result ≡ false → (kind ≡ Word) × (size ≡ length rest.now) }
{
    match kind {
        TokenKind::Word => size < rest.len(),
        _ => true,
    }
}

/// Takes the token in front. Answers how many bytes it has, and 0 where the bytes break it off.
fn take_any_token<D: Definitions>(grammar: &mut Grammar, into: &mut D, rest: &[u8]) -> Taken
    requires place { IsPlace grammar.old.place grammar.old.accent }
    requires some { 0 < length rest.now }
    requires stands { IsFalse (separates (slice_index rest.now 0)) }
    ensures takes { Takes D.shows into.old into.new result grammar.old grammar.new rest.now }
    ensures leaves { Leaves result grammar.new rest.now }
    ensures open { result ≡ Ok 0 → IsOpen rest.now }
{
    match token_front(rest) {
        Front::Found(kind, n) => {
            let end = n + 1;
            if !is_whole(kind, end, rest) {
                return Ok(0);
            }
            match grammar.accept(into, &item_of(kind, &rest[..end])) {
                Ok(()) => Ok(end),
                Err(kind) => Err(Stop { kind, at: 0 }),
            }
        }
        Front::Refused(kind) => Err(Stop { kind, at: 0 }),
        Front::Unfinished => Ok(0),
    }
}

/// Takes the last word of a text, where these bytes, which show no whole token, are one.
fn last_word<D: Definitions>(grammar: &mut Grammar, into: &mut D, tail: &[u8]) -> Result<(), Stop>
    requires place { IsPlace grammar.old.place grammar.old.accent }
    requires open { IsOpen tail.now }
    ensures takes { TakesLast D.shows into.old into.new result grammar.old grammar.new tail.now }
    ensures place { OnOk result (IsPlace grammar.new.place grammar.new.accent) }
    ensures inside { IfErr result (λ e. e.at ≤ length tail.now) }
{
    if tail.is_empty() {
        return Ok(());
    }
    if tail[0] == b'#' {
        return Ok(());
    }
    match token_front(tail) {
        Front::Found(kind, _) => match grammar.accept(into, &item_of(kind, tail)) {
            Ok(()) => Ok(()),
            Err(kind) => Err(Stop { kind, at: 0 }),
        },
        Front::Refused(kind) => Err(Stop { kind, at: 0 }),
        Front::Unfinished => Err(Stop {
            kind: TextFaultKind::EndInside,
            at: tail.len(),
        }),
    }
}

/// The text ends behind these bytes, which show no whole token.
pub(crate) fn take_end<D: Definitions>(
    grammar: &mut Grammar,
    into: &mut D,
    tail: &[u8],
) -> Result<(), Stop>
    requires place { IsPlace grammar.old.place grammar.old.accent }
    requires open { IsOpen tail.now }
    ensures ends { Ends D.shows into.old into.new result grammar.old tail.now }
    ensures inside { IfErr result (λ e. e.at ≤ length tail.now) }
{
    last_word(grammar, into, tail)?;
    match grammar.finish(into) {
        Ok(()) => Ok(()),
        Err(kind) => Err(Stop {
            kind,
            at: tail.len(),
        }),
    }
}
