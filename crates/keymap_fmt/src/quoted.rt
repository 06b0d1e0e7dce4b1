//! Characters as they are: which token stands for another where characters stand between apostrophes.
ghost use Rattle.std.specs.Prelude.{◌≡◌, ◌≤◌, ◌+◌, ◌++◌, vec_len, OnOk};
ghost use Rattle.keymap_fmt.specs.Layout as layout;
ghost use Rattle.keymap_fmt.specs.Inner.Reading.{HasBytes, IsShort};
ghost use Rattle.keymap_fmt.specs.Quoted as spec;
ghost use Rattle.keymap_fmt.specs.declared.piece.Part.TheVariants as PartValue;
ghost use Rattle.keymap_names.specs.Quoted.{is_quoted as passes};

use crate::layout::{State, push_piece};
use crate::piece::{Part, Piece};
use arrayvec::ArrayVec;
use keymap_names::is_quoted;
use keymap_text::{Item, Meaning, TokenKind, character_of, character_text, item_of};
use std::alloc::AllocError;

/// How a layout has the characters of a text.
#[derive(Clone, Copy, Debug, PartialEq, Eq)]
pub enum Characters {
    /// As the text has them.
    Kept,
    /// Between apostrophes, where they are seen there.
    Quoted,
}

/// Whether characters are put between apostrophes, and then whether those of the text are Unicode for sure.
#[derive(Clone, Copy)]
pub(crate) enum Quoting {
    Off,
    On { sure: bool },
}

/// What is done with a token.
#[derive(Clone, Copy)]
pub(crate) enum Change {
    Stays,
    /// The character stands between apostrophes.
    Quoted(char),
    /// The character stands as it is printed: by its name, or as a number.
    Named(char),
}

fn of_number(sure: bool, c: char) -> Change
    ensures { result ≡ spec.of_number passes sure c }
{
    if is_quoted(c) && (sure || !('\u{80}' <= c && c <= '\u{ff}')) {
        Change::Quoted(c)
    } else {
        Change::Stays
    }
}

#[tactic(auto, using(crate::proofs::Changed::number_char, crate::proofs::Changed::number_none))]
fn of_item(sure: bool, item: &Item) -> Change
    ensures { result ≡ spec.of_item passes sure item.now }
{
    let Item::Value(Meaning::Number(_)) = item else {
        return Change::Stays;
    };
    match character_of(item) {
        Ok(c) => of_number(sure, c),
        Err(_) => Change::Stays,
    }
}

fn of_literal(c: char, bytes: &[u8]) -> Change
    ensures { result ≡ spec.of_literal passes c bytes.now }
{
    if !is_quoted(c) && (c < '\u{80}' || 3 < bytes.len()) {
        Change::Named(c)
    } else {
        Change::Stays
    }
}

/// What is done with a token, where so many belong to what has begun.
fn change_of(sure: bool, left: usize, kind: TokenKind, bytes: &[u8]) -> Change
    requires { IsShort (PartValue.Code kind) bytes.now }
    ensures { result ≡ spec.change_of passes sure left kind bytes.now }
{
    if left == 0 {
        return Change::Stays;
    }
    match kind {
        TokenKind::ParenL | TokenKind::ParenR => Change::Stays,
        TokenKind::Literal(c) => of_literal(c, bytes),
        TokenKind::Word => of_item(sure, &item_of(kind, bytes)),
    }
}

/// What is done with a piece.
fn change_by(quoting: Quoting, left: usize, piece: &Piece<'_>) -> Change
    requires { IsShort piece.now.part piece.now.bytes.now }
    ensures { result ≡ spec.change_by quoting left piece.now.part piece.now.bytes.now }
{
    match (quoting, piece.part) {
        (Quoting::On { sure }, Part::Code(kind)) => change_of(sure, left, kind, piece.bytes),
        _ => Change::Stays,
    }
}

/// How many tokens belong to what has begun behind a token.
fn left_after(left: usize, item: &Item) -> usize
    ensures { result ≡ spec.left_after left item.now }
{
    if left > 0 {
        return left - 1;
    }
    match item {
        Item::Open => 3,
        Item::Value(Meaning::Number(_)) => 9,
        Item::Value(Meaning::Act(_)) => 1,
        _ => 0,
    }
}

/// How many tokens belong to what has begun behind a piece.
pub(crate) fn left_by(quoting: Quoting, left: usize, piece: &Piece<'_>) -> usize
    requires { IsShort piece.now.part piece.now.bytes.now }
    ensures { result ≡ spec.left_by quoting left piece.now.part piece.now.bytes.now }
{
    match (quoting, piece.part) {
        (Quoting::On { .. }, Part::Code(kind)) => left_after(left, &item_of(kind, piece.bytes)),
        _ => left,
    }
}

/// The character between apostrophes.
fn quote(c: char) -> ArrayVec<u8, 6>
    ensures { result.items ≡ spec.quote c }
{
    let mut utf8 = [0; 4];
    let mut text = ArrayVec::new();
    text.push(b'\'');
    text.try_extend_from_slice(c.encode_utf8(&mut utf8).as_bytes())
        .unwrap();
    text.push(b'\'');
    text
}

/// Adds what stands for a piece. After an `Err` the state is of no use.
pub(crate) fn push_changed(
    laid: &mut Vec<u8>,
    state: &mut State,
    quoting: Quoting,
    left: usize,
    piece: &Piece<'_>,
) -> Result<(), AllocError>
    requires column { state.old.column ≤ vec_len laid.old }
    requires bytes { HasBytes piece.now.part piece.now.bytes.now }
    requires short { IsShort piece.now.part piece.now.bytes.now }
    ensures text { let x = spec.change_by quoting left piece.now.part piece.now.bytes.now in
        let part = spec.part_by x piece.now.part in let bytes = spec.bytes_by x piece.now.bytes.now in
        OnOk result (laid.new.items ≡ laid.old.items
        ++ (layout.before state.old part bytes piece.now.standing ++ (bytes ++ layout.ending part))) }
    ensures state { let x = spec.change_by quoting left piece.now.part piece.now.bytes.now in
        OnOk result (state.new
        ≡ layout.after state.old (spec.part_by x piece.now.part) (spec.bytes_by x piece.now.bytes.now)) }
    ensures column { OnOk result (state.new.column ≤ vec_len laid.new) }
{
    match change_by(quoting, left, piece) {
        Change::Stays => push_piece(laid, state, piece),
        Change::Quoted(c) => {
            let bytes = quote(c);
            push_piece(
                laid,
                state,
                &Piece {
                    part: Part::Code(TokenKind::Literal(c)),
                    bytes: bytes.as_slice(),
                    standing: piece.standing,
                    end: piece.end,
                },
            )
        }
        Change::Named(c) => {
            let bytes = character_text(c);
            push_piece(
                laid,
                state,
                &Piece {
                    part: Part::Code(TokenKind::Word),
                    bytes: bytes.as_slice(),
                    standing: piece.standing,
                    end: piece.end,
                },
            )
        }
    }
}
