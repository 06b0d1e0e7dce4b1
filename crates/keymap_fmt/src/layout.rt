//! Where pieces are written: the state of the open line, and what stands before a piece.
ghost use Rattle.std.specs.Prelude.{◌≡◌, ◌+◌, ◌<◌, ◌≤◌, ◌++◌, ◌∷◌, [], length, vec_len, OnOk, IsTrue, replicate};
ghost use Rattle.keymap_fmt.specs.Layout as spec;
ghost use Rattle.keymap_fmt.specs.Inner.Reading.{HasBytes};

use crate::piece::{Part, Piece, Standing};
use keymap_text::TokenKind;
use std::alloc::AllocError;

/// What tokens belong to: the definition of a slot, the name and character of an accent, or one of its pairs.
#[derive(Clone, Copy)]
pub(crate) enum Row {
    Slot,
    Accent,
    Pair,
}

/// The open line, and the row whose tokens are written. Columns are counted from 0 here.
#[derive(Clone, Copy)]
pub(crate) struct State {
    /// How many places are taken in the open line; 0 where none is open.
    pub column: usize,
    pub row: Row,
    /// How many tokens of the row are written.
    pub taken: usize,
    /// Where pairs begin.
    pub pairs_at: usize,
    /// How many pairs have begun in the open line.
    pub pairs: usize,
}

/// How many places a token takes.
fn width(kind: TokenKind, bytes: &[u8]) -> usize
    ensures { result ≡ spec.width kind bytes.now }
{
    match kind {
        TokenKind::Literal(_) => 3,
        _ => bytes.len(),
    }
}

fn row_of(bytes: &[u8]) -> Row
    ensures { result ≡ spec.row_of bytes.now }
{
    if bytes.len() > 0 && bytes[0] >= b'0' && bytes[0] <= b'9' {
        Row::Slot
    } else {
        Row::Accent
    }
}

fn row_length(row: Row) -> usize
    ensures { result ≡ spec.row_length row }
{
    match row {
        Row::Slot => 10,
        Row::Accent => 2,
        Row::Pair => 4,
    }
}

fn is_open(kind: TokenKind) -> bool
    ensures { result ≡ spec.is_open kind }
{
    match kind {
        TokenKind::ParenL => true,
        _ => false,
    }
}

fn is_apart(standing: Standing) -> bool
    ensures { result ≡ spec.is_apart standing }
{
    match standing {
        Standing::Apart => true,
        _ => false,
    }
}

/// Where pairs begin behind a token that ends before the column.
fn pairs_behind(row: Row, pairs_at: usize, column: usize) -> usize
    requires { column < usize.MAX }
    ensures { result ≡ spec.pairs_behind row pairs_at column }
{
    match row {
        Row::Pair => pairs_at,
        _ if column < 12 => 13,
        _ => column + 1,
    }
}

impl State {
    /// No line is open, and no row.
    pub(crate) fn start() -> State
        ensures { result ≡ spec.start }
    {
        State {
            column: 0,
            row: Row::Pair,
            taken: 4,
            pairs_at: 0,
            pairs: 0,
        }
    }

    fn is_over(&self) -> bool
        ensures { result ≡ spec.is_over self.now }
    {
        self.taken >= row_length(self.row)
    }

    /// Whether a token begins a line: the first one of a definition does, and the parenthesis of a fifth pair.
    fn begins_line(&self, kind: TokenKind) -> bool
        ensures { result ≡ spec.begins_line self.now kind }
    {
        self.is_over() && !(is_open(kind) && self.pairs < 4)
    }

    /// Goes on to the line that the token stands in.
    fn enter_line(&mut self, kind: TokenKind)
        ensures value { self.new ≡ spec.in_line self.old kind }
        ensures column { self.new.column ≤ self.old.column }
        ensures pairs { IsTrue (spec.is_over self.old) → IsTrue (spec.is_open kind) → self.new.pairs < 4 }
    {
        if self.begins_line(kind) {
            self.column = 0;
            self.pairs = 0;
        }
    }

    /// Goes on to the line and the row that the token stands in: the open one, or one that it begins.
    #[tactic(auto, unfolding(crate::specs::Layout::opened))]
    fn open(&mut self, kind: TokenKind, bytes: &[u8])
        ensures value { self.new ≡ spec.opened self.old kind bytes.now }
        ensures column { self.new.column ≤ self.old.column }
        ensures taken { self.new.taken ≤ 9 }
    {
        let is_over = self.is_over();
        self.enter_line(kind);
        if is_over {
            self.taken = 0;
            if is_open(kind) {
                self.row = Row::Pair;
                self.pairs += 1;
            } else {
                self.row = row_of(bytes);
            }
        }
    }

    /// Where a token of so many places is to begin, counted from 0.
    fn stop(&self, places: usize) -> usize
        requires { self.now.taken ≤ 9 }
        ensures { result ≡ spec.stop self.now places }
    {
        match self.row {
            Row::Slot => {
                if self.taken == 0 {
                    if places < 3 { 5 - places } else { 2 }
                } else if self.taken == 9 {
                    65
                } else {
                    7 * self.taken + 1
                }
            }
            Row::Accent => { if self.taken == 0 { 2 } else { 8 } }
            Row::Pair => self.pairs_at,
        }
    }

    /// How many blanks stand before it.
    #[tactic(auto, unfolding(crate::specs::Layout::lead))]
    fn lead(&self, places: usize) -> usize
        requires { self.now.taken ≤ 9 }
        ensures { result ≡ spec.lead self.now places }
    {
        self.stop(places).saturating_sub(self.column).max(1)
    }

    /// Goes on behind a token of so many places, before which this many blanks stand.
    fn advance(&mut self, lead: usize, places: usize)
        requires lead { lead ≡ spec.lead self.old places }
        requires taken { self.old.taken ≤ 9 }
        requires room { self.old.column + spec.lead self.old places + places < usize.MAX }
        ensures { self.new ≡ spec.advanced self.old places }
    {
        let column = self.column + lead + places;
        self.column = column;
        self.taken += 1;
        self.pairs_at = pairs_behind(self.row, self.pairs_at, column);
    }
}

/// Ends the open line, if one is open.
pub(crate) fn end_line(laid: &mut Vec<u8>, column: usize) -> Result<(), AllocError>
    ensures { OnOk result (laid.new.items ≡ laid.old.items ++ spec.line_end column) }
{
    if column > 0 {
        laid.push(b'\n')?;
    }
    Ok(())
}

/// Ends the open line, and adds an empty one where the piece stands apart.
fn begin_line(laid: &mut Vec<u8>, column: usize, standing: Standing) -> Result<(), AllocError>
    ensures { OnOk result (laid.new.items ≡ laid.old.items ++ spec.line_begun column standing) }
{
    end_line(laid, column)?;
    if is_apart(standing) {
        laid.push(b'\n')?;
    }
    Ok(())
}

/// Adds so many blanks.
fn push_blanks(laid: &mut Vec<u8>, count: usize) -> Result<(), AllocError>
    ensures { OnOk result (laid.new.items ≡ laid.old.items ++ replicate count 32) }
{
    for _blank in 0..count {
        laid.push(b' ')?;
    }
    Ok(())
}

/// Adds the line ends that stand before a token. An empty line stands before a definition alone.
fn push_lines(
    laid: &mut Vec<u8>,
    state: &State,
    kind: TokenKind,
    standing: Standing,
) -> Result<(), AllocError>
    ensures { OnOk result (laid.new.items ≡ laid.old.items ++ spec.lines_before state.now kind standing) }
{
    if !state.begins_line(kind) {
        Ok(())
    } else if is_open(kind) {
        begin_line(laid, state.column, Standing::Below)
    } else {
        begin_line(laid, state.column, standing)
    }
}

/// Adds the line ends before a token, and goes on to the line and the row that it stands in.
#[inline(never)]
fn begin_row(
    laid: &mut Vec<u8>,
    state: &mut State,
    kind: TokenKind,
    bytes: &[u8],
    standing: Standing,
) -> Result<(), AllocError>
    ensures text { OnOk result (laid.new.items ≡ laid.old.items ++ spec.lines_before state.old kind standing) }
    ensures state { OnOk result (state.new ≡ spec.opened state.old kind bytes.now) }
    ensures column { OnOk result (state.new.column ≤ state.old.column) }
    ensures taken { OnOk result (state.new.taken ≤ 9) }
{
    push_lines(laid, state, kind, standing)?;
    state.open(kind, bytes);
    Ok(())
}

/// Adds the line ends before a token, at once where it goes on in its row, as most do.
#[tactic(auto, unfolding(crate::specs::Layout::opened))]
fn open_row(
    laid: &mut Vec<u8>,
    state: &mut State,
    kind: TokenKind,
    bytes: &[u8],
    standing: Standing,
) -> Result<(), AllocError>
    ensures text { OnOk result (laid.new.items ≡ laid.old.items ++ spec.lines_before state.old kind standing) }
    ensures state { OnOk result (state.new ≡ spec.opened state.old kind bytes.now) }
    ensures column { OnOk result (state.new.column ≤ state.old.column) }
    ensures taken { OnOk result (state.new.taken ≤ 9) }
{
    if state.is_over() {
        begin_row(laid, state, kind, bytes, standing)
    } else {
        Ok(())
    }
}

/// Adds a token. After an `Err` the state is of no use.
#[tactic(auto, unfolding(crate::specs::Layout::before, crate::specs::Layout::after))]
fn push_token(
    laid: &mut Vec<u8>,
    state: &mut State,
    kind: TokenKind,
    bytes: &[u8],
    standing: Standing,
) -> Result<(), AllocError>
    requires column { state.old.column ≤ vec_len laid.old }
    requires width { spec.width kind bytes.now ≤ length bytes.now }
    ensures text { OnOk result (laid.new.items
        ≡ laid.old.items ++ (spec.before state.old (Part.Code kind) bytes.now standing ++ bytes.now)) }
    ensures state { OnOk result (state.new ≡ spec.after state.old (Part.Code kind) bytes.now) }
    ensures column { OnOk result (state.new.column ≤ vec_len laid.new) }
{
    let places = width(kind, bytes);
    open_row(laid, state, kind, bytes, standing)?;
    let lead = state.lead(places);
    push_blanks(laid, lead)?;
    laid.extend_from_slice(bytes)?;
    state.advance(lead, places);
    Ok(())
}

/// Adds a comment with the end of its line. After an `Err` the state is of no use.
#[tactic(auto, unfolding(crate::specs::Layout::before, crate::specs::Layout::after))]
fn push_comment(
    laid: &mut Vec<u8>,
    state: &mut State,
    bytes: &[u8],
    standing: Standing,
) -> Result<(), AllocError>
    ensures text { OnOk result (laid.new.items
        ≡ laid.old.items ++ (spec.before state.old Part.Comment bytes.now standing ++ (bytes.now ++ 10 ∷ []))) }
    ensures state { OnOk result (state.new ≡ spec.after state.old Part.Comment bytes.now) }
    ensures column { OnOk result (state.new.column ≡ 0) }
{
    match standing {
        Standing::Beside => laid.extend_from_slice(b"  ")?,
        _ => begin_line(laid, state.column, standing)?,
    }
    laid.extend_from_slice(bytes)?;
    laid.push(b'\n')?;
    state.column = 0;
    state.pairs = 0;
    Ok(())
}

/// Adds a piece. After an `Err` the state is of no use.
pub(crate) fn push_piece(
    laid: &mut Vec<u8>,
    state: &mut State,
    piece: &Piece<'_>,
) -> Result<(), AllocError>
    requires column { state.old.column ≤ vec_len laid.old }
    requires bytes { HasBytes piece.now.part piece.now.bytes.now }
    ensures text { OnOk result (laid.new.items ≡ laid.old.items
        ++ (spec.before state.old piece.now.part piece.now.bytes.now piece.now.standing
        ++ (piece.now.bytes.now ++ spec.ending piece.now.part))) }
    ensures state { OnOk result (state.new ≡ spec.after state.old piece.now.part piece.now.bytes.now) }
    ensures column { OnOk result (state.new.column ≤ vec_len laid.new) }
{
    match piece.part {
        Part::Comment => push_comment(laid, state, piece.bytes, piece.standing),
        Part::Code(kind) => push_token(laid, state, kind, piece.bytes, piece.standing),
    }
}
