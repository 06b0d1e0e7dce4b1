//! The line of a place in a text.
ghost use Rattle.std.specs.Prelude.{◌≡◌, ◌+◌, ◌≤◌, ◌<◌, length, drop, IfOk, slice_index};
ghost use Rattle.keymap_text.specs.Lexical.{leading, stays_on_line};
ghost use Rattle.keymap_places.specs.LineOf.{before_in_line, rest_of_line, AreLines};
ghost use Rattle.keymap_text.specs.Meaning.{line};

use keymap_text::line_end;
use std::alloc::{AllocError, Global};
use std::marker::Model;

/// The line of a place: its number, counted from 1, its bytes before the place, and those from the place on, without
/// the LF that ends it. The column of the place, counted from 1 in bytes, is one more than the bytes before it.
#[derive(Clone, Copy, Debug)]
pub struct TextLine<'a> {
    pub number: u64,
    pub before: &'a [u8],
    pub rest: &'a [u8],
}

/// The lines of a text: where each begins, in order, so that the line of a place is found by a binary search.
#[derive(Drop)]
pub struct TextLines<'t> {
    text: &'t [u8],
    starts: Vec<usize>,
}

impl<'t> Model for TextLines<'t> {
    ghost use Rattle.std.specs.Prelude.{◌≡◌, ℕ, List};
    ghost use Rattle.keymap_places.specs.LineOf.{AreLines};

    ghost Value = { List ℕ };

    ghost view = { λ l. l.text.now };

    ghost invariant = { λ l. AreLines l.text.now l.starts.items };
}

/// Where the lines of a text begin.
fn starts_of(alloc: Global, text: &[u8]) -> Result<Vec<usize>, AllocError>
    ensures { IfOk result (λ starts. AreLines text.now starts.items) }
{
    let mut starts = Vec::new(alloc);
    starts.push(0)?;
    let mut end = line_end(text, 0);
    while end < text.len() {
        starts.push(end + 1)?;
        end = line_end(text, end + 1);
    }
    Ok(starts)
}

/// The line of a place, counted from 0.
fn line_index(starts: &[usize], place: usize) -> usize
    requires some { 0 < length starts.now }
    requires first { slice_index starts.now 0 ≤ place }
    ensures inside { result < length starts.now }
    ensures begins { slice_index starts.now result ≤ place }
    ensures next { result + 1 < length starts.now → place < slice_index starts.now (result + 1) }
{
    let mut low = 0;
    let mut high = starts.len();
    while high - low > 1 {
        let middle = low + (high - low) / 2;
        if starts[middle] <= place {
            low = middle;
        } else {
            high = middle;
        }
    }
    low
}

/// The bytes of the line that stand before a place.
fn before_place<'t>(text: &'t [u8], starts: &[usize], place: usize) -> &'t [u8]
    requires starts { AreLines text.now starts.now }
    requires place { place ≤ length text.now }
    ensures { result.now ≡ before_in_line text.now place }
{
    &text[starts[line_index(starts, place)]..place]
}

/// Where the line of a place ends.
fn end_at(text: &[u8], starts: &[usize], place: usize) -> usize
    requires starts { AreLines text.now starts.now }
    requires place { place ≤ length text.now }
    ensures bound { result ≤ length text.now }
    ensures value { result ≡ place + leading stays_on_line (drop place text.now) }
{
    let next = line_index(starts, place) + 1;
    if next < starts.len() {
        starts[next] - 1
    } else {
        text.len()
    }
}

/// The bytes of the line from a place on.
fn from_place<'t>(text: &'t [u8], starts: &[usize], place: usize) -> &'t [u8]
    requires starts { AreLines text.now starts.now }
    requires place { place ≤ length text.now }
    ensures { result.now ≡ rest_of_line text.now place }
{
    &text[place..end_at(text, starts, place)]
}

impl<'t> TextLines<'t> {
    /// The lines of a text. `Err` means that memory was refused: it takes 8 bytes for each line.
    pub fn new(alloc: Global, text: &'t [u8]) -> Result<TextLines<'t>, AllocError>
        ensures { IfOk result (λ lines. lines ≡ text.now) }
    {
        let starts = starts_of(alloc, text)?;
        Ok(TextLines { text, starts })
    }

    /// The text.
    pub fn text(&self) -> &[u8]
        ensures { result.now ≡ self.now }
    {
        self.text
    }

    /// The number of the line in which a place of the text stands, counted from 1.
    pub fn number_at(&self, place: usize) -> u64
        requires { place ≤ length self.now }
        ensures { result ≡ line self.now place }
    {
        line_index(self.starts.as_slice(), place) as u64 + 1
    }

    /// The line in which a place of the text stands; the end of the text stands in its last line.
    pub fn at(&self, place: usize) -> TextLine<'_>
        requires { place ≤ length self.now }
        ensures number { result.number ≡ line self.now place }
        ensures before { result.before.now ≡ before_in_line self.now place }
        ensures rest { result.rest.now ≡ rest_of_line self.now place }
    {
        TextLine {
            number: self.number_at(place),
            before: before_place(self.text, self.starts.as_slice(), place),
            rest: from_place(self.text, self.starts.as_slice(), place),
        }
    }
}
