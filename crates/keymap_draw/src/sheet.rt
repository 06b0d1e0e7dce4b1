//! The text of a picture as it is put together. What is seen of it is what a reader makes of it: the facts that it
//! tells, and by its type the elements that its end stands in. Only the functions of this file know bytes.
ghost use Rattle.std.specs.Prelude.{◌≡◌, ◌++◌, ◌∷◌, [], true, List, Some, IfOk, OnOk, map, reverse};
ghost use Rattle.std.specs.List.{list_all};
ghost use Rattle.messages.specs.Filled.{filled};
ghost use Rattle.keymap_draw.specs.Facts.{Fact};
ghost use Rattle.keymap_draw.specs.Sheets.{within, over, facts_over, written, is_ready, in_svg, in_key, in_row};
ghost use Rattle.keymap_draw.specs.Sheets.{in_table, is_seen};
ghost use Rattle.keymap_draw.specs.Pictures.{colour_key, head};
ghost use Rattle.keymap_draw.specs.WellFormed.{Element, Tells};

use crate::constants::{SHAPES, STYLE};
use crate::markup::{Added, push_characters, push_escaped};
use crate::words::{ACCEPTED, BEGIN, DESCRIPTION, END, PAGE, REFUSED, TITLE};
use messages::{either, number, parted};
use std::alloc::Global;
use std::marker::{Model, PhantomData};

/// Where the end of a text stands, by the elements that have begun.
pub(crate) trait Part {
    ghost begun: { List Element };
}

/// Between the parts of a picture, behind its head.
pub(crate) struct InPicture;

impl Part for InPicture {
    ghost begun = { in_svg };
}

/// In the group of a key, behind its cap.
pub(crate) struct InKey;

impl Part for InKey {
    ghost begun = { in_key };
}

/// In a row below the keys.
pub(crate) struct InRow;

impl Part for InRow {
    ghost begun = { in_row };
}

/// In a line of the table of an accent.
pub(crate) struct InTable;

impl Part for InTable {
    ghost begun = { in_table };
}

/// The text of a picture up to a place in it.
#[derive(Drop)]
pub(crate) struct Sheet<P: Part> {
    text: Vec<u8>,
    part: PhantomData<P>,
}

impl<P: Part> Model for Sheet<P> {
    ghost use Rattle.std.specs.Prelude.{List};
    ghost use Rattle.keymap_draw.specs.Facts.{Fact};
    ghost use Rattle.keymap_draw.specs.Sheets.{facts_in, IsWithin};

    ghost Value = { List Fact };

    ghost view = { λ s. facts_in s.text.items };

    ghost invariant = { λ s. IsWithin P.begun s.text.items };
}

/// What stands at a place of words: as it is, a number in decimal digits, or with references where markup needs them.
#[derive(Clone, Copy)]
pub(crate) enum Content<'a> {
    Plain(&'a [u8]),
    Number(u32),
    Bytes(&'a [u8]),
    Characters(&'a [char]),
}

fn push_content(text: &mut Vec<u8>, content: &Content) -> Added
    ensures { OnOk result (text.new.items ≡ text.old.items ++ written content.now) }
{
    match content {
        Content::Plain(bytes) => text.extend_from_slice(bytes),
        Content::Number(n) => text.extend_from_slice(number(u64::from(*n)).as_slice()),
        Content::Bytes(bytes) => push_escaped(text, bytes),
        Content::Characters(characters) => push_characters(text, characters),
    }
}

/// Adds words with contents at their places.
#[tactic(auto, unfolding(messages::specs::Filled::filled))]
fn push_filled(text: &mut Vec<u8>, words: &[u8], contents: &[Content]) -> Added
    ensures { OnOk result (text.new.items ≡ text.old.items ++ filled words.now (map written contents.now)) }
{
    match contents {
        [] => text.extend_from_slice(words),
        [first, rest @ ..] => {
            let (before, behind) = parted(words);
            text.extend_from_slice(before)?;
            push_content(text, first)?;
            push_filled(text, behind, rest)
        }
    }
}

/// Adds words with contents at their places. What they tell are facts.
pub(crate) fn tell<P: Part, Q: Part>(
    sheet: Sheet<P>,
    words: &[u8],
    contents: &[Content],
) -> Added<Sheet<Q>>
    requires ready { list_all is_ready contents.now ≡ true }
    requires read { (fs : List Fact) → over (Some (within P.begun fs)) words.now contents.now
        ≡ Some (within Q.begun (reverse (facts_over P.begun words.now contents.now) ++ fs)) }
    ensures { IfOk result (λ s. s ≡ sheet ++ facts_over P.begun words.now contents.now) }
{
    let Sheet { mut text, part: _ } = sheet;
    push_filled(&mut text, words, contents)?;
    Ok(Sheet {
        text,
        part: PhantomData,
    })
}

/// The head of a picture of a name and some height: its begin, its title and its description, the style, the shapes and
/// the page.
pub(crate) fn begin(
    alloc: Global,
    name: &[char],
    count: usize,
    height: u32,
) -> Added<Sheet<InPicture>>
    requires { list_all is_seen name.now ≡ true }
    ensures { IfOk result (λ s. s ≡ head name.now count height) }
{
    let mut text = Vec::new(alloc);
    let high = Content::Number(height);
    let verdict = Content::Plain(either(count == 0, ACCEPTED, REFUSED));
    push_filled(&mut text, BEGIN, &[high, high])?;
    push_filled(&mut text, TITLE, &[Content::Characters(name), verdict])?;
    text.extend_from_slice(DESCRIPTION)?;
    text.extend_from_slice(&STYLE)?;
    text.extend_from_slice(&SHAPES)?;
    push_filled(&mut text, PAGE, &[high])?;
    Ok(Sheet {
        text,
        part: PhantomData,
    })
}

/// The text of a picture, with the key to its colours at its end.
pub(crate) fn finish(sheet: Sheet<InPicture>, y: u32) -> Added<Vec<u8>>
    ensures { IfOk result (λ text. Tells (sheet ++ colour_key y) text.items) }
{
    let Sheet { mut text, part: _ } = sheet;
    push_filled(&mut text, END, &[Content::Number(y)])?;
    Ok(text)
}
