//! A text that spells a map.
ghost use Rattle.std.specs.Prelude.{◌≡◌, ◌+◌, ◌<◌};
ghost use Rattle.keymap_core.specs.Numbers.{accent_limit};
ghost use Rattle.keymap_core.specs.Borne.{is_upper_live as is_upper_live_of};
ghost use Rattle.keymap_core.specs.Maps.{cell_at};
ghost use Rattle.keymap_lint.specs.Capitals.{is_sure as is_sure_of};
ghost use Rattle.keymap_places.specs.Placed.{last_of, HasIndex};
ghost use Rattle.keymap_lint.specs.Types.{Slot, Accent};
ghost use Rattle.keymap_lint.specs.Spelled.{bytes_at as bytes_at_span, HasLast, span_at, offset_at};
ghost use Rattle.keymap_lint.specs.Spelled.{is_in_force as is_in_force_in};
ghost use Rattle.keymap_lint.specs.Kinds.{defines as defines_slot, is_defined};
ghost use Rattle.keymap_lint.specs.Spelled.{content as content_of, is_live as is_live_in};

use crate::capitals::is_sure;
use crate::cells::CellInForce;
use keymap_core::{Cell, KEY_COUNT, KeyMap};
use keymap_places::{Defined, LastDefinitions, Placed};
use keymap_text::Span;
use std::marker::Model;

/// A text that spells a map: its definitions, the last ones among them, where its tokens stand, and the map.
#[derive(Drop)]
pub(crate) struct SpelledText<'t> {
    text: &'t [u8],
    definitions: &'t [Placed],
    last: &'t LastDefinitions,
    spans: &'t [Span],
    map: &'t KeyMap,
    is_upper_live: bool,
    is_sure: bool,
}

impl<'t> Model for SpelledText<'t> {
    ghost use Rattle.std.specs.Prelude.{◌≡◌};
    ghost use Rattle.keymap_core.specs.Borne.{is_upper_live as is_upper_live_of};
    ghost use Rattle.keymap_lint.specs.Capitals.{is_sure as is_sure_of};
    ghost use Rattle.keymap_lint.specs.Spelled.{Spelled, HasLast};

    ghost Value = { Spelled };

    ghost view = { λ t. record {
      text = t.text.now;
      definitions = t.definitions.now;
      spans = t.spans.now;
      map = t.map.now;
    } };

    ghost invariant = { λ t. HasLast t.last.now t.definitions.now
        × (t.is_upper_live ≡ is_upper_live_of t.map.now) × (t.is_sure ≡ is_sure_of t.map.now t.text.now) };
}

/// The bytes of a span; those of it that the text has.
pub fn bytes_at(text: &[u8], span: Span) -> &[u8]
    ensures { result.now ≡ bytes_at_span text.now span }
{
    let behind = &text[span.start.min(text.len())..];
    let len = span.end.saturating_sub(span.start);
    &behind[..len.min(behind.len())]
}

/// What stands in a slot and column of a map.
pub(crate) fn cell_in(map: &KeyMap, slot: u8, column: u8) -> Cell
    ensures { result ≡ cell_at map.now slot column }
{
    match map.entry(slot).cells().get(column as usize) {
        Some(content) => *content,
        None => Cell::Char('\0'),
    }
}

impl<'t> SpelledText<'t> {
    /// The text with these definitions and tokens, and with this map.
    pub(crate) fn new(
        text: &'t [u8],
        definitions: &'t [Placed],
        last: &'t LastDefinitions,
        spans: &'t [Span],
        map: &'t KeyMap,
    ) -> SpelledText<'t>
        requires { HasLast last.now definitions.now }
        ensures text { result.text ≡ text.now }
        ensures definitions { result.definitions ≡ definitions.now }
        ensures spans { result.spans ≡ spans.now }
        ensures map { result.map ≡ map.now }
    {
        SpelledText {
            text,
            definitions,
            last,
            spans,
            map,
            is_upper_live: map.is_upper_live(),
            is_sure: is_sure(map, text),
        }
    }

    /// The definitions in their order.
    pub(crate) fn definitions(&self) -> &[Placed]
        ensures { result.now ≡ self.now.definitions }
    {
        self.definitions
    }

    /// The map.
    pub(crate) fn map(&self) -> &KeyMap
        ensures { result.now ≡ self.now.map }
    {
        self.map
    }

    /// Whether its characters above ASCII are letters for sure, where some slot has one.
    pub(crate) fn is_sure(&self) -> bool
        ensures { result ≡ is_sure_of self.now.map self.now.text }
    {
        self.is_sure
    }

    /// Whether the cells of the slot are live.
    pub(crate) fn is_live(&self, slot: u8) -> bool
        ensures { result ≡ is_live_in self.now slot }
    {
        slot < KEY_COUNT as u8 || self.is_upper_live
    }

    /// Whether the slots from 128 on are live: some cell of the others selects them.
    pub(crate) fn is_upper_live(&self) -> bool
        ensures { result ≡ is_upper_live_of self.now.map }
    {
        self.is_upper_live
    }

    /// What stands in a slot and column.
    pub(crate) fn cell(&self, slot: u8, column: u8) -> Cell
        ensures { result ≡ cell_at self.now.map slot column }
    {
        cell_in(self.map, slot, column)
    }

    /// What stands in the cell.
    pub(crate) fn content(&self, cell: &CellInForce) -> Cell
        ensures { result ≡ content_of self.now cell.now }
    {
        self.cell(cell.slot, cell.column)
    }

    /// Where a token stands: the one that is so many behind another one.
    pub(crate) fn span(&self, first: usize, part: usize) -> Span
        ensures { result ≡ span_at self.now.spans (first + part) }
    {
        if first < self.spans.len() && part < self.spans.len() - first {
            self.spans[first + part]
        } else {
            Span { start: 0, end: 0 }
        }
    }

    /// The text itself.
    pub(crate) fn text(&self) -> &[u8]
        ensures { result.now ≡ self.now.text }
    {
        self.text
    }

    /// Where the tokens stand.
    pub(crate) fn spans(&self) -> &[Span]
        ensures { result.now ≡ self.now.spans }
    {
        self.spans
    }

    /// The offset at which that token begins.
    pub(crate) fn offset_behind(&self, first: usize, part: usize) -> usize
        ensures { result ≡ offset_at self.now (first + part) }
    {
        self.span(first, part).start
    }

    /// The offset at which a token begins.
    pub(crate) fn offset(&self, token: usize) -> usize
        ensures { result ≡ offset_at self.now token }
    {
        match self.spans.get(token) {
            Some(span) => span.start,
            None => 0,
        }
    }

    /// The last definition of the slot.
    pub(crate) fn slot(&self, slot: u8) -> Option<Placed>
        ensures { result ≡ last_of (Slot slot) self.now.definitions }
    {
        self.last.slots[slot as usize]
    }

    /// The last definition of the accent.
    pub(crate) fn accent(&self, index: u8) -> Option<Placed>
        requires { index < accent_limit }
        ensures { result ≡ last_of (Accent index) self.now.definitions }
    {
        self.last.accents[index as usize]
    }

    /// Whether the text defines the slot.
    pub(crate) fn defines(&self, slot: u8) -> bool
        ensures { result ≡ defines_slot self.now slot }
    {
        self.slot(slot).is_some()
    }

    /// Whether the text defines the accent.
    pub(crate) fn defines_accent(&self, index: u8) -> bool
        requires { index < accent_limit }
        ensures { result ≡ is_defined self.now index }
    {
        self.accent(index).is_some()
    }

    /// The last definition of what is defined.
    pub(crate) fn last(&self, what: Defined) -> Option<Placed>
        requires { HasIndex what }
        ensures { result ≡ last_of what self.now.definitions }
    {
        match what {
            Defined::Slot(slot) => self.slot(slot),
            Defined::Accent(index) => self.accent(index),
        }
    }

    /// Whether the definition is the last one of what it defines.
    pub(crate) fn is_in_force(&self, definition: &Placed) -> bool
        requires { HasIndex definition.now.what }
        ensures { result ≡ is_in_force_in self.now definition.now }
    {
        match self.last(definition.what) {
            Some(last) => last.first == definition.first,
            None => false,
        }
    }
}
