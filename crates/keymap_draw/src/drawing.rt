//! What a picture is drawn of.
ghost use Rattle.std.specs.Prelude.{◌≡◌, ◌≤◌, [], false, length, true};
ghost use Rattle.std.specs.List.{list_all};
ghost use Rattle.keymap_core.specs.Borne.{is_upper_live as is_upper_live_of};
ghost use Rattle.keymap_core.specs.Bounds.{IsMap};
ghost use Rattle.keymap_draw.specs.Drawings.{line_about};
ghost use Rattle.keymap_draw.specs.Sheets.{is_seen};

use crate::change::{About, ChangeLine};
use crate::marks::first_about;
use keyboard::Board;
use keymap_check::{Finding, Report};
use keymap_core::KeyMap;
use keymap_core::laws::every_keymap_is_within_the_bounds;
use std::marker::Model;

/// A keymap with the findings of its check, on a board, and the name that it is headed by. Of a change also the keymap
/// before it, its name, and the lines that tell the change; else the keymap itself, and no lines.
#[derive(Drop)]
pub(crate) struct Drawing<'m> {
    map: &'m KeyMap,
    findings: &'m [Finding],
    board: Board,
    name: &'m [char],
    is_change: bool,
    old: &'m KeyMap,
    old_name: &'m [char],
    lines: &'m [ChangeLine],
    is_upper_live: bool,
}

impl<'m> Model for Drawing<'m> {
    ghost use Rattle.std.specs.Prelude.{◌≡◌, ◌≤◌, length, true};
    ghost use Rattle.std.specs.List.{list_all};
    ghost use Rattle.keymap_core.specs.Borne.{is_upper_live as is_upper_live_of};
    ghost use Rattle.keymap_core.specs.Bounds.{IsMap};
    ghost use Rattle.keymap_draw.specs.Drawings.{Drawing as DrawingValue};
    ghost use Rattle.keymap_draw.specs.Sheets.{is_seen};

    ghost Value = { DrawingValue };

    ghost view = { λ d. record {
      map = d.map.now;
      findings = d.findings.now;
      board = d.board;
      name = d.name.now;
      is_change = d.is_change;
      old = d.old.now;
      old_name = d.old_name.now;
      lines = d.lines.now;
    } };

    ghost invariant = { λ d. IsMap d.map.now
        × (length d.findings.now ≤ 128)
        × (list_all is_seen d.name.now ≡ true)
        × (list_all is_seen d.old_name.now ≡ true)
        × (d.is_upper_live ≡ is_upper_live_of d.map.now) };
}

impl<'m> Drawing<'m> {
    pub(crate) fn new(
        map: &'m KeyMap,
        report: &'m Report,
        board: Board,
        name: &'m [char],
    ) -> Drawing<'m>
        requires { list_all is_seen name.now ≡ true }
        ensures { result ≡ record {
          map = map.now;
          findings = report.now.findings;
          board = board;
          name = name.now;
          is_change = false;
          old = map.now;
          old_name = [];
          lines = [];
        } }
    {
        every_keymap_is_within_the_bounds(map);
        Drawing {
            map,
            findings: report.findings().as_slice(),
            board,
            name,
            is_change: false,
            old: map,
            old_name: &[],
            lines: &[],
            is_upper_live: map.is_upper_live(),
        }
    }

    /// What is drawn of the change of an old keymap to this one.
    pub(crate) fn since(
        self,
        old: &'m KeyMap,
        old_name: &'m [char],
        lines: &'m [ChangeLine],
    ) -> Drawing<'m>
        requires { list_all is_seen old_name.now ≡ true }
        ensures { result ≡ record {
          map = self.entry.map;
          findings = self.entry.findings;
          board = self.entry.board;
          name = self.entry.name;
          is_change = true;
          old = old.now;
          old_name = old_name.now;
          lines = lines.now;
        } }
    {
        Drawing {
            is_change: true,
            old,
            old_name,
            lines,
            ..self
        }
    }

    pub(crate) fn map(&self) -> &KeyMap
        ensures map { result.now ≡ self.now.map }
        ensures bounds { IsMap result.now }
    {
        self.map
    }

    pub(crate) fn findings(&self) -> &[Finding]
        ensures findings { result.now ≡ self.now.findings }
        ensures few { length result.now ≤ 128 }
    {
        self.findings
    }

    pub(crate) fn board(&self) -> Board
        ensures { result ≡ self.now.board }
    {
        self.board
    }

    pub(crate) fn name(&self) -> &[char]
        ensures name { result.now ≡ self.now.name }
        ensures seen { list_all is_seen result.now ≡ true }
    {
        self.name
    }

    pub(crate) fn is_change(&self) -> bool
        ensures { result ≡ self.now.is_change }
    {
        self.is_change
    }

    pub(crate) fn old(&self) -> &KeyMap
        ensures { result.now ≡ self.now.old }
    {
        self.old
    }

    pub(crate) fn old_name(&self) -> &[char]
        ensures name { result.now ≡ self.now.old_name }
        ensures seen { list_all is_seen result.now ≡ true }
    {
        self.old_name
    }

    pub(crate) fn lines(&self) -> &[ChangeLine]
        ensures { result.now ≡ self.now.lines }
    {
        self.lines
    }

    /// The first line that tells of something.
    pub(crate) fn line(&self, about: About) -> &[char]
        ensures words { result.now ≡ line_about self.now.lines about }
        ensures seen { list_all is_seen result.now ≡ true }
    {
        first_about(self.lines, about)
    }

    /// Whether the upper half is drawn.
    pub(crate) fn is_upper_live(&self) -> bool
        ensures { result ≡ is_upper_live_of self.now.map }
    {
        self.is_upper_live
    }
}
