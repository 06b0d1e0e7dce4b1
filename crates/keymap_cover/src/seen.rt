//! What the presses of a script saw.
ghost use Rattle.std.specs.Prelude.{◌≡◌, ◌<◌, false, true, length, slice_set, slice_index_or};
ghost use Rattle.std.specs.List.{Contains};
ghost use Rattle.keymap_core.specs.Numbers.{column_count};
ghost use Rattle.console_states.specs.declared.selection.Sight.TheVariants as sight;
ghost use Rattle.console_states.specs.Sights.{selection_with};
ghost use Rattle.keymap_cover.specs.SightLists.{cell_place, lock_setting_place};

use crate::sight_lists::{CELL_COUNT, LOCK_SETTING_COUNT};
use console_core::Translator;
use console_states::{Selection, Sight};
use keymap_core::{COLUMN_COUNT, Cell, KeyCode, KeyMap, Lock, Modifier};
use std::alloc::{AllocError, Global};

/// The cells and the lock settings that were seen, each by its place among all, and the pairs.
#[derive(Drop)]
pub struct Seen {
    pub cells: Vec<bool>,
    pub lock_settings: Vec<bool>,
    pub pairs: Vec<Sight>,
    ghost cells_len: { length cells.items ≡ 2048 },
    ghost lock_settings_len: { length lock_settings.items ≡ 1024 },
}

/// The place of a cell among all.
fn place_of_cell(slot: u8, column: usize) -> usize
    requires { column < column_count }
    ensures within { result < 2048 }
    ensures value { result ≡ cell_place slot column }
{
    slot as usize * 8 + column
}

/// The place of a lock setting among all.
fn place_of_lock_setting(slot: u8, caps: bool, num: bool) -> usize
    ensures within { result < 1024 }
    ensures value { result ≡ lock_setting_place slot caps num }
{
    slot as usize * 4 + usize::from(caps) * 2 + usize::from(num)
}

/// Marks the place.
fn mark(marks: &mut [bool], place: usize)
    requires { place < length marks.old }
    ensures { marks.new ≡ slice_set marks.old place true }
{
    marks[place] = true;
}

/// Whether the place is marked.
fn is_marked(marks: &[bool], place: usize) -> bool
    requires { place < length marks.now }
    ensures { result ≡ slice_index_or marks.now place false }
{
    marks[place]
}

/// Whether the pair is among these.
fn has_pair(pairs: &[Sight], accent: u8, character: char) -> bool
    ensures among { result ≡ true → Contains pairs.now (sight.Pair accent character) }
    ensures missing { result ≡ false → Contains pairs.now (sight.Pair accent character) → ⊥ }
{
    let pair = Sight::Pair { accent, character };
    for other in pairs {
        if *other == pair {
            return true;
        }
    }
    false
}

/// What of the console picks the cell that a key looks up.
pub fn selection<T: Translator>(console: &T) -> Selection
    ensures { result ≡ selection_with (T.shows_on console.now) (T.shows_locked console.now) }
{
    Selection {
        upper: console.on(Modifier::AltShift) != console.locked(Lock::Alt),
        shift: console.on(Modifier::LeftShift) || console.on(Modifier::RightShift),
        control: console.on(Modifier::LeftControl) || console.on(Modifier::RightControl),
        alt: console.on(Modifier::LeftAlt) || console.on(Modifier::RightAlt),
        caps: console.locked(Lock::Caps),
        num: console.locked(Lock::Num),
    }
}

impl Seen {
    ghost use Rattle.std.specs.Prelude.{List, OnOk, IfOk};
    ghost use Rattle.console_core.specs.declared.event.Event.{Event};
    ghost use Rattle.console_core.specs.History.{between};
    ghost use Rattle.console_states.specs.declared.selection.Sight.{Sight as SightValue};
    ghost use Rattle.keymap_cover.specs.SeenSights.{AddsSights, Gains, SeesWith, has_seen};
    ghost use Rattle.keymap_cover.specs.Inner.Scripts.{AddsPair, IsWith};

    /// Nothing was seen.
    pub fn new(alloc: Global) -> Result<Seen, AllocError>
        ensures { IfOk result (λ t. (x : SightValue) → has_seen t x ≡ false) }
    {
        Ok(Seen {
            cells: Vec::from_array(alloc, [false; CELL_COUNT])?,
            lock_settings: Vec::from_array(alloc, [false; LOCK_SETTING_COUNT])?,
            pairs: Vec::new(alloc),
        })
    }

    /// Whether the sight was seen.
    pub fn has(&self, sight: Sight) -> bool
        ensures { result ≡ has_seen self.now sight }
    {
        match sight {
            Sight::Cell { slot, column } => {
                column < COLUMN_COUNT && is_marked(&self.cells, place_of_cell(slot, column))
            }
            Sight::Locks { slot, caps, num } => {
                is_marked(&self.lock_settings, place_of_lock_setting(slot, caps, num))
            }
            Sight::Pair { accent, character } => has_pair(&self.pairs, accent, character),
        }
    }

    /// Adds a cell.
    pub(crate) fn add_cell(&mut self, slot: u8, column: usize)
        requires { column < column_count }
        ensures { IsWith (sight.Cell slot column) (has_seen self.old) (has_seen self.new) }
    {
        mark(&mut self.cells, place_of_cell(slot, column));
    }

    /// Adds a lock setting.
    pub(crate) fn add_lock_setting(&mut self, slot: u8, caps: bool, num: bool)
        ensures { IsWith (sight.Locks slot caps num) (has_seen self.old) (has_seen self.new) }
    {
        mark(
            &mut self.lock_settings,
            place_of_lock_setting(slot, caps, num),
        );
    }

    /// Adds a pair.
    pub(crate) fn add_pair(&mut self, accent: u8, character: char) -> Result<(), AllocError>
        ensures { OnOk result (IsWith (sight.Pair accent character) (has_seen self.old) (has_seen self.new)) }
    {
        if !has_pair(&self.pairs, accent, character) {
            self.pairs.push(Sight::Pair { accent, character })?;
        }
        Ok(())
    }

    /// Adds the pair that a press of the key composes, if an accent is pending.
    fn add_composed(
        &mut self,
        map: &KeyMap,
        selection: Selection,
        key: KeyCode,
        pending: Option<u8>,
    ) -> Result<(), AllocError>
        ensures { OnOk result (AddsPair map.now selection key pending (has_seen self.old) (has_seen self.new)) }
    {
        if let Some(accent) = pending {
            if let Cell::Char(character) = selection.look(map, key) {
                self.add_pair(accent, character)?;
            }
        }
        Ok(())
    }

    /// Adds what a press of the key sees under the selection, while the accent is pending that is told, if one is.
    pub fn add_press(
        &mut self,
        map: &KeyMap,
        selection: Selection,
        key: KeyCode,
        pending: Option<u8>,
    ) -> Result<(), AllocError>
        ensures { OnOk result (Gains (SeesWith map.now selection key pending) (has_seen self.old) (has_seen self.new)) }
    {
        let slot = selection.slot(key);
        let column = selection.column(map, key);
        self.add_cell(slot, column);
        self.add_lock_setting(slot, selection.caps, selection.num);
        self.add_composed(map, selection, key, pending)?;
        Ok(())
    }

    /// Adds what a press of the key sees.
    pub fn add_sights<T: Translator>(
        &mut self,
        console: &T,
        map: &KeyMap,
        key: KeyCode,
    ) -> Result<(), AllocError>
        ensures { OnOk result ((h : List Event) → T.stands console.now (between map.now map.now) h
            → AddsSights map.now h key (has_seen self.old) (has_seen self.new)) }
    {
        self.add_press(map, selection(console), key, console.pending())?;
        Ok(())
    }
}
