//! The tables of a keymap: their faults, whether they are accepted, who bears what, and each cell.
ghost use Rattle.std.specs.Prelude.{◌≡◌, ◌≢◌, ◌↔◌, ◌<◌, length};
ghost use Rattle.keymap_core.specs.Actions.{holding_index};
ghost use Rattle.keymap_core.specs.declared.action.Holding.{Holding as HoldingValue};
ghost use Rattle.keymap_check.specs.declared.bearer.Bearer.{Bearer as BearerValue};
ghost use Rattle.keymap_check.specs.Report.{IsBearer};
ghost use Rattle.keymap_core.specs.Bounds.{IsMap};
ghost use Rattle.keymap_core.specs.Maps.{MapValue, cell_at};
ghost use Rattle.keymap_tables.specs.Faults.{IsTableFault};
ghost use Rattle.keymap_tables.specs.Image.{image};
ghost use Rattle.keymap_tables.specs.declared.fault.TableFault.{TableFault as TableFaultValue};
ghost use Rattle.keymap_core.specs.Numbers.{column_count};
ghost use Rattle.keymap_tables.specs.Layouts.{wide, file_size};
ghost use Rattle.console_core.specs.Headline.{IsSafe};
ghost use Rattle.keymap_check.specs.Findings.{IsFirstFinding};
ghost use Rattle.keymap_check.specs.Promises.{KeepsPromise};
ghost use Rattle.keymap_check.specs.declared.finding.Finding.{Finding as FindingValue};
ghost use Rattle.kmap_c.specs.Told.{IsTold, character_in, IsAcceptance, IsToldBearer, bearer_status, AreFaulty};
ghost use Rattle.kmap_c.specs.Cells.{answer_in as answer_in_cell, cell_number, cell_status};
ghost use Rattle.kmap_c.specs.Numbers.{kind_number};
ghost use Rattle.kmap_c.specs.Statuses as status;

use crate::status::{BAD_HOLDING, BAD_LENGTH, BAD_PLACE, DONE, FAULTY, UNSAFE};
use console_core::Answer;
use keymap_check::laws::safe_maps_keep_their_promise;
use keymap_check::{Bearer, Finding, check_shown, first_finding};
use keymap_core::{Action, COLUMN_COUNT, Cell, Holding, Keymap, Lock, Modifier, SLOT_LIMIT};
use keymap_tables::{TableFaultKind, Tables, check_tables};

/// A fault of a table file: at so many bytes from its start, and what stands there.
#[repr(C)]
#[derive(Clone, Copy, Drop)]
pub struct KmapFault {
    pub offset: u64,
    pub kind: u32,
}

/// The number of a kind of fault.
pub(crate) fn number_of(kind: TableFaultKind) -> u32
    ensures { result ≡ kind_number kind }
{
    match kind {
        TableFaultKind::Short => 1,
        TableFaultKind::Long => 2,
        TableFaultKind::BadCount => 3,
        TableFaultKind::BadPad => 4,
        TableFaultKind::BadFlag => 5,
        TableFaultKind::BadAction => 6,
        TableFaultKind::Combined => 7,
        TableFaultKind::BadChar => 8,
        TableFaultKind::NotEmpty => 9,
    }
}

/// Checks a table file: `DONE` where it is the image of a keymap, else `FAULTY` and the fault of least offset.
#[unsafe(no_mangle)]
pub extern "C" fn kmap_check(tables: &[u8], fault: &mut KmapFault) -> i32
    ensures good { result ≡ status.done → (m : MapValue) × IsMap m × (tables.now ≡ image m) }
    ensures faulty { result ≢ status.done → (result ≡ status.faulty)
        × ((f : TableFaultValue) × IsTableFault tables.now f
        × (fault.new.offset ≡ f.offset) × (fault.new.kind ≡ kind_number f.kind)) }
    ensures unchanged { result ≡ status.done → fault.new ≡ fault.old }
{
    match check_tables(tables) {
        Ok(()) => DONE,
        Err(found) => {
            fault.offset = found.offset;
            fault.kind = number_of(found.kind);
            FAULTY
        }
    }
}

/// A key that makes a keymap refused: the number and the place of its first modifier or lock, and its first character
/// with its place.
#[repr(C)]
#[derive(Clone, Copy, Drop)]
pub struct KmapFinding {
    pub character: u32,
    pub key: u8,
    pub holding: u8,
    pub holding_slot: u8,
    pub holding_column: u8,
    pub character_slot: u8,
    pub character_column: u8,
}

/// The character of a cell, 0 where it is an action.
fn character_of(cell: Cell) -> u32
    ensures { result ≡ character_in cell }
{
    match cell {
        Cell::Char(c) => c as u32,
        Cell::Act(_) => 0,
    }
}

/// What a caller in C is told of a finding.
fn told<K: Keymap>(map: &K, found: Finding) -> KmapFinding
    requires { found.character_at.column < column_count }
    ensures { (m : MapValue) → K.shows map.now m → IsFirstFinding m found → IsTold m found result }
{
    let at = found.character_at;
    KmapFinding {
        character: character_of(map.cell(at.slot, at.column as usize)),
        key: found.key.get(),
        holding: found.holding.index() as u8,
        holding_slot: found.holding_at.slot,
        holding_column: found.holding_at.column,
        character_slot: at.slot,
        character_column: at.column,
    }
}

/// Whether the tables are those of a keymap that is accepted: `DONE` where they are, `UNSAFE` and the finding of the
/// least key where the keymap is refused; `BAD_LENGTH`, or `FAULTY` for tables with a fault.
#[unsafe(no_mangle)]
pub extern "C" fn kmap_accepts(tables: &[u8], finding: &mut KmapFinding) -> i32
    ensures accepted { result ≡ status.done
        → (m : MapValue) × IsMap m × (tables.now ≡ image m) × IsSafe m × KeepsPromise m (IsSafe m) }
    ensures refused { result ≡ status.unsafe → (m : MapValue) × IsMap m × (tables.now ≡ image m) × (¬ IsSafe m)
        × ((f : FindingValue) × IsFirstFinding m f × IsTold m f finding.new) }
    ensures bad_length { (result ≡ status.bad_length) ↔ (length tables.now ≢ file_size wide) }
    ensures faulty { (result ≡ status.faulty) ↔ AreFaulty tables.now }
    ensures status { IsAcceptance result }
    ensures unchanged { result ≢ status.unsafe → finding.new ≡ finding.old }
{
    let Some(shown) = Tables::new(tables) else {
        return BAD_LENGTH;
    };
    match check_tables(tables) {
        Ok(()) => {}
        Err(_) => return FAULTY,
    }
    safe_maps_keep_their_promise();
    match first_finding(&shown) {
        None => DONE,
        Some(found) => {
            *finding = told(&shown, found);
            UNSAFE
        }
    }
}

/// Which key bears a modifier or lock: 0 none, 1 this key alone in all its cells, 2 this key alone, 3 several.
#[repr(C)]
#[derive(Clone, Copy, Drop)]
pub struct KmapBearer {
    pub kind: u8,
    pub key: u8,
}

/// What a caller in C is told of a bearer.
fn told_bearer(bearer: Bearer) -> KmapBearer
    ensures { IsToldBearer bearer result }
{
    match bearer {
        Bearer::Nobody => KmapBearer { kind: 0, key: 0 },
        Bearer::Throughout(key) => KmapBearer {
            kind: 1,
            key: key.get(),
        },
        Bearer::Sole(key) => KmapBearer {
            kind: 2,
            key: key.get(),
        },
        Bearer::Several => KmapBearer { kind: 3, key: 0 },
    }
}

/// The modifier or lock of an index.
pub(crate) fn holding_of(index: u8) -> Holding
    requires { index < 12 }
    ensures { holding_index result ≡ index }
{
    match index {
        0 => Holding::Mod(Modifier::LeftShift),
        1 => Holding::Mod(Modifier::RightShift),
        2 => Holding::Mod(Modifier::LeftControl),
        3 => Holding::Mod(Modifier::RightControl),
        4 => Holding::Mod(Modifier::LeftAlt),
        5 => Holding::Mod(Modifier::RightAlt),
        6 => Holding::Mod(Modifier::AltShift),
        7 => Holding::Mod(Modifier::Meta),
        8 => Holding::Lock(Lock::Caps),
        9 => Holding::Lock(Lock::Num),
        10 => Holding::Lock(Lock::Scroll),
        _ => Holding::Lock(Lock::Alt),
    }
}

/// Which key bears the modifier or lock of an index: `DONE`, or `BAD_LENGTH`, or `BAD_HOLDING` for an index above 11.
#[unsafe(no_mangle)]
pub extern "C" fn kmap_bearer(tables: &[u8], holding: u8, bearer: &mut KmapBearer) -> i32
    ensures borne { result ≡ status.done → (m : MapValue) → IsMap m → tables.now ≡ image m
        → (a : HoldingValue) × (holding_index a ≡ holding)
        × ((b : BearerValue) × IsBearer m a b × IsToldBearer b bearer.new) }
    ensures status { result ≡ bearer_status tables.now holding }
    ensures unchanged { result ≢ status.done → bearer.new ≡ bearer.old }
{
    let Some(shown) = Tables::new(tables) else {
        return BAD_LENGTH;
    };
    if holding > 11 {
        return BAD_HOLDING;
    }
    *bearer = told_bearer(check_shown(&shown).bearer(holding_of(holding)));
    DONE
}

/// The answer that a cell is by itself.
fn answer_in(cell: Cell) -> Answer
    ensures { result ≡ answer_in_cell cell }
{
    match cell {
        Cell::Char(c) => Answer::Char { c, meta: false },
        Cell::Act(Action::BackTab) => Answer::BackTab,
        Cell::Act(action) => Answer::Special(action),
    }
}

/// The cell of a slot and column, by its number: `DONE`, or `BAD_LENGTH`, or `BAD_PLACE` for a slot above 255 or a
/// column above 7.
#[unsafe(no_mangle)]
pub extern "C" fn kmap_cell(tables: &[u8], slot: u32, column: u32, cell: &mut u32) -> i32
    ensures cell { result ≡ status.done → (m : MapValue) → IsMap m → tables.now ≡ image m
        → cell.new ≡ cell_number (cell_at m slot column) }
    ensures status { result ≡ cell_status tables.now slot column }
    ensures unchanged { result ≢ status.done → cell.new ≡ cell.old }
{
    let Some(shown) = Tables::new(tables) else {
        return BAD_LENGTH;
    };
    if slot as usize >= SLOT_LIMIT || column as usize >= COLUMN_COUNT {
        return BAD_PLACE;
    }
    *cell = answer_in(shown.cell(slot as u8, column as usize)).raw();
    DONE
}
