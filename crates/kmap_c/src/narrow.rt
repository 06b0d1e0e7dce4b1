//! Narrow tables: made of tables and turned back, checked, and stepped over.
ghost use Rattle.std.specs.Prelude.{◌≡◌, ◌≢◌, ◌↔◌, ℕ, ◌∷◌, [], List, length};
ghost use Rattle.keymap_core.specs.Bounds.{IsMap};
ghost use Rattle.keymap_core.specs.Maps.{MapValue};
ghost use Rattle.keymap_tables.specs.Faults.{IsNarrowFault};
ghost use Rattle.keymap_tables.specs.Files.{IsFileOf, IsNarrowFileOf};
ghost use Rattle.keymap_tables.specs.Fits.{Fits, IsFirstWide};
ghost use Rattle.keymap_tables.specs.Image.{image, narrow_image};
ghost use Rattle.keymap_tables.specs.Layouts.{narrow, wide, file_size};
ghost use Rattle.keymap_tables.specs.declared.fault.TableFault.{TableFault as TableFaultValue};
ghost use Rattle.keymap_tables.specs.declared.narrow.Wide.{Wide as WideValue};
ghost use Rattle.console_core.specs.History.{between, answer_to};
ghost use Rattle.console_core.specs.Packed.{KeptAt};
ghost use Rattle.console_core.specs.Raw.{raw_of};
ghost use Rattle.console_core.specs.declared.event.Event.{Event as EventValue};
ghost use Rattle.kmap_c.specs.Calls.{WasDelivered};
ghost use Rattle.kmap_c.specs.Narrow.{AreFaultyNarrow, AreNarrowOf, IsNarrowing, IsToldWide, IsWidening};
ghost use Rattle.kmap_c.specs.Narrow.{narrow_status_of};
ghost use Rattle.kmap_c.specs.Numbers.{event_of as event_of_number, kind_number};
ghost use Rattle.kmap_c.specs.Statuses as status;
ghost use Rattle.kmap_c.specs.Told.{AreFaulty};

use crate::console::{KmapConsole, LAST_EVENT, event_of};
use crate::status::{BAD_EVENT, BAD_LENGTH, DONE, FAULTY, TOO_WIDE};
use crate::tables::{KmapFault, number_of};
use console_core::step_kept;
use keymap_tables::laws::filled_files_are_whole;
use keymap_tables::{
    NarrowFile, NarrowTables, TableFile, Tables, Wide, check_narrow, check_tables, wide_in,
};

/// The place of a character that is too wide: a slot and a column, or an accent and the number of a character of it.
#[repr(C)]
#[derive(Clone, Copy, Drop)]
pub struct KmapWide {
    pub is_accent: u8,
    pub row: u8,
    pub number: u8,
}

/// What a caller in C is told of a place.
fn told_wide(wide: Wide) -> KmapWide
    ensures { IsToldWide wide result }
{
    match wide {
        Wide::Cell { slot, column } => KmapWide {
            is_accent: 0,
            row: slot,
            number: column,
        },
        Wide::Accent { accent, number } => KmapWide {
            is_accent: 1,
            row: accent,
            number,
        },
    }
}

/// Makes narrow tables of tables: `DONE`, `TOO_WIDE` and the place of the first character above 255, `BAD_LENGTH`, or
/// `FAULTY` for tables with a fault.
#[unsafe(no_mangle)]
pub extern "C" fn kmap_narrow(
    tables: &[u8],
    narrow_tables: &mut NarrowFile,
    place: &mut KmapWide,
) -> i32
    ensures made { result ≡ status.done → (m : MapValue) × (tables.now ≡ image m) × Fits m
        × IsNarrowFileOf m narrow_tables.new }
    ensures too_wide { result ≡ status.too_wide → (m : MapValue) × IsMap m × (tables.now ≡ image m)
        × ((w : WideValue) × IsFirstWide m w × IsToldWide w place.new) }
    ensures bad_length { (result ≡ status.bad_length) ↔ (length tables.now ≢ file_size wide) }
    ensures faulty { (result ≡ status.faulty) ↔ AreFaulty tables.now }
    ensures status { IsNarrowing result }
    ensures unmade { result ≢ status.done → narrow_tables.new ≡ narrow_tables.old }
    ensures unchanged { result ≢ status.too_wide → place.new ≡ place.old }
{
    let Some(shown) = Tables::new(tables) else {
        return BAD_LENGTH;
    };
    match check_tables(tables) {
        Ok(()) => {}
        Err(_) => return FAULTY,
    }
    match wide_in(&shown) {
        Some(found) => {
            *place = told_wide(found);
            TOO_WIDE
        }
        None => {
            filled_files_are_whole();
            narrow_tables.clear();
            shown.define_all(narrow_tables);
            DONE
        }
    }
}

/// Makes tables of narrow ones: `DONE`, `BAD_LENGTH`, or `FAULTY` for narrow tables with a fault.
#[unsafe(no_mangle)]
pub extern "C" fn kmap_widen(narrow_tables: &[u8], tables: &mut TableFile) -> i32
    ensures made { result ≡ status.done → (m : MapValue) × Fits m × (narrow_tables.now ≡ narrow_image m)
        × IsFileOf m tables.new }
    ensures bad_length { (result ≡ status.bad_length) ↔ (length narrow_tables.now ≢ file_size narrow) }
    ensures faulty { (result ≡ status.faulty) ↔ AreFaultyNarrow narrow_tables.now }
    ensures status { IsWidening result }
    ensures unmade { result ≢ status.done → tables.new ≡ tables.old }
{
    let Some(shown) = NarrowTables::new(narrow_tables) else {
        return BAD_LENGTH;
    };
    match check_narrow(narrow_tables) {
        Ok(()) => {}
        Err(_) => return FAULTY,
    }
    filled_files_are_whole();
    tables.clear();
    shown.define_all(tables);
    DONE
}

/// Checks narrow tables: `DONE` where they are those of a keymap, else `FAULTY` and the fault of least offset.
#[unsafe(no_mangle)]
pub extern "C" fn kmap_check_narrow(narrow_tables: &[u8], fault: &mut KmapFault) -> i32
    ensures good { result ≡ status.done → (m : MapValue) × IsMap m × Fits m
        × (narrow_tables.now ≡ narrow_image m) }
    ensures faulty { result ≢ status.done → (result ≡ status.faulty)
        × ((f : TableFaultValue) × IsNarrowFault narrow_tables.now f
        × (fault.new.offset ≡ f.offset) × (fault.new.kind ≡ kind_number f.kind)) }
    ensures unchanged { result ≡ status.done → fault.new ≡ fault.old }
{
    match check_narrow(narrow_tables) {
        Ok(()) => DONE,
        Err(found) => {
            fault.offset = found.offset;
            fault.kind = number_of(found.kind);
            FAULTY
        }
    }
}

/// Delivers an event to a console of one keymap, by its narrow tables.
#[unsafe(no_mangle)]
pub extern "C" fn kmap_step_narrow(
    narrow_tables: &[u8],
    console: &mut KmapConsole,
    event: u16,
    answer: &mut u32,
) -> i32
    ensures status { result ≡ narrow_status_of narrow_tables.now narrow_tables.now event }
    ensures unchanged { result ≢ status.done → (console.new ≡ console.old) × (answer.new ≡ answer.old) }
    ensures stands { (m : MapValue) (h : List EventValue) → IsMap m → Fits m → narrow_tables.now ≡ narrow_image m
        → KeptAt (between m m) h console.old.store → result ≡ status.done
        → KeptAt (between m m) (event_of_number event ∷ h) console.new.store }
    ensures answer { (m : MapValue) (h : List EventValue) → IsMap m → Fits m → narrow_tables.now ≡ narrow_image m
        → KeptAt (between m m) h console.old.store → result ≡ status.done
        → answer.new ≡ raw_of (answer_to (between m m) h (event_of_number event)) }
    // the event is delivered as over the tables of which the narrow ones are made
    ensures delivers { (tables numbers : List ℕ) → AreNarrowOf narrow_tables.now tables
        → WasDelivered tables tables numbers console.old.store → result ≡ status.done
        → WasDelivered tables tables (event ∷ numbers) console.new.store }
{
    let Some(shown) = NarrowTables::new(narrow_tables) else {
        return BAD_LENGTH;
    };
    if event > LAST_EVENT {
        return BAD_EVENT;
    }
    *answer = step_kept(&mut console.store, &shown, &shown, event_of(event)).raw();
    DONE
}

/// Delivers an event to a console between two keymaps, by their narrow tables.
#[unsafe(no_mangle)]
pub extern "C" fn kmap_step_between_narrow(
    first: &[u8],
    second: &[u8],
    console: &mut KmapConsole,
    event: u16,
    answer: &mut u32,
) -> i32
    ensures status { result ≡ narrow_status_of first.now second.now event }
    ensures unchanged { result ≢ status.done → (console.new ≡ console.old) × (answer.new ≡ answer.old) }
    ensures stands { (m n : MapValue) (h : List EventValue) → IsMap m → IsMap n → Fits m → Fits n
        → first.now ≡ narrow_image m → second.now ≡ narrow_image n → KeptAt (between m n) h console.old.store
        → result ≡ status.done → KeptAt (between m n) (event_of_number event ∷ h) console.new.store }
    ensures answer { (m n : MapValue) (h : List EventValue) → IsMap m → IsMap n → Fits m → Fits n
        → first.now ≡ narrow_image m → second.now ≡ narrow_image n → KeptAt (between m n) h console.old.store
        → result ≡ status.done → answer.new ≡ raw_of (answer_to (between m n) h (event_of_number event)) }
    // the event is delivered as between the tables of which the narrow ones are made
    ensures delivers { (tables others numbers : List ℕ) → AreNarrowOf first.now tables → AreNarrowOf second.now others
        → WasDelivered tables others numbers console.old.store → result ≡ status.done
        → WasDelivered tables others (event ∷ numbers) console.new.store }
{
    let Some(first) = NarrowTables::new(first) else {
        return BAD_LENGTH;
    };
    let Some(second) = NarrowTables::new(second) else {
        return BAD_LENGTH;
    };
    if event > LAST_EVENT {
        return BAD_EVENT;
    }
    *answer = step_kept(&mut console.store, &first, &second, event_of(event)).raw();
    DONE
}
