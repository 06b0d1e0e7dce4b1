//! Keymap texts: read into tables, and printed from them.
ghost use Rattle.std.specs.Prelude.{◌≡◌, ◌≢◌, ◌↔◌, ◌<◌, ◌++◌, length, drop};
ghost use Rattle.keymap_core.specs.Bounds.{IsMap};
ghost use Rattle.keymap_core.specs.Maps.{MapValue};
ghost use Rattle.keymap_tables.specs.Image.{image};
ghost use Rattle.keymap_tables.specs.Layouts.{wide, file_size};
ghost use Rattle.keymap_text.specs.Printed.{printed};
ghost use Rattle.keymap_tables.specs.Files.{IsFileOf, bytes_of};
ghost use Rattle.keymap_text.specs.Meaning.{Spells, Fault};
ghost use Rattle.keymap_text.specs.declared.fault.TextFault.{TextFault as TextFaultValue};
ghost use Rattle.kmap_c.specs.TextFaults.{IsToldFault, text_kind_number};
ghost use Rattle.kmap_c.specs.Told.{IsPrintStatus, AreFaulty};
ghost use Rattle.kmap_c.specs.Statuses as status;

use crate::print::print_tables;
use crate::status::{BAD_LENGTH, DONE, FAULTY, NO_ROOM, TEXT_FAULT};
use keymap_tables::laws::filled_files_are_whole;
use keymap_tables::{TableFile, Tables, Unkept, check_tables};
use keymap_text::{TextFaultKind, read_into};

/// A fault of a text: at so many bytes from its start, in this line, counted from 1, and what stands there.
#[repr(C)]
#[derive(Clone, Copy, Drop)]
pub struct KmapTextFault {
    pub offset: u64,
    pub line: u64,
    pub kind: u32,
}

/// The number of a kind of fault of a text.
fn text_number_of(kind: TextFaultKind) -> u32
    ensures { result ≡ text_kind_number kind }
{
    match kind {
        TextFaultKind::BadByte => 1,
        TextFaultKind::BadLiteral => 2,
        TextFaultKind::BadWord => 3,
        TextFaultKind::Unexpected => 4,
        TextFaultKind::KeyTooLarge => 5,
        TextFaultKind::BadChar => 6,
        TextFaultKind::BadFunction => 7,
        TextFaultKind::TooManyPairs => 8,
        TextFaultKind::ZeroBase => 9,
        TextFaultKind::Combined => 10,
        TextFaultKind::EndInside => 11,
    }
}

/// Puts the tables of a text without a fault in place.
fn put_tables(text: &[u8], tables: &mut TableFile)
    requires { (m : MapValue) × Spells text.now m }
    ensures { (m : MapValue) × Spells text.now m × IsFileOf m tables.new }
{
    filled_files_are_whole();
    tables.clear();
    match read_into(text, tables) {
        Ok(()) => {}
        Err(_) => {}
    }
}

/// Reads a keymap text into tables, which are made in place once a first reading found no fault: `DONE` where it spells
/// a keymap, else `TEXT_FAULT` and the fault.
#[unsafe(no_mangle)]
pub extern "C" fn kmap_read_text(
    text: &[u8],
    tables: &mut TableFile,
    fault: &mut KmapTextFault,
) -> i32
    ensures read { result ≡ status.done
        → (m : MapValue) × Spells text.now m × IsMap m × (bytes_of tables.new ≡ image m) }
    ensures faulty { result ≢ status.done → (result ≡ status.text_fault)
        × ((f : TextFaultValue) × Fault text.now f × IsToldFault f fault.new) }
    ensures unread { result ≢ status.done → tables.new ≡ tables.old }
    ensures unchanged { result ≡ status.done → fault.new ≡ fault.old }
{
    let mut unkept = Unkept;
    match read_into(text, &mut unkept) {
        Ok(()) => {
            put_tables(text, tables);
            DONE
        }
        Err(found) => {
            *fault = KmapTextFault {
                offset: found.offset,
                line: found.line,
                kind: text_number_of(found.kind),
            };
            TEXT_FAULT
        }
    }
}

/// Prints the keymap of tables as a text into a buffer: `DONE` where there is room for it, else `NO_ROOM`, and `size`
/// is how many bytes it has; `BAD_LENGTH`, or `FAULTY` for tables with a fault.
#[unsafe(no_mangle)]
pub extern "C" fn kmap_print_text(tables: &[u8], text: &mut [u8], size: &mut usize) -> i32
    ensures printed { result ≡ status.done → (m : MapValue) × IsMap m × (tables.now ≡ image m)
        × (size.new ≡ length (printed m)) × (text.new ≡ printed m ++ drop (length (printed m)) text.old) }
    ensures no_room { result ≡ status.no_room → (m : MapValue) × IsMap m × (tables.now ≡ image m)
        × (size.new ≡ length (printed m)) × (length text.old < length (printed m)) }
    ensures bad_length { (result ≡ status.bad_length) ↔ (length tables.now ≢ file_size wide) }
    ensures faulty { (result ≡ status.faulty) ↔ AreFaulty tables.now }
    ensures status { IsPrintStatus result }
    ensures unprinted { result ≢ status.done → text.new ≡ text.old }
    ensures size_if_faulty { result ≡ status.faulty → size.new ≡ size.old }
    ensures size_if_not_whole { result ≡ status.bad_length → size.new ≡ size.old }
{
    let Some(shown) = Tables::new(tables) else {
        return BAD_LENGTH;
    };
    match check_tables(tables) {
        Ok(()) => {}
        Err(_) => return FAULTY,
    }
    let needed = print_tables(&shown, &mut []);
    *size = needed;
    if text.len() < needed {
        return NO_ROOM;
    }
    print_tables(&shown, text);
    DONE
}
