//! The calls of keymap_core, keymap_text, keymap_places and keymap_tables.
use crate::calls::devices::{mark, reader_of};
use crate::calls::inputs::{Call, FAULTY, Lent, TEXT, script};
use crate::calls::outcome::{Outcome, ended, ended_keeping, ended_untouched, is_text};
use keymap_core::{KeyMap, Write, read_up_to};
use keymap_places::{TextLines, definitions};
use keymap_tables::{
    NARROW_FILE, WIDE_FILE, read_narrow, read_narrow_from, read_tables, read_tables_from,
};
use keymap_text::{MapReader, read_from, read_map};
use std::alloc::Global;

/// Makes a call on a keymap or a text. There is none where no such call has the name.
pub(crate) fn of_texts<W: Write>(call: &Call<'_>, marks: &mut W) -> Option<Outcome> {
    let alloc = call.alloc;
    let outcome = match call.name {
        "KeyMap::new" => new_map(alloc, marks),
        "KeyMap::try_clone" => copies_map(alloc, call.sample, marks),
        "read_up_to" => reads_up_to(alloc, marks),
        "read_map" => reads_map(alloc, TEXT, marks),
        "read_map-faulty" => reads_map(alloc, FAULTY, marks),
        "MapReader::new" => new_reader(alloc, marks),
        "read_from" => reads_from(alloc, TEXT, marks),
        "read_from-faulty" => reads_from(alloc, FAULTY, marks),
        "definitions" => places_definitions(alloc, marks),
        "TextLines::new" => finds_lines(alloc, marks),
        _ => return None,
    };
    Some(outcome)
}

/// Makes a call on table files. There is none where no such call has the name.
pub(crate) fn of_files<W: Write>(
    call: &Call<'_>,
    tables: &[u8],
    narrow: &[u8],
    marks: &mut W,
) -> Option<Outcome> {
    let alloc = call.alloc;
    let outcome = match call.name {
        "read_tables" => reads_tables(alloc, tables, marks),
        "read_tables-faulty" => reads_tables(alloc, &[0xff; WIDE_FILE], marks),
        "read_tables-short" => reads_tables(alloc, TEXT, marks),
        "read_tables-long" => reads_tables(alloc, &[0; WIDE_FILE + 1], marks),
        "read_tables_from" => reads_tables_from(alloc, tables, marks),
        "read_narrow" => reads_narrow(alloc, narrow, marks),
        "read_narrow-faulty" => reads_narrow(alloc, &[0xff; NARROW_FILE], marks),
        "read_narrow-long" => reads_narrow(alloc, &[0; NARROW_FILE + 1], marks),
        "read_narrow_from" => reads_narrow_from(alloc, narrow, marks),
        _ => return None,
    };
    Some(outcome)
}

/// Whether a call gave the keymap of the sample, by its greatest slot.
fn is_sample<E>(given: &Result<KeyMap, E>) -> bool {
    matches!(given, Ok(map) if map.n_keys() == 59)
}

fn new_map<W: Write>(alloc: Global, marks: &mut W) -> Outcome {
    mark(marks);
    let given = KeyMap::new(alloc);
    mark(marks);
    ended(&given, matches!(&given, Ok(map) if map.n_keys() == 0))
}

fn copies_map<W: Write>(alloc: Global, lent: &Lent, marks: &mut W) -> Outcome {
    mark(marks);
    let given = lent.map.try_clone(alloc);
    mark(marks);
    let is_right = matches!(&given, Ok(copy) if *copy == lent.map);
    ended_keeping(&given, is_right, lent.is_kept())
}

fn reads_up_to<W: Write>(alloc: Global, marks: &mut W) -> Outcome {
    let script = script();
    let mut reader = reader_of(&script);
    mark(marks);
    let given = read_up_to(alloc, &mut reader, 8000);
    mark(marks);
    ended(&given, is_text(&given, &script))
}

fn reads_map<W: Write>(alloc: Global, text: &[u8], marks: &mut W) -> Outcome {
    mark(marks);
    let given = read_map(alloc, text);
    mark(marks);
    ended(&given, is_sample(&given))
}

fn new_reader<W: Write>(alloc: Global, marks: &mut W) -> Outcome {
    mark(marks);
    let given = MapReader::new(alloc);
    mark(marks);
    ended(&given, matches!(&given, Ok(reader) if reader.fed() == 0))
}

/// Where memory is refused, nothing was read.
fn reads_from<W: Write>(alloc: Global, text: &[u8], marks: &mut W) -> Outcome {
    let mut reader = reader_of(text);
    mark(marks);
    let given = read_from(alloc, &mut reader);
    mark(marks);
    ended_untouched(&given, is_sample(&given), reader.reads)
}

fn places_definitions<W: Write>(alloc: Global, marks: &mut W) -> Outcome {
    mark(marks);
    let given = definitions(alloc, TEXT);
    mark(marks);
    let is_right = matches!(&given, Ok(placed) if placed.definitions.len() == 7);
    ended(&given, is_right)
}

fn finds_lines<W: Write>(alloc: Global, marks: &mut W) -> Outcome {
    mark(marks);
    let given = TextLines::new(alloc, TEXT);
    mark(marks);
    let is_right = matches!(&given, Ok(lines) if lines.text().len() == TEXT.len());
    ended(&given, is_right)
}

fn reads_tables<W: Write>(alloc: Global, bytes: &[u8], marks: &mut W) -> Outcome {
    mark(marks);
    let given = read_tables(alloc, bytes);
    mark(marks);
    ended(&given, is_sample(&given))
}

fn reads_tables_from<W: Write>(alloc: Global, bytes: &[u8], marks: &mut W) -> Outcome {
    let mut reader = reader_of(bytes);
    mark(marks);
    let given = read_tables_from(alloc, &mut reader);
    mark(marks);
    ended(&given, is_sample(&given))
}

fn reads_narrow<W: Write>(alloc: Global, bytes: &[u8], marks: &mut W) -> Outcome {
    mark(marks);
    let given = read_narrow(alloc, bytes);
    mark(marks);
    ended(&given, is_sample(&given))
}

fn reads_narrow_from<W: Write>(alloc: Global, bytes: &[u8], marks: &mut W) -> Outcome {
    let mut reader = reader_of(bytes);
    mark(marks);
    let given = read_narrow_from(alloc, &mut reader);
    mark(marks);
    ended(&given, is_sample(&given))
}
