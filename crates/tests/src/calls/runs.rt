//! The calls of kmap_runs. Where memory is refused, nothing was written.
use crate::calls::devices::{Given, mark, reader_of, writer};
use crate::calls::inputs::{CHANGED, Call, LACKING, SENTENCE, TEXT, TRAP};
use crate::calls::outcome::{Outcome, ended, ended_untouched, is_text};
use keyboard_cover::{GROUP_COUNT, Keyboard};
use keymap_core::Write;
use keymap_draw::Board;
use keymap_fmt::Characters;
use kmap_runs::{
    RunError, WaysTold, check_brief_run, check_run, compile_narrow_run, compile_run, cover_run,
    diff_run, draw_change_run, draw_run, dump_narrow_run, dump_run, file_error_line, fmt_print_run,
    fmt_run, keyboard_cover_run, lint_run, missing_run, search_run, type_run, type_sheet_run,
    type_words_run,
};
use lint_formats::Format;
use std::alloc::Global;

/// Makes a call that reads texts. There is none where no such call has the name.
pub(crate) fn of_texts<W: Write>(call: &Call<'_>, marks: &mut W) -> Option<Outcome> {
    let alloc = call.alloc;
    let outcome = match call.name {
        "check_run" => checks(alloc, TEXT, false, marks),
        "check_run-shown" => checks(alloc, TRAP, true, marks),
        "check_brief_run" => checks_briefly(alloc, marks),
        "search_run" => searches(alloc, marks),
        "search_run-next" => searches_next(alloc, marks),
        "diff_run" => compares(alloc, marks),
        "draw_run" => draws(alloc, marks),
        "draw_change_run" => draws_change(alloc, marks),
        "lint_run" => lints(alloc, marks),
        "fmt_run" => formats(alloc, marks),
        "fmt_print_run" => prints_formatted(alloc, marks),
        "type_run" => types(alloc, marks),
        "type_words_run" => types_in_words(alloc, marks),
        "type_sheet_run" => types_all_in_words(alloc, marks),
        "missing_run" => tells_missing(alloc, marks),
        "cover_run" => covers(alloc, marks),
        "keyboard_cover_run" => covers_by_keyboard(alloc, marks),
        "file_error_line" => tells_of_a_file(alloc, marks),
        _ => return None,
    };
    Some(outcome)
}

/// Makes a call that reads or writes a table file. There is none where no such call has the name.
pub(crate) fn of_files<W: Write>(
    call: &Call<'_>,
    tables: &[u8],
    narrow: &[u8],
    marks: &mut W,
) -> Option<Outcome> {
    let alloc = call.alloc;
    match call.name {
        "dump_run" => Some(dumps(alloc, tables, marks)),
        "dump_narrow_run" => Some(dumps_narrowly(alloc, narrow, marks)),
        "compile_run" => Some(compiles(alloc, marks)),
        "compile_narrow_run" => Some(compiles_narrowly(alloc, marks)),
        _ => None,
    }
}

/// A demonstration is asked for where the map is refused.
fn checks<W: Write>(alloc: Global, text: &[u8], show: bool, marks: &mut W) -> Outcome {
    let (mut reader, mut out) = (reader_of(text), writer());
    mark(marks);
    let given = check_run(alloc, &mut reader, show, &mut out);
    mark(marks);
    ended_untouched(&given, given == Ok(!show), out.writes)
}

fn checks_briefly<W: Write>(alloc: Global, marks: &mut W) -> Outcome {
    let (mut reader, mut out) = (reader_of(TRAP), writer());
    mark(marks);
    let given = check_brief_run(alloc, b"trap", &mut reader, &mut out);
    mark(marks);
    ended_untouched(&given, given == Ok(false), out.writes)
}

fn searches<W: Write>(alloc: Global, marks: &mut W) -> Outcome {
    let (mut reader, mut out) = (reader_of(TRAP), writer());
    mark(marks);
    let given = search_run(alloc, &mut reader, &mut None::<Given<'_>>, &mut out);
    mark(marks);
    ended_untouched(&given, given == Ok(false), out.writes)
}

fn searches_next<W: Write>(alloc: Global, marks: &mut W) -> Outcome {
    let (mut reader, mut out) = (reader_of(TEXT), writer());
    let mut next = Some(reader_of(TRAP));
    mark(marks);
    let given = search_run(alloc, &mut reader, &mut next, &mut out);
    mark(marks);
    ended_untouched(&given, given == Ok(false), out.writes)
}

/// The keymaps differ.
fn compares<W: Write>(alloc: Global, marks: &mut W) -> Outcome {
    let (mut reader, mut next, mut out) = (reader_of(TEXT), reader_of(CHANGED), writer());
    mark(marks);
    let given = diff_run(alloc, &mut reader, &mut next, &mut out, false);
    mark(marks);
    ended_untouched(&given, given == Ok(false), out.writes)
}

fn dumps<W: Write>(alloc: Global, tables: &[u8], marks: &mut W) -> Outcome {
    let (mut reader, mut out) = (reader_of(tables), writer());
    mark(marks);
    let given = dump_run(alloc, &mut reader, &mut out);
    mark(marks);
    ended_untouched(&given, true, out.writes)
}

fn dumps_narrowly<W: Write>(alloc: Global, narrow: &[u8], marks: &mut W) -> Outcome {
    let (mut reader, mut out) = (reader_of(narrow), writer());
    mark(marks);
    let given = dump_narrow_run(alloc, &mut reader, &mut out);
    mark(marks);
    ended_untouched(&given, true, out.writes)
}

fn compiles<W: Write>(alloc: Global, marks: &mut W) -> Outcome {
    let (mut reader, mut out) = (reader_of(TEXT), writer());
    mark(marks);
    let given = compile_run(alloc, &mut reader, &mut out);
    mark(marks);
    ended_untouched(&given, true, out.writes)
}

fn compiles_narrowly<W: Write>(alloc: Global, marks: &mut W) -> Outcome {
    let (mut reader, mut out) = (reader_of(TEXT), writer());
    mark(marks);
    let given = compile_narrow_run(alloc, &mut reader, &mut out);
    mark(marks);
    ended_untouched(&given, true, out.writes)
}

fn draws<W: Write>(alloc: Global, marks: &mut W) -> Outcome {
    let (mut reader, mut out) = (reader_of(TEXT), writer());
    mark(marks);
    let given = draw_run(alloc, &mut reader, Board::Iso, b"name", &mut out);
    mark(marks);
    ended_untouched(&given, true, out.writes)
}

fn draws_change<W: Write>(alloc: Global, marks: &mut W) -> Outcome {
    let (mut reader, mut next, mut out) = (reader_of(TEXT), reader_of(CHANGED), writer());
    let (old, new): (&[u8], &[u8]) = (b"old", b"new");
    mark(marks);
    let given = draw_change_run(
        alloc,
        &mut reader,
        &mut next,
        Board::Iso,
        new,
        old,
        &mut out,
    );
    mark(marks);
    ended_untouched(&given, true, out.writes)
}

/// The trap has an error.
fn lints<W: Write>(alloc: Global, marks: &mut W) -> Outcome {
    let (mut reader, mut out) = (reader_of(TRAP), writer());
    mark(marks);
    let given = lint_run(alloc, Format::Text, false, b"trap", &mut reader, &mut out);
    mark(marks);
    let is_right = matches!(&given, Ok(found) if !found.is_well);
    ended_untouched(&given, is_right, out.writes)
}

fn formats<W: Write>(alloc: Global, marks: &mut W) -> Outcome {
    let mut reader = reader_of(TEXT);
    mark(marks);
    let given = fmt_run(alloc, &mut reader, Characters::Kept);
    mark(marks);
    ended(&given, matches!(&given, Ok(Some(_))))
}

fn prints_formatted<W: Write>(alloc: Global, marks: &mut W) -> Outcome {
    let (mut reader, mut out) = (reader_of(TEXT), writer());
    mark(marks);
    let given = fmt_print_run(alloc, &mut reader, Characters::Kept, &mut out);
    mark(marks);
    ended_untouched(&given, true, out.writes)
}

fn types<W: Write>(alloc: Global, marks: &mut W) -> Outcome {
    let (mut reader, mut out) = (reader_of(TEXT), writer());
    let mut sentence = reader_of(SENTENCE);
    mark(marks);
    let given = type_run(alloc, Board::Iso, &mut reader, &mut sentence, &mut out);
    mark(marks);
    ended_untouched(&given, true, out.writes)
}

fn types_in_words<W: Write>(alloc: Global, marks: &mut W) -> Outcome {
    let (mut reader, mut out) = (reader_of(TEXT), writer());
    let mut sentence = reader_of(SENTENCE);
    let told = WaysTold::ByEachKey;
    mark(marks);
    let given = type_words_run(
        alloc,
        Board::Iso,
        told,
        &mut reader,
        &mut sentence,
        &mut out,
    );
    mark(marks);
    ended_untouched(&given, matches!(&given, Ok(None)), out.writes)
}

fn types_all_in_words<W: Write>(alloc: Global, marks: &mut W) -> Outcome {
    let (mut reader, mut out) = (reader_of(TEXT), writer());
    mark(marks);
    let given = type_sheet_run(alloc, Board::Iso, WaysTold::Taken, &mut reader, &mut out);
    mark(marks);
    ended_untouched(&given, true, out.writes)
}

fn tells_missing<W: Write>(alloc: Global, marks: &mut W) -> Outcome {
    let (mut reader, mut out) = (reader_of(TEXT), writer());
    let mut sentence = reader_of(LACKING);
    mark(marks);
    let given = missing_run(alloc, b"s", &mut reader, &mut sentence, &mut out);
    mark(marks);
    ended_untouched(&given, given == Ok(false), out.writes)
}

fn covers<W: Write>(alloc: Global, marks: &mut W) -> Outcome {
    let (mut reader, mut out) = (reader_of(TEXT), writer());
    mark(marks);
    let given = cover_run(alloc, &mut reader, &mut out);
    mark(marks);
    ended_untouched(&given, true, out.writes)
}

fn covers_by_keyboard<W: Write>(alloc: Global, marks: &mut W) -> Outcome {
    let (mut reader, mut out) = (reader_of(TEXT), writer());
    let keyboard = Keyboard {
        board: Board::Iso,
        groups: [true; GROUP_COUNT],
    };
    mark(marks);
    let given = keyboard_cover_run(alloc, &keyboard, true, &mut reader, &mut out);
    mark(marks);
    ended_untouched(&given, true, out.writes)
}

fn tells_of_a_file<W: Write>(alloc: Global, marks: &mut W) -> Outcome {
    mark(marks);
    let given = file_error_line(alloc, b"a", &RunError::Memory.into());
    mark(marks);
    ended(&given, is_text(&given, b"kmap: a: out of memory\n"))
}
