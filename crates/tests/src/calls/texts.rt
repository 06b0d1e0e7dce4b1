//! The calls of keymap_lint, keymap_lint_text, lint_formats, keymap_fmt, keymap_draw and messages, those of play_core,
//! `in_form` and `type_sentence`.
use crate::calls::devices::{mark, reader_of, writer};
use crate::calls::inputs::{Call, FAULTY, Lent, SENTENCE, TEXT, TRAP, script};
use crate::calls::outcome::{Outcome, ended, ended_keeping, ended_untouched, is_text};
use keymap_check::check;
use keymap_core::Write;
use keymap_draw::{About, Before, Board, ChangeLine, picture, picture_of_change};
use keymap_fmt::{Characters, format};
use keymap_lint::{Lint, diagnostics};
use keymap_lint_text::{push_remark, remarks, remarks_text};
use keymap_places::TextLines;
use kmap_runs::type_sentence;
use lint_formats::{Format, end, rows};
use messages::filled;
use play_core::{Show, play, play_next, read_script, read_whole};
use script_forms::{Form, in_form};
use std::alloc::{AllocError, Global};

/// Makes a call on a text or a script. There is none where no such call has the name.
pub(crate) fn of_scripts<W: Write>(call: &Call<'_>, marks: &mut W) -> Option<Outcome> {
    let alloc = call.alloc;
    let outcome = match call.name {
        "format" => formats(alloc, marks),
        "filled" => fills(alloc, marks),
        "read_script" => reads_script(alloc, marks),
        "read_whole" => reads_whole(alloc, marks),
        "in_form" => puts_in_form(alloc, marks),
        "play-lines" => plays(alloc, Show::Lines, marks),
        "play-typed" => plays(alloc, Show::Typed, marks),
        "play_next-lines" => plays_next(alloc, Show::Lines, marks),
        "play_next-typed" => plays_next(alloc, Show::Typed, marks),
        "type_sentence" => types_sentence(alloc, call.sample, marks),
        _ => return None,
    };
    Some(outcome)
}

/// Makes a call on diagnostics, or one that draws. There is none where no such call has the name.
pub(crate) fn of_trap<W: Write>(
    call: &Call<'_>,
    marks: &mut W,
) -> Result<Option<Outcome>, AllocError> {
    let alloc = call.alloc;
    Ok(match call.name {
        "diagnostics" => Some(diagnoses(alloc, TRAP, marks)),
        "diagnostics-faulty" => Some(diagnoses(alloc, FAULTY, marks)),
        "remarks" => Some(tells_diagnostics(alloc, marks)?),
        "remarks_text" => Some(prints_remarks(alloc, marks)?),
        "push_remark" => Some(prints_one(alloc, marks)?),
        "rows-text" => Some(prints_rows(alloc, Format::Text, b"trap:", marks)?),
        "rows-coloured" => Some(prints_rows(alloc, Format::Coloured, b"\x1b", marks)?),
        "rows-github" => Some(prints_rows(alloc, Format::Github, b"::", marks)?),
        "rows-json" => Some(prints_rows(alloc, Format::Json, b"\n{", marks)?),
        "rows-sarif" => Some(prints_rows(alloc, Format::Sarif, b"\n{", marks)?),
        "end-sarif" => Some(ends_log(alloc, marks)),
        "picture" => Some(draws(alloc, call.trap, marks)),
        "picture_of_change" => Some(draws_change(alloc, call.trap, marks)),
        "ChangeLine::new" => Some(makes_line(alloc, marks)),
        _ => None,
    })
}

fn diagnoses<W: Write>(alloc: Global, text: &[u8], marks: &mut W) -> Outcome {
    mark(marks);
    let given = diagnostics(alloc, text);
    mark(marks);
    ended(&given, matches!(&given, Ok(Lint::Spelled(_))))
}

fn tells_diagnostics<W: Write>(alloc: Global, marks: &mut W) -> Result<Outcome, AllocError> {
    let lint = diagnostics(alloc, TRAP)?;
    mark(marks);
    let given = remarks(alloc, TRAP, &lint);
    mark(marks);
    let is_right = matches!(&given, Ok(told) if !told.is_empty());
    Ok(ended(&given, is_right))
}

fn prints_remarks<W: Write>(alloc: Global, marks: &mut W) -> Result<Outcome, AllocError> {
    let lint = diagnostics(alloc, TRAP)?;
    let told = remarks(alloc, TRAP, &lint)?;
    mark(marks);
    let given = remarks_text(alloc, b"trap", TRAP, told.as_slice());
    mark(marks);
    let is_right = matches!(&given, Ok(text) if text.as_slice().starts_with(b"trap:"));
    Ok(ended(&given, is_right))
}

fn prints_one<W: Write>(alloc: Global, marks: &mut W) -> Result<Outcome, AllocError> {
    let lint = diagnostics(alloc, TRAP)?;
    let told = remarks(alloc, TRAP, &lint)?;
    let lines = TextLines::new(alloc, TRAP)?;
    let mut text = Vec::new(alloc);
    let Some(first) = told.as_slice().first() else {
        return Err(AllocError);
    };
    mark(marks);
    let given = push_remark(alloc, &mut text, b"trap", &lines, first);
    mark(marks);
    Ok(ended(&given, text.as_slice().starts_with(b"trap:")))
}

fn prints_rows<W: Write>(
    alloc: Global,
    format: Format,
    front: &[u8],
    marks: &mut W,
) -> Result<Outcome, AllocError> {
    let lint = diagnostics(alloc, TRAP)?;
    let told = remarks(alloc, TRAP, &lint)?;
    mark(marks);
    let given = rows(alloc, format, false, b"trap", TRAP, told.as_slice());
    mark(marks);
    let is_right = matches!(&given, Ok(text) if text.as_slice().starts_with(front));
    Ok(ended(&given, is_right))
}

fn ends_log<W: Write>(alloc: Global, marks: &mut W) -> Outcome {
    mark(marks);
    let given = end(alloc, Format::Sarif, "1");
    mark(marks);
    let is_right = matches!(&given, Ok(text) if text.as_slice().starts_with(b"\n]"));
    ended(&given, is_right)
}

fn formats<W: Write>(alloc: Global, marks: &mut W) -> Outcome {
    mark(marks);
    let given = format(alloc, TEXT, Characters::Kept);
    mark(marks);
    ended(&given, matches!(&given, Ok(laid) if !laid.is_empty()))
}

fn draws<W: Write>(alloc: Global, lent: &Lent, marks: &mut W) -> Outcome {
    let report = check(&lent.map);
    mark(marks);
    let given = picture(alloc, &lent.map, &report, Board::Iso, b"name");
    mark(marks);
    let is_right = matches!(&given, Ok(drawn) if !drawn.is_empty());
    ended_keeping(&given, is_right, lent.is_kept())
}

fn draws_change<W: Write>(alloc: Global, lent: &Lent, marks: &mut W) -> Outcome {
    let report = check(&lent.map);
    let before = Before {
        map: &lent.map,
        name: b"old",
        lines: &[],
    };
    mark(marks);
    let given = picture_of_change(alloc, &lent.map, &report, Board::Iso, b"name", &before);
    mark(marks);
    let is_right = matches!(&given, Ok(drawn) if !drawn.is_empty());
    ended_keeping(&given, is_right, lent.is_kept())
}

fn makes_line<W: Write>(alloc: Global, marks: &mut W) -> Outcome {
    mark(marks);
    let given = ChangeLine::new(alloc, About::Whole, b"words");
    mark(marks);
    ended(&given, given.is_ok())
}

fn fills<W: Write>(alloc: Global, marks: &mut W) -> Outcome {
    mark(marks);
    let given = filled(alloc, b"a {}", &[b"key"]);
    mark(marks);
    ended(&given, is_text(&given, b"a key"))
}

fn reads_script<W: Write>(alloc: Global, marks: &mut W) -> Outcome {
    let script = script();
    mark(marks);
    let given = read_script(alloc, &script);
    mark(marks);
    ended(&given, matches!(&given, Ok(sent) if sent.len() == 1000))
}

fn reads_whole<W: Write>(alloc: Global, marks: &mut W) -> Outcome {
    let script = script();
    let mut reader = reader_of(&script);
    mark(marks);
    let given = read_whole(alloc, &mut reader);
    mark(marks);
    ended(&given, is_text(&given, &script))
}

fn puts_in_form<W: Write>(alloc: Global, marks: &mut W) -> Outcome {
    mark(marks);
    let given = in_form(alloc, Form::X11, b"# a\ndown 30\nup 30\n");
    mark(marks);
    ended(&given, is_text(&given, b"# a\nkeydown 38\nkeyup 38\n"))
}

/// Where memory is refused, nothing was written.
fn plays<W: Write>(alloc: Global, show: Show, marks: &mut W) -> Outcome {
    let script = script();
    let mut text = reader_of(TEXT);
    let mut events = reader_of(&script);
    let mut out = writer();
    mark(marks);
    let given = play(alloc, show, &mut text, &mut events, &mut out);
    mark(marks);
    ended_untouched(&given, true, out.writes)
}

fn plays_next<W: Write>(alloc: Global, show: Show, marks: &mut W) -> Outcome {
    let script = script();
    let mut text = reader_of(TEXT);
    let mut next = reader_of(TEXT);
    let mut events = reader_of(&script);
    let mut out = writer();
    mark(marks);
    let given = play_next(alloc, show, &mut text, &mut next, &mut events, &mut out);
    mark(marks);
    ended_untouched(&given, true, out.writes)
}

fn types_sentence<W: Write>(alloc: Global, lent: &Lent, marks: &mut W) -> Outcome {
    mark(marks);
    let given = type_sentence(alloc, &lent.map, Board::Iso, SENTENCE);
    mark(marks);
    let is_right = matches!(&given, Ok(typing) if typing.keyed.len() == 16);
    ended_keeping(&given, is_right, lent.is_kept())
}
