//! The calls of keymap_names and script_text.
use crate::calls::devices::mark;
use crate::calls::inputs::{Call, Lent};
use crate::calls::outcome::{Outcome, ended, ended_keeping, is_text};
use keyboard::Board;
use keyboard_cover::{GROUP_COUNT, Keyboard, keyboard_cover_of, presses_of};
use keymap_consequences::consequences_of;
use keymap_core::Write;
use keymap_cover::cover_of;
use keymap_diff::{differences, telling_apart};
use keymap_names::{accents, all_chars, first_shown, ranges, shown_name, word};
use script_text::{
    brief_text, change_lines, consequence_lines, cover_text, diff_text, keyboard_text, same_text,
    verdict_words,
};
use std::alloc::{AllocError, Global};

/// Makes a call that names something. There is none where no such call has the name.
pub(crate) fn of_names<W: Write>(call: &Call<'_>, marks: &mut W) -> Option<Outcome> {
    let alloc = call.alloc;
    let outcome = match call.name {
        "ranges" => tells_ranges(alloc, marks),
        "accents" => tells_accents(alloc, marks),
        "shown_name" => shows_name(alloc, marks),
        "word" => shows_word(alloc, marks),
        "first_shown" => shows_first(alloc, marks),
        "all_chars" => shows_all(alloc, marks),
        "same_text" => tells_same(alloc, marks),
        _ => return None,
    };
    Some(outcome)
}

/// Makes a call that prints a script. There is none where no such call has the name.
pub(crate) fn of_printing<W: Write>(
    call: &Call<'_>,
    marks: &mut W,
) -> Result<Option<Outcome>, AllocError> {
    match call.name {
        "cover_text" => prints_cover(call.alloc, call.sample, marks),
        "keyboard_text" => prints_by_keyboard(call.alloc, call.sample, marks),
        "diff_text" => prints_differences(call.alloc, call.trap, call.sample, marks),
        "brief_text" => prints_in_brief(call.alloc, call.trap, call.sample, marks),
        "verdict_words" => tells_verdict(call.alloc, call.trap, call.sample, marks),
        "consequence_lines" => tells_lines(call.alloc, call.trap, call.sample, marks),
        "change_lines" => tells_changes(call.alloc, call.trap, call.sample, marks),
        _ => Ok(None),
    }
}

fn tells_ranges<W: Write>(alloc: Global, marks: &mut W) -> Outcome {
    mark(marks);
    let given = ranges(alloc, &[2, 3, 4, 30]);
    mark(marks);
    ended(&given, is_text(&given, b"2 to 4, 30"))
}

fn tells_accents<W: Write>(alloc: Global, marks: &mut W) -> Outcome {
    mark(marks);
    let given = accents(alloc, &[0, 1, 2]);
    mark(marks);
    ended(&given, is_text(&given, b"dgra, dacu or dcir"))
}

fn shows_name<W: Write>(alloc: Global, marks: &mut W) -> Outcome {
    mark(marks);
    let given = shown_name(alloc, b"a\x1b");
    mark(marks);
    ended(&given, is_text(&given, b"a\xef\xbf\xbd"))
}

fn shows_word<W: Write>(alloc: Global, marks: &mut W) -> Outcome {
    mark(marks);
    let given = word(alloc, b"lshfit");
    mark(marks);
    ended(&given, is_text(&given, b"lshfit"))
}

fn shows_first<W: Write>(alloc: Global, marks: &mut W) -> Outcome {
    mark(marks);
    let given = first_shown(alloc, b"ab", 1);
    mark(marks);
    ended(&given, is_text(&given, b"a"))
}

fn shows_all<W: Write>(alloc: Global, marks: &mut W) -> Outcome {
    mark(marks);
    let given = all_chars(alloc, b"ab");
    mark(marks);
    ended(&given, matches!(&given, Ok(shown) if shown.len() == 2))
}

fn tells_same<W: Write>(alloc: Global, marks: &mut W) -> Outcome {
    mark(marks);
    let given = same_text(alloc);
    mark(marks);
    ended(&given, is_text(&given, b"# same\n"))
}

fn prints_cover<W: Write>(
    alloc: Global,
    lent: &Lent,
    marks: &mut W,
) -> Result<Option<Outcome>, AllocError> {
    let Some(cover) = cover_of(alloc, &lent.map)? else {
        return Ok(None);
    };
    mark(marks);
    let given = cover_text(alloc, &lent.map, &cover);
    mark(marks);
    let is_right = matches!(&given, Ok(text) if text.as_slice().starts_with(b"# "));
    Ok(Some(ended_keeping(&given, is_right, lent.is_kept())))
}

fn prints_by_keyboard<W: Write>(
    alloc: Global,
    lent: &Lent,
    marks: &mut W,
) -> Result<Option<Outcome>, AllocError> {
    let keyboard = Keyboard {
        board: Board::Ansi,
        groups: [false; GROUP_COUNT],
    };
    let Some(cover) = keyboard_cover_of(alloc, &lent.map, &presses_of(&keyboard))? else {
        return Ok(None);
    };
    mark(marks);
    let given = keyboard_text(alloc, &lent.map, &keyboard, &cover, false);
    mark(marks);
    let is_right = matches!(&given, Ok(text) if text.as_slice().starts_with(b"# keyboard: 104"));
    Ok(Some(ended_keeping(&given, is_right, lent.is_kept())))
}

fn prints_in_brief<W: Write>(
    alloc: Global,
    lent: &Lent,
    next: &Lent,
    marks: &mut W,
) -> Result<Option<Outcome>, AllocError> {
    let telling = telling_apart(alloc, &lent.map, &next.map)?;
    let of = consequences_of(alloc, &lent.map, &next.map)?;
    let found = differences(alloc, &lent.map, &next.map)?;
    mark(marks);
    let given = brief_text(alloc, &telling, &of, found.as_slice());
    mark(marks);
    let is_right = matches!(&given, Ok(text) if text.as_slice().starts_with(b"# told apart: "));
    Ok(Some(ended_keeping(&given, is_right, lent.is_kept())))
}

fn prints_differences<W: Write>(
    alloc: Global,
    lent: &Lent,
    next: &Lent,
    marks: &mut W,
) -> Result<Option<Outcome>, AllocError> {
    let telling = telling_apart(alloc, &lent.map, &next.map)?;
    let of = consequences_of(alloc, &lent.map, &next.map)?;
    let found = differences(alloc, &lent.map, &next.map)?;
    mark(marks);
    let given = diff_text(alloc, &telling, &of, found.as_slice());
    mark(marks);
    let is_right = matches!(&given, Ok(text) if text.as_slice().starts_with(b"# told apart: "));
    Ok(Some(ended_keeping(&given, is_right, lent.is_kept())))
}

fn tells_verdict<W: Write>(
    alloc: Global,
    lent: &Lent,
    next: &Lent,
    marks: &mut W,
) -> Result<Option<Outcome>, AllocError> {
    let telling = telling_apart(alloc, &lent.map, &next.map)?;
    mark(marks);
    let given = verdict_words(alloc, &telling);
    mark(marks);
    let is_right = matches!(&given, Ok(text) if text.as_slice().starts_with(b"told apart: "));
    Ok(Some(ended_keeping(&given, is_right, lent.is_kept())))
}

fn tells_lines<W: Write>(
    alloc: Global,
    lent: &Lent,
    next: &Lent,
    marks: &mut W,
) -> Result<Option<Outcome>, AllocError> {
    let of = consequences_of(alloc, &lent.map, &next.map)?;
    mark(marks);
    let given = consequence_lines(alloc, &of);
    mark(marks);
    let is_right = matches!(&given, Ok(lines) if !lines.is_empty());
    Ok(Some(ended_keeping(&given, is_right, lent.is_kept())))
}

fn tells_changes<W: Write>(
    alloc: Global,
    lent: &Lent,
    next: &Lent,
    marks: &mut W,
) -> Result<Option<Outcome>, AllocError> {
    let found = differences(alloc, &lent.map, &next.map)?;
    mark(marks);
    let given = change_lines(alloc, found.as_slice());
    mark(marks);
    let is_right = matches!(&given, Ok(lines) if !lines.is_empty());
    Ok(Some(ended_keeping(&given, is_right, lent.is_kept())))
}
