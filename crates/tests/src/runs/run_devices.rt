//! The runs of the program over inputs that fail in mid-stream or have no end: nothing is written then.

use crate::asserts::{expect_at, expect_equal_at};
use crate::support::devices::{Sheet, Tape, endless_tape_of, sheet_of, tape_of};
use crate::support::keymaps::LETTER_AND_SHIFT;
use keymap_core::{Read, ReadFault, ReadFaultKind};
use keymap_draw::Board;
use keymap_fmt::Characters;
use keymap_tables::{TableFault, TableFaultKind};
use kmap_runs::{
    CommandError, RunError, check_run, compile_narrow_run, compile_run, draw_run, dump_narrow_run,
    dump_run, fmt_print_run, lint_run, search_run, type_run,
};
use lint_formats::Format;
use std::alloc::Global;
use std::mem::replace;

/// A run; the check without and with its demonstration.
#[derive(Clone, Copy, Debug, PartialEq)]
pub(crate) enum Run {
    Check,
    Show,
    Search,
    SearchNext,
    Type,
    Dump,
    DumpNarrow,
    Compile,
    CompileNarrow,
    Draw,
    Lint,
    Layout,
}

/// What a run answers of its first input and, where it has one, its second; true where it tells nothing else.
pub(crate) fn perform(
    what: Run,
    alloc: Global,
    first: &mut Tape<'_>,
    second: &mut Tape<'_>,
    writer: &mut Sheet,
) -> Result<bool, CommandError> {
    match what {
        Run::Check => of_run(check_run(alloc, first, false, writer)),
        Run::Show => of_run(check_run(alloc, first, true, writer)),
        Run::Search => of_run(search_run(alloc, first, &mut None::<Tape<'_>>, writer)),
        Run::SearchNext => of_run(search_between(alloc, first, second, writer)),
        Run::Type => type_run(alloc, Board::Iso, first, second, writer).and(Ok(true)),
        Run::Dump => of_run(dump_run(alloc, first, writer).and(Ok(true))),
        Run::DumpNarrow => of_run(dump_narrow_run(alloc, first, writer).and(Ok(true))),
        Run::Compile => of_run(compile_run(alloc, first, writer).and(Ok(true))),
        Run::CompileNarrow => of_run(compile_narrow_run(alloc, first, writer).and(Ok(true))),
        Run::Draw => of_run(draw_run(alloc, first, Board::Iso, b"", writer).and(Ok(true))),
        Run::Lint => {
            let found = lint_run(alloc, Format::Text, false, b"t", first, writer)?;
            Ok(found.is_well)
        }
        Run::Layout => fmt_print_run(alloc, first, Characters::Kept, writer).and(Ok(true)),
    }
}

fn of_run(answer: Result<bool, RunError>) -> Result<bool, CommandError> {
    Ok(answer?)
}

fn search_between(
    alloc: Global,
    first: &mut Tape<'_>,
    second: &mut Tape<'_>,
    writer: &mut Sheet,
) -> Result<bool, RunError> {
    let mut next = Some(replace(second, tape_of(b"", 0, 1, 0)));
    let answer = search_run(alloc, first, &mut next, writer);
    if let Some(next) = next {
        *second = next;
    }
    answer
}

/// The fault of a reader that gives more than the limit of a text or a sentence.
const ENDLESS: ReadFault = ReadFault {
    offset: 1_048_576,
    kind: ReadFaultKind::Endless,
};

/// An input of a run.
#[derive(Clone, Copy, Debug, PartialEq)]
enum Input {
    Text,
    Next,
    Sentence,
    Tables,
}

fn read_error(input: Input, fault: ReadFault) -> CommandError {
    match input {
        Input::Text => RunError::ReadText(fault).into(),
        Input::Next => RunError::ReadNext(fault).into(),
        Input::Sentence => CommandError::ReadSentence(fault),
        Input::Tables => RunError::ReadTables(fault).into(),
    }
}

/// What a run reads of an input: whether that is its first one, bytes and then blanks, and how many come before it
/// fails.
type Reading = (Run, Input, bool, &'static [u8], usize);

static READINGS: [Reading; 13] = [
    (Run::Check, Input::Text, true, LETTER_AND_SHIFT, 50),
    (Run::Search, Input::Text, true, LETTER_AND_SHIFT, 50),
    (Run::SearchNext, Input::Text, true, LETTER_AND_SHIFT, 50),
    (Run::SearchNext, Input::Next, false, LETTER_AND_SHIFT, 50),
    (Run::Type, Input::Text, true, LETTER_AND_SHIFT, 50),
    (Run::Type, Input::Sentence, false, b"aAa", 2),
    (Run::Dump, Input::Tables, true, b"", 9_000),
    (Run::DumpNarrow, Input::Tables, true, b"", 4_139),
    (Run::Compile, Input::Text, true, LETTER_AND_SHIFT, 50),
    (Run::CompileNarrow, Input::Text, true, LETTER_AND_SHIFT, 50),
    (Run::Draw, Input::Text, true, LETTER_AND_SHIFT, 50),
    (Run::Lint, Input::Text, true, LETTER_AND_SHIFT, 50),
    (Run::Layout, Input::Text, true, LETTER_AND_SHIFT, 50),
];

/// What is read after the input that fails is not asked.
#[test]
fn an_input_that_fails_is_named(rt: HostRuntime) {
    for &(what, input, is_first, bytes, most) in &READINGS {
        let mut failing = tape_of(bytes, most, 4096, most);
        let mut other = tape_of(LETTER_AND_SHIFT, 100, 64, usize::MAX);
        let mut writer = sheet_of(usize::MAX);
        let answer = if is_first {
            perform(what, rt.alloc(), &mut failing, &mut other, &mut writer)
        } else {
            perform(what, rt.alloc(), &mut other, &mut failing, &mut writer)
        };
        let fault = ReadFault {
            offset: most as u64,
            kind: ReadFaultKind::Device,
        };
        expect_equal_at(&rt, what, answer, Err(read_error(input, fault)));
        let is_left = failing.failed() && !other.failed() && writer.writes == 0;
        expect_at(&rt, what, is_left && (!is_first || other.reads == 0));
    }
}

const ENDLESS_TEXT: CommandError = CommandError::Run(RunError::ReadText(ENDLESS));

const ENDLESS_NEXT: CommandError = CommandError::Run(RunError::ReadNext(ENDLESS));

const ENDLESS_SENTENCE: CommandError = CommandError::ReadSentence(ENDLESS);

const LONG_FILE: CommandError = CommandError::Run(RunError::Tables(LONG));

const LONG_NARROW_FILE: CommandError = CommandError::Run(RunError::Tables(LONG_NARROW));

/// A run over an input without an end, whether that is its first one, the error, and the most reads.
static ENDLESS_READINGS: [(Run, bool, CommandError, u32); 9] = [
    (Run::Show, true, ENDLESS_TEXT, 1_048_578),
    (Run::Search, true, ENDLESS_TEXT, 1_048_578),
    (Run::SearchNext, false, ENDLESS_NEXT, 1_048_578),
    (Run::Type, true, ENDLESS_TEXT, 1_048_578),
    (Run::Type, false, ENDLESS_SENTENCE, 1_048_578),
    (Run::Lint, true, ENDLESS_TEXT, 1_048_578),
    (Run::Layout, true, ENDLESS_TEXT, 1_048_578),
    (Run::Dump, true, LONG_FILE, 15_526),
    (Run::DumpNarrow, true, LONG_NARROW_FILE, 4_141),
];

const LONG: TableFault = TableFault {
    offset: 15_524,
    kind: TableFaultKind::Long,
};

const LONG_NARROW: TableFault = TableFault {
    offset: 4_139,
    kind: TableFaultKind::Long,
};

/// What a reader without an end gives a run: zeros in place of tables, blanks in place of a text.
fn endless_byte(what: Run) -> u8 {
    match what {
        Run::Dump | Run::DumpNarrow => 0,
        _ => b' ',
    }
}

#[test]
fn an_input_without_end_is_left(rt: HostRuntime) {
    for &(what, is_first, error, most_reads) in &ENDLESS_READINGS {
        let mut endless = endless_tape_of(endless_byte(what));
        let mut other = tape_of(LETTER_AND_SHIFT, 100, 64, usize::MAX);
        let mut writer = sheet_of(usize::MAX);
        let answer = if is_first {
            perform(what, rt.alloc(), &mut endless, &mut other, &mut writer)
        } else {
            perform(what, rt.alloc(), &mut other, &mut endless, &mut writer)
        };
        expect_equal_at(&rt, what, answer, Err(error));
        let is_left = endless.reads <= most_reads && !endless.failed() && writer.writes == 0;
        expect_at(&rt, what, is_left);
    }
}
