//! What the runs of the program write: reports, scripts and printed keymaps, also into a writer that fails in
//! mid-stream.

use crate::asserts::{expect_at, expect_equal_at, map_of};
use crate::runs::run_devices::{Run, perform};
use crate::support::devices::{reader_of, sheet_of, slow_sheet_of};
use crate::support::keymaps::{
    CAPS_ALONE, LETTER_AND_SHIFT, SHIFT_AND_LINE_FEED, SHIFT_WITH_TRAP, STICKS_UNDER_CAPS,
};
use keymap_check::check;
use keymap_core::{Write, WriteFault};
use keymap_draw::{Board, picture};
use keymap_tables::{write_narrow, write_tables};
use kmap_runs::RunError;
use std::alloc::Global;
use std::process::Abort;

const ACCEPTED: &[u8] = b"accepted
lshift throughout 42
rshift nobody
lctrl nobody
rctrl nobody
lalt nobody
ralt nobody
ashift nobody
meta nobody
clock nobody
nlock nobody
slock nobody
alock nobody
demonstration: none
";

/// A run over a text and a second input, what it answers, and what it writes.
type Output = (Run, &'static [u8], &'static [u8], bool, &'static [u8]);

static OUTPUTS: [Output; 9] = [
    (Run::Show, LETTER_AND_SHIFT, b"", true, ACCEPTED),
    (
        Run::Search,
        LETTER_AND_SHIFT,
        b"",
        true,
        b"# never sticks\n",
    ),
    (
        Run::Search,
        SHIFT_WITH_TRAP,
        b"",
        false,
        b"# sticks: lshift\ndown 42\ndown 29\ndown 42\nup 29\nup 42\n",
    ),
    (
        Run::SearchNext,
        CAPS_ALONE,
        STICKS_UNDER_CAPS,
        false,
        b"# sticks: lshift\ndown 58\nup 58\nload\ndown 42\ndown 42\nup 42\n",
    ),
    (Run::Type, LETTER_AND_SHIFT, b"", true, b""),
    (
        Run::Type,
        SHIFT_AND_LINE_FEED,
        b"a\n\nA",
        true,
        b"# a\ndown 30\nup 30\ndown 28\nup 28\n# \ndown 28\nup 28\n# A\ndown 42\ndown 30\nup 30\nup 42\n",
    ),
    (
        Run::Type,
        SHIFT_AND_LINE_FEED,
        b"\x1b\xe2\x80\xae#\xc3\xa9",
        true,
        b"# U+001bU+202e#\xc3\xa9\ndown 1\nup 1\ndown 2\nup 2\ndown 3\nup 3\ndown 4\nup 4\n",
    ),
    (
        Run::Lint,
        b"",
        b"",
        false,
        b"t:1:1: error: the text defines no key [no-key]\n",
    ),
    (Run::Layout, b"\n # a text", b"", true, b"# a text\n"),
];

/// The run writes what is wanted a byte at a time, and its first bytes to a writer that takes fewer and fails.
fn expect_written(
    rt: &impl Abort,
    alloc: Global,
    what: Run,
    inputs: (&[u8], &[u8]),
    most: usize,
    wanted: (bool, &[u8]),
) {
    let mut text = reader_of(inputs.0, 512, usize::MAX);
    let mut second = reader_of(inputs.1, 1, usize::MAX);
    let mut writer = slow_sheet_of(1, most);
    let given = perform(what, alloc, &mut text, &mut second, &mut writer);
    let (answer, bytes) = wanted;
    let is_cut = most < bytes.len();
    let written = most as u64;
    let told = if is_cut {
        Err(RunError::Write(WriteFault { written }).into())
    } else {
        Ok(answer)
    };
    expect_equal_at(rt, (what, most), given, told);
    let count = bytes.len().min(most);
    expect_equal_at(rt, (what, most), writer.bytes.len(), count);
    let is_front = bytes.starts_with(writer.bytes.as_slice());
    expect_at(rt, (what, most), is_front && writer.failed() == is_cut);
}

#[test]
fn runs_write_their_output(rt: HostRuntime) {
    for &(what, text, second, answer, bytes) in &OUTPUTS {
        let (inputs, wanted) = ((text, second), (answer, bytes));
        expect_written(&rt, rt.alloc(), what, inputs, usize::MAX, wanted);
        expect_written(&rt, rt.alloc(), what, inputs, bytes.len() / 2, wanted);
    }
    let end = b"demonstration: none\n".as_slice();
    let report = ACCEPTED.strip_suffix(end).expect(&rt, "a report");
    let (alloc, inputs): (Global, (&[u8], &[u8])) = (rt.alloc(), (LETTER_AND_SHIFT, b""));
    expect_written(&rt, alloc, Run::Check, inputs, usize::MAX, (true, report));
}

/// A picture is longer than what is gathered before it is written.
#[test]
fn a_picture_is_written_until_its_writer_fails(rt: HostRuntime) {
    let map = map_of(&rt, LETTER_AND_SHIFT);
    let wanted = picture(rt.alloc(), &map, &check(&map), Board::Iso, b"").expect(&rt, "memory");
    let inputs: (&[u8], &[u8]) = (LETTER_AND_SHIFT, b"");
    let wanted = (true, wanted.as_slice());
    expect_written(&rt, rt.alloc(), Run::Draw, inputs, 10_000, wanted);
}

const PRINTED: &[u8] = b"000 'a'    'A'    soh    soh    fkey01 scr16  0x20ac del    B\n";

const PRINTED_NARROW: &[u8] = b"000 'a'    'A'    soh    soh    fkey01 scr16  nul    del    B\n";

#[test]
fn tables_print_as_their_map(rt: HostRuntime) {
    let alloc = rt.alloc();
    let inputs: (&[u8], &[u8]) = (&[0; 15_524], b"");
    expect_written(&rt, alloc, Run::Dump, inputs, usize::MAX, (true, b""));
    let mut tables = sheet_of(usize::MAX);
    let map = map_of(&rt, b"0 'a' 'A' SOH soh fkey1 scr16 0x20ac DEL b");
    write_tables(&map, &mut tables).expect(&rt, "a table file");
    let inputs: (&[u8], &[u8]) = (tables.bytes.as_slice(), b"");
    let wanted: (bool, &[u8]) = (true, PRINTED);
    expect_written(&rt, alloc, Run::Dump, inputs, usize::MAX, wanted);
    expect_written(&rt, alloc, Run::Dump, inputs, 10, wanted);
}

#[test]
fn narrow_tables_print_as_their_map(rt: HostRuntime) {
    let alloc = rt.alloc();
    let mut tables = sheet_of(usize::MAX);
    let map = map_of(&rt, b"0 'a' 'A' SOH soh fkey1 scr16 nul DEL b");
    write_narrow(&map, &mut tables).expect(&rt, "a narrow file");
    let inputs: (&[u8], &[u8]) = (tables.bytes.as_slice(), b"");
    let wanted: (bool, &[u8]) = (true, PRINTED_NARROW);
    expect_written(&rt, alloc, Run::DumpNarrow, inputs, usize::MAX, wanted);
    expect_written(&rt, alloc, Run::DumpNarrow, inputs, 10, wanted);
}
