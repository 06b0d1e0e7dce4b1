//! Why a run failed, and the line that tells it.
ghost use Rattle.std.specs.Prelude.{◌≡◌, ◌≤◌, ◌||◌, length, is_err, IfOk};
ghost use Rattle.keymap_core.specs.Devices.{WritesText};
ghost use Rattle.kmap_runs.specs.FaultLine as spec;
ghost use Rattle.kmap_runs.specs.FaultLine.{command_fault_line, fault_line, file_fault_line, table_kind};

use keymap_core::{ReadFault, ReadFaultKind, Write, WriteFault, code_text, write_text};
use keymap_names::shown_name;
use keymap_tables::{TableFault, TableFaultKind, Wide};
use keymap_text::TextFault;
use messages::{Line, filled, line, number, small};
use play_core::{PlayError, ScriptFault, Source};
use std::alloc::{AllocError, Global};
use thiserror::Error;

/// Why a run failed. `write_run_error` writes the line that tells it.
#[derive(Clone, Copy, Debug, PartialEq, Eq, Error)]
pub enum RunError {
    #[error("out of memory")]
    Memory,
    #[error("the text is faulty")]
    Text(TextFault),
    #[error("the next text is faulty")]
    Next(TextFault),
    #[error("the script is faulty")]
    Script(ScriptFault),
    #[error("the tables are faulty")]
    Tables(TableFault),
    #[error("the text cannot be read")]
    ReadText(ReadFault),
    #[error("the next text cannot be read")]
    ReadNext(ReadFault),
    #[error("the script cannot be read")]
    ReadScript(ReadFault),
    #[error("the tables cannot be read")]
    ReadTables(ReadFault),
    #[error("a character is too wide for a narrow file")]
    TooWide(Wide),
    #[error("the output cannot be written")]
    Write(WriteFault),
}

/// Why a command failed that lays a text out, types a sentence or tests a console: as a run does, or for a reason of
/// its own. `write_command_error` writes the line that tells it.
#[derive(Clone, Copy, Debug, PartialEq, Eq, Error)]
pub enum CommandError {
    #[error("{0}")]
    Run(RunError),
    #[error("the sentence cannot be read")]
    ReadSentence(ReadFault),
    #[error("the sentence is not UTF-8")]
    NotText { offset: u64 },
    #[error("no keys were found for a character of the sentence")]
    NoWay { offset: u64, c: char },
    #[error("the text is too long when formatted")]
    TooLong,
    #[error("the keymap has more states than a search goes over")]
    TooManyStates,
    #[error("no key of the board types")]
    NoKeyTypes,
}

impl From<RunError> for CommandError {
    ghost use Rattle.std.specs.Prelude.{◌≡◌};
    ghost use Rattle.kmap_runs.specs.declared.fault_line.CommandError.TheVariants.{Run};

    ghost from_gives = { λ e r. r ≡ Run e };

    fn from(error: RunError) -> CommandError {
        CommandError::Run(error)
    }
}

/// What playing a script answers is told as by any other run.
impl From<PlayError> for RunError {
    ghost use Rattle.std.specs.Prelude.{◌≡◌};
    ghost use Rattle.kmap_runs.specs.Inputs.{of_playing};

    ghost from_gives = { λ e r. r ≡ of_playing e };

    fn from(error: PlayError) -> RunError {
        match error {
            PlayError::Memory => RunError::Memory,
            PlayError::Text(fault) => RunError::Text(fault),
            PlayError::Next(fault) => RunError::Next(fault),
            PlayError::Script(fault) => RunError::Script(fault),
            PlayError::Read(Source::Text, fault) => RunError::ReadText(fault),
            PlayError::Read(Source::Next, fault) => RunError::ReadNext(fault),
            PlayError::Read(Source::Script, fault) => RunError::ReadScript(fault),
            PlayError::Write(fault) => RunError::Write(fault),
        }
    }
}

// The lines, with a place for each thing that is told. The definitions have these bytes of their own, which are proved
// to be the same.
pub(crate) const MEMORY: &[u8] = b"kmap: out of memory\n";

pub(crate) const TEXT: &[u8] = b"kmap: {} line {} offset {}: {}\n";

pub(crate) const SCRIPT: &[u8] = b"kmap: script line {}: {}\n";

pub(crate) const TABLES: &[u8] = b"kmap: tables offset {}: {}\n";

pub(crate) const READ: &[u8] = b"kmap: {}: read fault at offset {}\n";

pub(crate) const ENDLESS: &[u8] = b"kmap: {}: more than 1048576 bytes\n";

pub(crate) const NOT_TEXT: &[u8] = b"kmap: sentence offset {}: not UTF-8\n";

pub(crate) const NO_WAY: &[u8] = b"kmap: sentence offset {}: no keys found for {}\n";

pub(crate) const WIDE_CELL: &[u8] = b"kmap: cell too wide at slot {} column {}\n";

pub(crate) const WIDE_ACCENT: &[u8] = b"kmap: accent too wide at accent {} number {}\n";

pub(crate) const TOO_LONG: &[u8] = b"kmap: text: more than 1048576 bytes when formatted\n";

pub(crate) const TOO_MANY_STATES: &[u8] = b"kmap: more than 65536 states\n";

pub(crate) const NO_KEY_TYPES: &[u8] = b"kmap: no key of the board types\n";

pub(crate) const WRITE: &[u8] = b"kmap: write fault after {} bytes\n";

// How a line goes on in place of `kmap: ` that tells the file too.
pub(crate) const OF_FILE: &[u8] = b"kmap: {}: {}";

/// How many bytes `kmap: ` has, with which each line begins.
const FRONT: usize = 6;

fn table_kind_name(kind: TableFaultKind) -> &'static [u8]
    ensures name { result.now ≡ table_kind kind }
    ensures bound { length result.now ≤ 12 }
{
    match kind {
        TableFaultKind::Short => b"Short",
        TableFaultKind::Long => b"Long",
        TableFaultKind::BadCount => b"BadCount",
        TableFaultKind::BadPad => b"BadPad",
        TableFaultKind::BadFlag => b"BadFlag",
        TableFaultKind::BadAction => b"BadAction",
        TableFaultKind::Combined => b"Combined",
        TableFaultKind::BadChar => b"BadChar",
        TableFaultKind::NotEmpty => b"NotEmpty",
    }
}

/// The line on a fault of a text, which is named by a word of at most eight bytes.
fn text_fault(source: &'static [u8], fault: &TextFault) -> Line
    requires { length source.now ≤ 8 }
    ensures { result.items ≡ spec.text_fault source.now fault.now }
{
    let (at, offset) = (number(fault.line), number(fault.offset));
    let kind = fault.kind.name();
    line(TEXT, &[source, at.as_slice(), offset.as_slice(), kind])
}

fn script_fault(fault: &ScriptFault) -> Line
    ensures { result.items ≡ spec.script_fault fault.now }
{
    match fault {
        ScriptFault::BadLine(at) => line(SCRIPT, &[number(*at).as_slice(), b"BadLine"]),
        ScriptFault::BadKey(at) => line(SCRIPT, &[number(*at).as_slice(), b"BadKey"]),
    }
}

fn table_fault(fault: &TableFault) -> Line
    ensures { result.items ≡ spec.table_fault fault.now }
{
    let kind = table_kind_name(fault.kind);
    line(TABLES, &[number(fault.offset).as_slice(), kind])
}

/// The line on a reader, which is named by a word of at most eight bytes.
fn read_fault(source: &'static [u8], fault: &ReadFault) -> Line
    requires { length source.now ≤ 8 }
    ensures { result.items ≡ spec.read_fault source.now fault.now }
{
    match fault.kind {
        ReadFaultKind::Device => line(READ, &[source, number(fault.offset).as_slice()]),
        ReadFaultKind::Endless => line(ENDLESS, &[source]),
    }
}

fn too_wide(wide: &Wide) -> Line
    ensures { result.items ≡ spec.too_wide wide.now }
{
    match wide {
        Wide::Cell { slot, column } => line(
            WIDE_CELL,
            &[small(*slot).as_slice(), small(*column).as_slice()],
        ),
        Wide::Accent { accent, number } => line(
            WIDE_ACCENT,
            &[small(*accent).as_slice(), small(*number).as_slice()],
        ),
    }
}

fn no_way(offset: u64, c: char) -> Line
    ensures { result.items ≡ command_fault_line (CommandError.NoWay offset c) }
{
    let c = code_text(c);
    line(NO_WAY, &[number(offset).as_slice(), c.as_slice()])
}

/// The line of a run's error, with its end.
#[tactic(auto, unfolding(messages::specs::Filled::filled))]
fn line_of_run(error: &RunError) -> Line
    ensures { result.items ≡ fault_line error.now }
{
    match error {
        RunError::Memory => line(MEMORY, &[]),
        RunError::Text(fault) => text_fault(b"text", fault),
        RunError::Next(fault) => text_fault(b"next", fault),
        RunError::Script(fault) => script_fault(fault),
        RunError::Tables(fault) => table_fault(fault),
        RunError::ReadText(fault) => read_fault(b"text", fault),
        RunError::ReadNext(fault) => read_fault(b"next", fault),
        RunError::ReadScript(fault) => read_fault(b"script", fault),
        RunError::ReadTables(fault) => read_fault(b"tables", fault),
        RunError::TooWide(wide) => too_wide(wide),
        RunError::Write(fault) => line(WRITE, &[number(fault.written).as_slice()]),
    }
}

/// The line of a command's error, with its end.
#[tactic(auto, unfolding(messages::specs::Filled::filled))]
fn line_of(error: &CommandError) -> Line
    ensures { result.items ≡ command_fault_line error.now }
{
    match error {
        CommandError::Run(error) => line_of_run(error),
        CommandError::ReadSentence(fault) => read_fault(b"sentence", fault),
        CommandError::NotText { offset } => line(NOT_TEXT, &[number(*offset).as_slice()]),
        CommandError::NoWay { offset, c } => no_way(*offset, *c),
        CommandError::TooLong => line(TOO_LONG, &[]),
        CommandError::TooManyStates => line(TOO_MANY_STATES, &[]),
        CommandError::NoKeyTypes => line(NO_KEY_TYPES, &[]),
    }
}

/// Writes the line of a run's error, or after a fault of the writer its first `written` bytes.
pub fn write_run_error<W: Write>(error: &RunError, writer: &mut W) -> Result<(), WriteFault>
    ensures bytes { WritesText (λ f. f.written) (W.contents writer.old) (W.contents writer.new) (fault_line error.now)
        result }
    ensures failed { W.has_failed writer.new ≡ (is_err result || W.has_failed writer.old) }
{
    write_text(writer, line_of_run(error).as_slice())
}

/// Writes the line of a command's error, or after a fault of the writer its first `written` bytes.
pub fn write_command_error<W: Write>(error: &CommandError, writer: &mut W) -> Result<(), WriteFault>
    ensures bytes { WritesText (λ f. f.written) (W.contents writer.old) (W.contents writer.new)
        (command_fault_line error.now) result }
    ensures failed { W.has_failed writer.new ≡ (is_err result || W.has_failed writer.old) }
{
    write_text(writer, line_of(error).as_slice())
}

/// The line of a command's error that has the name of a file, as `shown_name` shows it, behind `kmap: `.
#[tactic(auto, unfolding(messages::specs::Filled::filled))]
pub fn file_error_line(
    alloc: Global,
    file: &[u8],
    error: &CommandError,
) -> Result<Vec<u8>, AllocError>
    ensures { IfOk result (λ line. line.items ≡ file_fault_line file.now error.now) }
{
    let line = line_of(error);
    let reason = &line.as_slice()[FRONT.min(line.len())..];
    let name = shown_name(alloc, file)?;
    filled(alloc, OF_FILE, &[name.as_slice(), reason])
}
