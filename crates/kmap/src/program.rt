//! A run of the program: the words, the files that they name, and the exit status.
use crate::command_line::{Request, Sentence, contradiction, matches_of, request_of};
use crate::compile::compile;
use crate::format::format_texts;
use crate::forms::{form_of, tell_script, unknown_form};
use crate::inputs::{Text, given, opened, opened_if_named, text_given};
use crate::keyboards::{board_of, keyboard_of, unknown_keyboard};
use crate::lint::lint;
use crate::output::{Faults, Output};
use crate::refusal::{WRONG_WORDS, contradicted, not_text, refused};
use crate::texts::{check, draw, search};
use clap::ArgMatches;
use keyboard::Board;
use keyboard_cover::Keyboard;
use keymap_core::{FromStd, Read, ToStd, Write, write_text};
use keymap_names::shown_name;
use kmap_runs::{
    CommandError, RunError, TypeError, WaysTold, cover_run, diff_run, dump_narrow_run, dump_run,
    file_error_line, keyboard_cover_run, lint_run, missing_run, type_run, type_sheet_run,
    type_words_run, write_command_error, write_run_error,
};
use lint_formats::Format;
use play_core::{Show, play_next};
use script_forms::Form;
use std::alloc::{AllocError, Global};
use std::convert::AsStr;
use std::process::ExitCode;
use std::{env, io};

/// Why the program couldn't do what it was asked for.
#[derive(Drop)]
pub(crate) enum Failure<'a> {
    /// The line of the error tells the file too, where there is one.
    Command(Option<&'a str>, CommandError),
    File(&'a str, FileFault),
    /// The new file that is to take the place of another can't be made.
    CannotCreateNew(String),
    /// What a form doesn't have of a script, as the line that tells it.
    Unsent(Vec<u8>),
    /// Who read the output has gone away, which isn't told.
    NoReader,
    /// It was told already.
    Told,
}

/// Why nothing is done with a file.
#[derive(Clone, Copy)]
pub(crate) enum FileFault {
    CannotOpen,
    /// The reason is told, too.
    CannotOpenFor(io::ErrorKind),
    NotRegular,
    CannotCreate,
    CannotReplace,
    /// The file was changed while its layout was made.
    Changed,
}

impl From<AllocError> for Failure<'_> {
    fn from(_: AllocError) -> Self {
        Failure::of_run(RunError::Memory)
    }
}

impl<'a> Failure<'a> {
    pub(crate) fn of_run(error: RunError) -> Failure<'a> {
        Failure::Command(None, CommandError::Run(error))
    }

    /// Whether nothing more can be written to the output.
    pub(crate) fn is_of_output(&self) -> bool {
        match self {
            Failure::NoReader => true,
            Failure::Command(None, error) => is_of_output(error),
            _ => false,
        }
    }
}

/// Whether the output failed.
pub(crate) fn is_of_output(error: &CommandError) -> bool {
    matches!(error, CommandError::Run(RunError::Write(_)))
}

/// Does what the words of the command line ask for. A fault is one line to `faults`.
pub(crate) fn run(rt: &HostRuntime, faults: &mut Faults) -> ExitCode {
    match words_run(rt, faults) {
        Ok(status) => status,
        Err(AllocError) => {
            let _ = write_run_error(&RunError::Memory, faults);
            ExitCode::FAILURE
        }
    }
}

/// The words of the command line, or none where one of them is no text.
fn words_of(rt: &HostRuntime) -> Result<Option<Vec<String>>, AllocError> {
    match env::args(rt) {
        Ok(words) => Ok(Some(words.collect(rt.alloc())?)),
        Err(error) => {
            if error.kind() == io::ErrorKind::OutOfMemory {
                return Err(AllocError);
            }
            Ok(None)
        }
    }
}

fn words_run(rt: &HostRuntime, faults: &mut Faults) -> Result<ExitCode, AllocError> {
    match words_of(rt)? {
        Some(words) => text_run(rt, words.as_slice(), faults),
        None => not_text(rt),
    }
}

/// Whether the words ask for help on `help` by an option.
fn asks_by_option(command: &str, option: &str) -> bool {
    command == "help" && matches!(option, "--help" | "-h")
}

/// Does what words that are text ask for. `clap` takes no option behind `help`, so one that asks for help is told in
/// other words, under the name that the program was called by.
fn text_run(
    rt: &HostRuntime,
    words: &[String],
    faults: &mut Faults,
) -> Result<ExitCode, AllocError> {
    match words {
        [name, command, option, ..] if asks_by_option(command.as_str(), option.as_str()) => {
            command_run(rt, &[name.as_str(), "help", "help"], faults)
        }
        _ => command_run(rt, words, faults),
    }
}

/// Does what a command line asks for.
fn command_run<S>(
    rt: &HostRuntime,
    words: &[S],
    faults: &mut Faults,
) -> Result<ExitCode, AllocError>
where
    S: AsStr,
{
    match matches_of(rt.alloc(), words) {
        Ok(matches) => matched_run(rt, &matches, faults),
        Err(error) => refused(rt, &error, words, faults),
    }
}

/// The line on a form that there isn't, round its name.
const NO_FORM: &[u8] = b"kmap: no form ";

const FORMS: &[u8] = b": script evdev set1 qmp x11\n";

fn matched_run(
    rt: &HostRuntime,
    matches: &ArgMatches<'_>,
    faults: &mut Faults,
) -> Result<ExitCode, AllocError> {
    let Some(request) = request_of(matches) else {
        return not_text(rt);
    };
    if let Some(word) = unknown_form(&request) {
        report_name(rt.alloc(), NO_FORM, word, FORMS, faults);
        return Ok(ExitCode::from(WRONG_WORDS));
    }
    if let Some(unknown) = unknown_keyboard(&request) {
        report_name(
            rt.alloc(),
            unknown.front,
            unknown.word,
            unknown.known,
            faults,
        );
        return Ok(ExitCode::from(WRONG_WORDS));
    }
    match contradiction(&request) {
        Some(message) => contradicted(rt, message),
        None => {
            let trouble = status_of_trouble(&request);
            let outcome = answer(rt, request, faults);
            Ok(status_of(rt.alloc(), outcome, trouble, faults))
        }
    }
}

/// The status where a request couldn't be done: 2 of the commands that tell by 1 what they found.
fn status_of_trouble(request: &Request<'_, '_>) -> ExitCode {
    match request {
        Request::Lint { .. } | Request::Search { .. } | Request::Diff { .. } => ExitCode::from(2),
        _ => ExitCode::FAILURE,
    }
}

/// The status of an outcome. A failure also gets its line.
fn status_of(
    alloc: Global,
    outcome: Result<bool, Failure<'_>>,
    trouble: ExitCode,
    faults: &mut Faults,
) -> ExitCode {
    match outcome {
        Ok(is_well) => status(is_well),
        Err(Failure::NoReader) => ExitCode::FAILURE,
        Err(failure) => {
            report(alloc, &failure, faults);
            trouble
        }
    }
}

pub(crate) fn status(is_well: bool) -> ExitCode {
    if is_well {
        ExitCode::SUCCESS
    } else {
        ExitCode::FAILURE
    }
}

/// Whether all is well. A failure also gets its line.
pub(crate) fn is_well(
    alloc: Global,
    outcome: Result<bool, Failure<'_>>,
    faults: &mut Faults,
) -> bool {
    match outcome {
        Ok(well) => well,
        Err(failure) => {
            report(alloc, &failure, faults);
            false
        }
    }
}

/// Whether all is well with one text of many. One that can't be read gets its line, so that the next one can follow;
/// where the output fails, none does.
pub(crate) fn of_many<'a>(
    alloc: Global,
    outcome: Result<bool, Failure<'a>>,
    faults: &mut Faults,
) -> Result<bool, Failure<'a>> {
    match outcome {
        Err(failure) if failure.is_of_output() => Err(failure),
        outcome => Ok(is_well(alloc, outcome, faults)),
    }
}

/// What became of texts, one after the other, of a command that tells by its status where one can't be read.
#[derive(Drop)]
pub(crate) struct Outcomes {
    is_well: bool,
    has_failed: bool,
}

impl Outcomes {
    pub(crate) fn new() -> Outcomes {
        Outcomes {
            is_well: true,
            has_failed: false,
        }
    }

    /// Takes what became of the next text. A failure gets its line, so that another text can follow; where the output
    /// fails, none does.
    pub(crate) fn add<'a>(
        &mut self,
        alloc: Global,
        outcome: Result<bool, Failure<'a>>,
        faults: &mut Faults,
    ) -> Result<(), Failure<'a>> {
        match outcome {
            Ok(is_well) => self.is_well = is_well && self.is_well,
            Err(failure) if failure.is_of_output() => return Err(failure),
            Err(failure) => {
                report(alloc, &failure, faults);
                self.has_failed = true;
            }
        }
        Ok(())
    }

    /// Whether all is well with all texts; it is a failure where one of them failed.
    pub(crate) fn outcome<'a>(&self) -> Result<bool, Failure<'a>> {
        if self.has_failed {
            Err(Failure::Told)
        } else {
            Ok(self.is_well)
        }
    }
}

/// Writes the line of a failure. Where that can't be done, the status stays.
pub(crate) fn report(alloc: Global, failure: &Failure<'_>, faults: &mut Faults) {
    match failure {
        Failure::Command(_, error @ CommandError::Run(RunError::Memory))
        | Failure::Command(None, error) => {
            let _ = write_command_error(error, faults);
        }
        Failure::Command(Some(name), error) => report_of_file(alloc, name, error, faults),
        Failure::File(name, fault) => {
            let (front, end) = words_of_fault(*fault);
            report_name(alloc, front, name, end, faults);
        }
        Failure::CannotCreateNew(name) => {
            let (front, end) = words_of_fault(FileFault::CannotCreate);
            report_name(alloc, front, name.as_str(), end, faults);
        }
        Failure::Unsent(line) => {
            let _ = write_text(faults, line.as_slice());
        }
        Failure::NoReader | Failure::Told => {}
    }
}

/// What stands before and behind the name of the file.
fn words_of_fault(fault: FileFault) -> (&'static [u8], &'static [u8]) {
    match fault {
        FileFault::CannotOpen => (b"kmap: cannot open ", b"\n"),
        FileFault::CannotOpenFor(kind) => (b"kmap: cannot open ", reason(kind)),
        FileFault::NotRegular => (b"kmap: ", b": not a regular file\n"),
        FileFault::CannotCreate => (b"kmap: cannot create ", b"\n"),
        FileFault::CannotReplace => (b"kmap: cannot replace ", b"\n"),
        FileFault::Changed => (b"kmap: ", b": changed meanwhile\n"),
    }
}

/// Why a file can't be opened, as the end of a line, as far as people can do something about it.
fn reason(kind: io::ErrorKind) -> &'static [u8] {
    match kind {
        io::ErrorKind::NotFound => b": No such file or directory\n",
        io::ErrorKind::PermissionDenied => b": Permission denied\n",
        io::ErrorKind::NotADirectory => b": Not a directory\n",
        io::ErrorKind::FilesystemLoop => b": Too many levels of symbolic links\n",
        io::ErrorKind::InvalidFilename => b": File name too long\n",
        _ => b"\n",
    }
}

fn report_of_file(alloc: Global, name: &str, error: &CommandError, faults: &mut Faults) {
    let _ = match file_error_line(alloc, name.as_bytes(), error) {
        Ok(line) => write_text(faults, line.as_slice()),
        Err(AllocError) => write_run_error(&RunError::Memory, faults),
    };
}

/// Writes a line that has the name of a file, as it is shown. It is written at once, as that of another run may be.
pub(crate) fn report_name(
    alloc: Global,
    front: &[u8],
    name: &str,
    end: &[u8],
    faults: &mut Faults,
) {
    let _ = match named_line(alloc, front, name, end) {
        Ok(line) => write_text(faults, line.as_slice()),
        Err(AllocError) => write_run_error(&RunError::Memory, faults),
    };
}

fn named_line(alloc: Global, front: &[u8], name: &str, end: &[u8]) -> Result<Vec<u8>, AllocError> {
    let mut line = Vec::new(alloc);
    line.extend_from_slice(front)?;
    line.extend_from_slice(shown_name(alloc, name.as_bytes())?.as_slice())?;
    line.extend_from_slice(end)?;
    Ok(line)
}

/// Answers a request: whether all is well, which only a refused map denies, one that isn't known never to stick,
/// another one where they should be the same, a character that no keys type, or a text with an error.
fn answer<'a>(
    rt: &HostRuntime,
    request: Request<'_, 'a>,
    faults: &mut Faults,
) -> Result<bool, Failure<'a>> {
    match request {
        Request::Check { texts, mode } => check(rt, texts, mode, faults),
        Request::Lint { texts, mode } => lint(rt, texts, mode, faults),
        Request::Fmt {
            texts,
            mode,
            characters,
        } => format_texts(rt, mode, characters, texts, faults),
        Request::Search { texts, next } => search(rt, texts, next, faults),
        Request::Diff {
            text,
            next,
            is_brief,
        } => diff(rt, text, next, is_brief, faults),
        Request::Dump { tables, narrow } => well(dump(rt, tables, narrow)),
        Request::Compile { text, out, narrow } => well(compile(rt, text, out, narrow)),
        Request::Play {
            text,
            next,
            script,
            typed,
        } => {
            let show = if typed { Show::Typed } else { Show::Lines };
            well(play(rt, show, text, next, script))
        }
        Request::Type {
            text,
            sentence,
            missing,
            form,
            board,
        } => {
            let typed_as = TypedAs {
                missing,
                form: form_of(form),
                board: board_of(board),
            };
            type_sentence(rt, text, sentence, typed_as, faults)
        }
        Request::Words {
            text,
            sentence,
            told,
            board,
        } => {
            let board = board_of(board);
            well(tell_words(rt, text, sentence, told, board, faults))
        }
        Request::Cover {
            text,
            keyboard,
            press,
            form,
        } => {
            let keyboard = keyboard_of(keyboard, press);
            well(cover(rt, text, keyboard, form_of(form), faults))
        }
        Request::Draw {
            texts,
            ansi,
            title,
            old,
        } => draw(rt, texts, ansi, title, old, faults),
    }
}

/// All is well where nothing failed.
pub(crate) fn well<'a>(outcome: Result<(), Failure<'a>>) -> Result<bool, Failure<'a>> {
    match outcome {
        Ok(()) => Ok(true),
        Err(failure) => Err(failure),
    }
}

/// The outcome of a command on keymap texts. The faults of one that spells no keymap are told as `lint` tells them.
pub(crate) fn explained<'a, T: Drop>(
    rt: &HostRuntime,
    outcome: Result<T, Failure<'a>>,
    text: &Text<'_>,
    next: Option<&Text<'_>>,
    faults: &mut Faults,
) -> Result<T, Failure<'a>> {
    match (&outcome, next) {
        (Err(Failure::Command(_, CommandError::Run(RunError::Text(_)))), _) => {
            Err(tell_faults(rt, text, faults))
        }
        (Err(Failure::Command(_, CommandError::Run(RunError::Next(_)))), Some(next)) => {
            Err(tell_faults(rt, next, faults))
        }
        _ => outcome,
    }
}

/// Tells the faults of a text. Where that can't be done, the status stays.
fn tell_faults<'a>(rt: &HostRuntime, text: &Text<'_>, faults: &mut Faults) -> Failure<'a> {
    let name = text.name.as_bytes();
    let mut reader = text.reader();
    match lint_run(rt.alloc(), Format::Text, false, name, &mut reader, faults) {
        Err(RunError::Memory) => Failure::of_run(RunError::Memory),
        _ => Failure::Told,
    }
}

fn diff<'a>(
    rt: &HostRuntime,
    text: &'a str,
    next: &'a str,
    is_brief: bool,
    faults: &mut Faults,
) -> Result<bool, Failure<'a>> {
    let text = text_given(rt, text)?;
    let next = text_given(rt, next)?;
    let mut out = Output::new(rt);
    let outcome = diff_run(
        rt.alloc(),
        &mut text.reader(),
        &mut next.reader(),
        &mut out,
        is_brief,
    );
    explained(rt, out.outcome(outcome), &text, Some(&next), faults)
}

pub(crate) fn run_outcome<'a, T>(outcome: Result<T, RunError>) -> Result<T, Failure<'a>> {
    match outcome {
        Ok(value) => Ok(value),
        Err(error) => Err(Failure::of_run(error)),
    }
}

fn dump<'a>(rt: &HostRuntime, tables: &'a str, narrow: bool) -> Result<(), Failure<'a>> {
    let mut source = opened(rt, tables)?;
    let mut out = Output::new(rt);
    let outcome = if narrow {
        dump_narrow_run(rt.alloc(), &mut source, &mut out)
    } else {
        dump_run(rt.alloc(), &mut source, &mut out)
    };
    out.outcome(outcome)
}

fn play<'a>(
    rt: &HostRuntime,
    show: Show,
    text: &'a str,
    next: Option<&'a str>,
    script: &'a str,
) -> Result<(), Failure<'a>> {
    let mut text = opened(rt, text)?;
    let mut next = opened_if_named(rt, next)?;
    let mut script = opened(rt, script)?;
    play_in(rt, show, &mut text, &mut next, &mut script)
}

fn play_in<'a, S: Read>(
    rt: &HostRuntime,
    show: Show,
    text: &mut S,
    next: &mut Option<S>,
    script: &mut S,
) -> Result<(), Failure<'a>> {
    let mut out = Output::new(rt);
    let played = match next {
        Some(next) => play_next(rt.alloc(), show, text, next, script, &mut out),
        None => play_core::play(rt.alloc(), show, text, script, &mut out),
    };
    match played {
        Ok(()) => Ok(()),
        Err(error) => out.outcome(Err(RunError::from(error))),
    }
}

/// How a sentence is typed.
#[derive(Clone, Copy)]
struct TypedAs {
    /// The characters that no keys type are told instead.
    missing: bool,
    form: Option<Form>,
    board: Board,
}

fn type_sentence<'a>(
    rt: &HostRuntime,
    text: &'a str,
    sentence: Sentence<'a>,
    typed_as: TypedAs,
    faults: &mut Faults,
) -> Result<bool, Failure<'a>> {
    let text = text_given(rt, text)?;
    let missing_of = if typed_as.missing {
        Some(name_of(&sentence))
    } else {
        None
    };
    let outcome = match sentence {
        Sentence::File(name) => {
            let mut sentence = given(rt, name)?;
            type_in(rt, missing_of, typed_as, &mut text.reader(), &mut sentence)
        }
        Sentence::Text(words) => {
            let mut words = FromStd::new(words.as_bytes());
            type_in(rt, missing_of, typed_as, &mut text.reader(), &mut words)
        }
    };
    explained(rt, outcome, &text, None, faults)
}

/// The name that a sentence is told under. One without a file has the word for it that faults have.
fn name_of<'a>(sentence: &Sentence<'a>) -> &'a str {
    match sentence {
        Sentence::File(name) => name,
        Sentence::Text(_) => "sentence",
    }
}

/// Types the sentence, or where a name for it is given tells which of its characters no keys type.
fn type_in<'a, S: Read, T: Read>(
    rt: &HostRuntime,
    missing_of: Option<&str>,
    typed_as: TypedAs,
    text: &mut S,
    sentence: &mut T,
) -> Result<bool, Failure<'a>> {
    let mut out = Output::new(rt);
    match (missing_of, typed_as.form) {
        (Some(name), _) => {
            let outcome = missing_run(rt.alloc(), name.as_bytes(), text, sentence, &mut out);
            out.outcome(outcome)
        }
        (None, None) => {
            let outcome = type_run(rt.alloc(), typed_as.board, text, sentence, &mut out);
            well(out.outcome(outcome))
        }
        (None, Some(form)) => {
            let mut script = Vec::new(rt.alloc());
            let mut device = ToStd::new(&mut script);
            let outcome = type_run(rt.alloc(), typed_as.board, text, sentence, &mut device);
            well(tell_script(rt, form, script.as_slice(), outcome))
        }
    }
}

/// Tells by which keys characters are typed, those of the sentence, if there is one.
fn tell_words<'a>(
    rt: &HostRuntime,
    text: &'a str,
    sentence: Option<Sentence<'a>>,
    told: WaysTold,
    board: Board,
    faults: &mut Faults,
) -> Result<(), Failure<'a>> {
    let text = text_given(rt, text)?;
    let outcome = match sentence {
        Some(Sentence::File(name)) => {
            let mut sentence = given(rt, name)?;
            words_in(rt, told, board, &mut text.reader(), &mut sentence)
        }
        Some(Sentence::Text(words)) => {
            let mut words = FromStd::new(words.as_bytes());
            words_in(rt, told, board, &mut text.reader(), &mut words)
        }
        None => {
            let mut out = Output::new(rt);
            let outcome = type_sheet_run(rt.alloc(), board, told, &mut text.reader(), &mut out);
            out.outcome(outcome)
        }
    };
    explained(rt, outcome, &text, None, faults)
}

/// Tells so of the characters of the sentence. Where one isn't typed, that is told behind the lines of those before it.
fn words_in<'a, S: Read, T: Read>(
    rt: &HostRuntime,
    told: WaysTold,
    board: Board,
    text: &mut S,
    sentence: &mut T,
) -> Result<(), Failure<'a>> {
    let mut out = Output::new(rt);
    let outcome = type_words_run(rt.alloc(), board, told, text, sentence, &mut out);
    match out.outcome(outcome)? {
        None => Ok(()),
        Some(error) => Err(Failure::Command(None, stop_error(error))),
    }
}

fn stop_error(error: TypeError) -> CommandError {
    match error {
        TypeError::Memory => CommandError::Run(RunError::Memory),
        TypeError::NotText { offset } => CommandError::NotText { offset },
        TypeError::NoWay { offset, c } => CommandError::NoWay { offset, c },
        TypeError::TooManyStates => CommandError::TooManyStates,
    }
}

fn cover<'a>(
    rt: &HostRuntime,
    text: &'a str,
    keyboard: Option<Keyboard>,
    form: Option<Form>,
    faults: &mut Faults,
) -> Result<(), Failure<'a>> {
    let text = text_given(rt, text)?;
    let outcome = cover_in(rt, keyboard, form, &mut text.reader());
    explained(rt, outcome, &text, None, faults)
}

fn cover_in<'a, S: Read>(
    rt: &HostRuntime,
    keyboard: Option<Keyboard>,
    form: Option<Form>,
    text: &mut S,
) -> Result<(), Failure<'a>> {
    let Some(form) = form else {
        let mut out = Output::new(rt);
        let outcome = run_cover(rt, keyboard, true, text, &mut out);
        return out.outcome(outcome);
    };
    let mut script = Vec::new(rt.alloc());
    let sends_repeats = form != Form::X11;
    let outcome = run_cover(
        rt,
        keyboard,
        sends_repeats,
        text,
        &mut ToStd::new(&mut script),
    );
    tell_script(rt, form, script.as_slice(), outcome)
}

/// Prints the script by the keyboard, if there is one.
fn run_cover<S: Read, W: Write>(
    rt: &HostRuntime,
    keyboard: Option<Keyboard>,
    sends_repeats: bool,
    text: &mut S,
    out: &mut W,
) -> Result<(), CommandError> {
    match keyboard {
        Some(keyboard) => keyboard_cover_run(rt.alloc(), &keyboard, sends_repeats, text, out),
        None => cover_run(rt.alloc(), text, out),
    }
}
