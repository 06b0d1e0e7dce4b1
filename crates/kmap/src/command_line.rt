//! The command line: its subcommands, and what its words ask for.
use crate::inputs::is_standard_input;
use clap::error::{Error, ErrorKind};
use clap::{Arg, ArgAction, ArgMatches, Command};
use keymap_fmt::Characters;
use kmap_runs::WaysTold;
use lint_formats::Format;
use std::alloc::{AllocError, Global};
use std::convert::AsStr;

/// The version of the program, which CHANGELOG.md and the manual pages repeat.
pub(crate) const VERSION: &str = "0.3.0";

/// A word that a subcommand takes. Each has a name, and what the help says of it.
#[derive(Clone, Copy)]
enum Word {
    File(&'static str, &'static str),
    /// Files, at least one.
    Files(&'static str, &'static str),
    Flag(&'static str, &'static str),
    /// A flag that isn't taken beside another one, whose name stands last.
    FlagWithout(&'static str, &'static str, &'static str),
    /// A flag that isn't taken beside either of two others, whose names stand last.
    FlagAlone(&'static str, &'static str, &'static str, &'static str),
    /// A flag that isn't taken without another one, whose name stands last.
    FlagBeside(&'static str, &'static str, &'static str),
    /// An option, with the name of the file or the text that it takes in between.
    FileOption(&'static str, &'static str, &'static str),
    /// A file that stands unless an option does, whose name stands last.
    FileUnless(&'static str, &'static str, &'static str),
    /// A file that stands unless an option does or a flag, whose names stand last.
    FileUnlessAny(&'static str, &'static str, &'static [&'static str]),
    /// An option that takes a text, with the name of the text in between, and that of the file in whose place it stands
    /// last.
    TextOption(&'static str, &'static str, &'static str, &'static str),
    /// An option that may have a value behind `=`, whose name stands in between; without one it has the value that
    /// stands last.
    OptionalValue(&'static str, &'static str, &'static str, &'static str),
    /// An option that isn't taken without another one, whose name stands last.
    OptionBeside(&'static str, &'static str, &'static str, &'static str),
    /// An option that takes one of the words that stand last, with what it takes in between.
    Choice(&'static str, &'static str, &'static str, &'static [&'static str]),
}

use Word::{
    Choice, File, FileOption, FileUnless, FileUnlessAny, Files, Flag, FlagAlone, FlagBeside,
    FlagWithout, OptionBeside, OptionalValue, TextOption,
};

/// What the help says of a subcommand, and the words that it takes.
struct Described {
    name: &'static str,
    about: &'static str,
    example: &'static str,
    words: &'static [Word],
}

/// The keymap text that a subcommand reads.
const TEXT: Word = File("TEXT", "The keymap text");

/// The keymap text, where it may be the standard input.
const STREAM: Word = File("TEXT", "The keymap text, or - for standard input");

/// The keymap texts of a subcommand that takes one after the other.
const TEXTS: Word = Files("TEXT", "The keymap texts");

/// The keymap texts, where one may be the standard input.
const STREAMS: Word = Files("TEXT", "The keymap texts, or - for standard input");

/// What `lint` may print in, the first one where nothing is said.
const FORMATS: [&str; 4] = ["text", "github", "json", "sarif"];

/// When `lint` may print in colours, the first one where nothing is said.
const COLOURS: [&str; 3] = ["auto", "always", "never"];

const NEXT: Word = FileOption("next", "TEXT2", "The keymap text that a load puts in force");

/// The form of a printed script, which is looked at where the words are taken, since it has a line of its own.
const AS: Word = FileOption(
    "as",
    "FORM",
    "The form of the script: script, evdev, set1, qmp or x11",
);

static SUBCOMMANDS: [Described; 11] = [
    Described {
        name: "check",
        about: "Accepts a keymap only if no key can leave a modifier on",
        example: "Example: kmap check --show de.kbd{n}{n}\
            Status: 0 accepted, 1 refused or a fault, 2 wrong words.{n}{n}\
            kmap(1) tells how to read the report.",
        words: &[
            TEXTS,
            Flag(
                "show",
                "Also prints key presses that leave a modifier on, if found",
            ),
            FlagWithout(
                "brief",
                "Prints one line a text, its name and the verdict",
                "show",
            ),
        ],
    },
    Described {
        name: "search",
        about: "Decides whether key presses can leave a modifier on",
        example: "Example: kmap search de.kbd{n}{n}\
            Status: 0 never sticks, 1 sticks or undecided, 2 a fault or wrong words.{n}{n}\
            kmap(1) tells how to read the answer.",
        words: &[STREAMS, NEXT],
    },
    Described {
        name: "diff",
        about: "Tells what differs between two keymaps, and whether anybody can notice",
        example: "Example: kmap diff old.kbd new.kbd{n}{n}\
            Status: 0 the same, 1 different, 2 a fault or wrong words.{n}{n}\
            kmap(1) tells how to read the answer.",
        words: &[
            STREAM,
            File("TEXT2", "The new keymap text, or -"),
            Flag(
                "brief",
                "Counts the slots and accents that differ, and prints no events",
            ),
        ],
    },
    Described {
        name: "lint",
        about: "Tells what is wrong or doubtful in keymap texts, and where",
        example: "Example: kmap lint de.kbd us.kbd{n}{n}\
            Status: 0 no error, 1 an error, 2 a text that can't be read or wrong words.{n}{n}\
            kmap(1) tells what to do about each kind.",
        words: &[
            STREAMS,
            Flag("strict", "Counts warnings as errors"),
            FileOption("name", "FILE", "The name that standard input is told under"),
            Choice("format", "FORMAT", "How to print what is found", &FORMATS),
            Flag("quiet", "Leaves the count of errors and warnings out"),
            Choice("color", "WHEN", "When to print in colours", &COLOURS),
        ],
    },
    Described {
        name: "fmt",
        about: "Writes keymap texts in one layout, and changes nothing else",
        example: "Example: kmap fmt de.kbd us.kbd{n}{n}\
            Status: 0 done, 1 a fault or with --check another layout, 2 wrong words.{n}{n}\
            kmap(1) tells what the layout is.",
        words: &[
            STREAMS,
            FlagWithout(
                "check",
                "Writes nothing, and fails where a text is not in the layout",
                "print",
            ),
            Flag("print", "Prints the texts in the layout instead"),
            Flag(
                "quote",
                "Writes characters between apostrophes, where they are seen there",
            ),
        ],
    },
    Described {
        name: "play",
        about: "Prints what the console answers to a script of key presses",
        example: "Example: kmap play --typed de.kbd de.script{n}{n}\
            Status: 0 done, 1 a fault, 2 wrong words.{n}{n}\
            kmap(1) tells what a script is.",
        words: &[
            TEXT,
            File("SCRIPT", "The script of key presses"),
            Flag("typed", "Prints the typed bytes instead"),
            NEXT,
        ],
    },
    Described {
        name: "type",
        about: "Prints a script of key presses that types a sentence",
        example: "Example: kmap type de.kbd sentence > script{n}{n}\
            Status: 0 done, 1 a fault or a missing character, 2 wrong words.{n}{n}\
            kmap(1) tells which keys are taken.",
        words: &[
            STREAM,
            FileUnlessAny(
                "SENTENCE",
                "A file with the sentence, in UTF-8, or -",
                &["text", "words"],
            ),
            TextOption("text", "STRING", "The sentence itself", "SENTENCE"),
            FlagWithout(
                "missing",
                "Prints the characters that no keys were found for instead",
                "as",
            ),
            FlagAlone(
                "words",
                "Prints in words by which keys each character is typed instead",
                "missing",
                "as",
            ),
            FlagBeside(
                "all",
                "Prints a way by each key that types it, not only the one taken",
                "words",
            ),
            AS,
            FileOption(
                "board",
                "BOARD",
                "The board whose keys are taken: 105 or 104",
            ),
        ],
    },
    Described {
        name: "cover",
        about: "Prints a script that tests a console with a keymap",
        example: "Example: kmap cover us.kbd > us.script{n}{n}\
            Status: 0 done, 1 a fault, 2 wrong words.{n}{n}\
            kmap(1) tells what the script tries.",
        words: &[
            STREAM,
            OptionalValue(
                "keyboard",
                "BOARD",
                "Tests by a board of 105 or 104 keys, in cases from rest to rest",
                "105",
            ),
            OptionBeside(
                "press",
                "NAMES",
                "Actions that are pressed too, as boot,screens",
                "keyboard",
            ),
            AS,
        ],
    },
    Described {
        name: "compile",
        about: "Writes the table file of a keymap text",
        example: "Example: kmap compile de.kbd de.tables{n}{n}\
            Status: 0 done, 1 a fault, 2 wrong words.{n}{n}\
            kmap(1) tells what OUT is good for.",
        words: &[
            TEXT,
            File("OUT", "The table file to create or replace"),
            Flag("narrow", "Writes a narrow file, one byte a character"),
        ],
    },
    Described {
        name: "dump",
        about: "Prints a table file as keymap text",
        example: "Example: kmap dump de.tables{n}{n}\
            Status: 0 done, 1 a fault, 2 wrong words.{n}{n}\
            kmap(5) tells what the text means.",
        words: &[
            File("TABLES", "The table file"),
            Flag("narrow", "Reads a narrow file"),
        ],
    },
    Described {
        name: "draw",
        about: "Draws keymaps as SVG pictures",
        example: "Example: kmap draw de.kbd > de.svg{n}{n}\
            Status: 0 done, 1 a fault, 2 wrong words.{n}{n}\
            kmap(1) tells how to read the picture.",
        words: &[
            STREAMS,
            Flag("ansi", "Draws a board of 104 keys in place of 105"),
            FileOption("title", "NAME", "The name in the headline"),
            FileOption(
                "old",
                "OLD",
                "The keymap text, or -, since which changes are marked",
            ),
        ],
    },
];

/// An argument that has a value, or one that has none.
fn named<'a>(alloc: Global, name: &'a str, help: &'a str, action: ArgAction) -> Arg<'a> {
    Arg::new(alloc, name).action(action).help(help)
}

/// A flag, which may stand more than once, as behind an alias that has it.
fn flag<'a>(alloc: Global, name: &'a str, help: &'a str) -> Result<Arg<'a>, AllocError> {
    let flag = named(alloc, name, help, ArgAction::SetTrue);
    flag.long(name).overrides_with(name)
}

fn argument<'a>(alloc: Global, word: Word) -> Result<Arg<'a>, AllocError> {
    match word {
        File(name, help) => Ok(named(alloc, name, help, ArgAction::Set).required(true)),
        Files(name, help) => {
            let files = named(alloc, name, help, ArgAction::Append).required(true);
            Ok(files.num_args(1..))
        }
        Flag(name, help) => flag(alloc, name, help),
        FlagWithout(name, help, other) => flag(alloc, name, help)?.conflicts_with(other),
        FlagAlone(name, help, first, second) => flag(alloc, name, help)?
            .conflicts_with(first)?
            .conflicts_with(second),
        FlagBeside(name, help, other) => flag(alloc, name, help)?.requires_arg(other),
        FileOption(name, value, help) => {
            let option = named(alloc, name, help, ArgAction::Set).long(name);
            Ok(option.value_name(value))
        }
        FileUnless(name, help, option) => {
            named(alloc, name, help, ArgAction::Set).required_unless_present(option)
        }
        FileUnlessAny(name, help, others) => {
            named(alloc, name, help, ArgAction::Set).required_unless_present_any(others)
        }
        TextOption(name, value, help, file) => {
            let option = named(alloc, name, help, ArgAction::Set).long(name);
            option.value_name(value).conflicts_with(file)
        }
        OptionalValue(name, value, help, missing) => {
            let option = named(alloc, name, help, ArgAction::Set).long(name);
            let optional = option.num_args(0..=1).require_equals(true);
            Ok(optional.value_name(value).default_missing_value(missing))
        }
        OptionBeside(name, value, help, other) => {
            let option = named(alloc, name, help, ArgAction::Set).long(name);
            option.value_name(value).requires_arg(other)
        }
        Choice(name, value, help, choices) => {
            let option = named(alloc, name, help, ArgAction::Set).long(name);
            Ok(option.value_name(value).value_parser(choices))
        }
    }
}

fn arguments<'a>(alloc: Global, words: &[Word]) -> Result<Vec<Arg<'a>>, AllocError> {
    let mut arguments = Vec::new(alloc);
    for word in words {
        arguments.push(argument(alloc, *word)?)?;
    }
    Ok(arguments)
}

fn subcommand<'a>(alloc: Global, described: &Described) -> Result<Command<'a>, AllocError> {
    let arguments = arguments(alloc, described.words)?;
    Command::new(alloc, described.name)
        .about(described.about)
        .after_help(described.example)
        .args(arguments)
}

fn subcommands<'a>(alloc: Global, described: &[Described]) -> Result<Vec<Command<'a>>, AllocError> {
    let mut subcommands = Vec::new(alloc);
    for one in described {
        subcommands.push(subcommand(alloc, one)?)?;
    }
    Ok(subcommands)
}

/// The program with these subcommands. What `clap` makes is owned where nothing fails, since a proof goes over all of
/// its fields at each way out.
fn command<'a>(alloc: Global, described: &[Described]) -> Result<Command<'a>, AllocError> {
    let subcommands = subcommands(alloc, described)?;
    Command::new(alloc, "kmap")
        .version(VERSION)
        .about("Reads, checks, converts, draws and plays console keymaps")
        .after_help(
            "Example: kmap check de.kbd{n}{n}The manual pages are kmap(1), kmap(3) and kmap(5).",
        )
        .subcommand_required(true)
        .arg_required_else_help(true)
        .subcommands(subcommands)
}

/// All subcommands. What names the table itself is proved over all that stands in it, so this alone does.
fn all_subcommands() -> &'static [Described] {
    &SUBCOMMANDS
}

/// The subcommands that words can be about: the one that the first word behind the name of the program names, since
/// `clap` looks at no other then, whatever it tells of the words; all where it names none.
fn named_by<S: AsStr>(words: &[S]) -> &'static [Described] {
    let all = all_subcommands();
    let Some(word) = words.get(1) else {
        return all;
    };
    match all.iter().position(|one| one.name == word.as_str()) {
        Some(place) => &all[place..=place],
        None => all,
    }
}

/// What `clap` takes the words for.
pub(crate) fn matches_of<'a, S>(alloc: Global, words: &'a [S]) -> Result<ArgMatches<'a>, Error>
where
    S: AsStr,
{
    command(alloc, named_by(words))?.try_get_matches_from(words)
}

/// A refusal as `clap` words its own.
pub(crate) fn refusal(alloc: Global, kind: ErrorKind, message: &str) -> Result<Error, AllocError> {
    command(alloc, all_subcommands())?.error(kind, message)
}

/// What is told of a text that is checked.
#[derive(Clone, Copy)]
pub(crate) enum CheckMode {
    /// The report.
    Report,
    /// The report, with key presses that leave a modifier on.
    Show,
    /// The verdict alone, in a line with the name of the text.
    Brief,
}

/// A sentence that is typed.
#[derive(Clone, Copy, Drop)]
pub(crate) enum Sentence<'a> {
    File(&'a str),
    Text(&'a str),
}

/// When `lint` prints in colours.
#[derive(Clone, Copy)]
pub(crate) enum Colour {
    /// On a terminal.
    Auto,
    Always,
    Never,
}

/// How texts are linted.
#[derive(Clone, Copy, Drop)]
pub(crate) struct LintMode<'a> {
    /// What stands for the name of the standard input.
    pub(crate) name: Option<&'a str>,
    /// Warnings count as errors.
    pub(crate) is_strict: bool,
    /// It isn't told how many errors and warnings there are.
    pub(crate) is_quiet: bool,
    pub(crate) format: Format,
    pub(crate) colour: Colour,
}

/// What is done with the layout of a text.
#[derive(Clone, Copy)]
pub(crate) enum FmtMode {
    /// The layout is written in place of the text.
    Write,
    /// The layout is compared with the text.
    Check,
    /// The layout is printed.
    Print,
}

/// What the words ask for.
#[derive(Clone, Copy, Drop)]
pub(crate) enum Request<'m, 'a> {
    Dump {
        tables: &'a str,
        narrow: bool,
    },
    Compile {
        text: &'a str,
        out: &'a str,
        narrow: bool,
    },
    Check {
        texts: &'m [&'a str],
        mode: CheckMode,
    },
    Lint {
        texts: &'m [&'a str],
        mode: LintMode<'a>,
    },
    Fmt {
        texts: &'m [&'a str],
        mode: FmtMode,
        characters: Characters,
    },
    Search {
        texts: &'m [&'a str],
        next: Option<&'a str>,
    },
    Diff {
        text: &'a str,
        next: &'a str,
        is_brief: bool,
    },
    Play {
        text: &'a str,
        next: Option<&'a str>,
        script: &'a str,
        typed: bool,
    },
    Type {
        text: &'a str,
        sentence: Sentence<'a>,
        missing: bool,
        /// The form of the script, where one is named.
        form: Option<&'a str>,
        /// The board whose keys are taken, where one is named.
        board: Option<&'a str>,
    },
    /// By which keys characters are typed, those of a sentence, where one is given.
    Words {
        text: &'a str,
        sentence: Option<Sentence<'a>>,
        told: WaysTold,
        board: Option<&'a str>,
    },
    Cover {
        text: &'a str,
        /// The board, where the test is one by a keyboard, and the names of the actions that it presses too.
        keyboard: Option<&'a str>,
        press: Option<&'a str>,
        form: Option<&'a str>,
    },
    Draw {
        texts: &'m [&'a str],
        ansi: bool,
        /// The name in the headline, where one is given.
        title: Option<&'a str>,
        /// The text of the keymap since which changes are marked.
        old: Option<&'a str>,
    },
}

fn dump_request<'m, 'a>(words: &'m ArgMatches<'a>) -> Option<Request<'m, 'a>> {
    Some(Request::Dump {
        tables: words.get_str("TABLES")?,
        narrow: words.get_flag("narrow"),
    })
}

fn compile_request<'m, 'a>(words: &'m ArgMatches<'a>) -> Option<Request<'m, 'a>> {
    Some(Request::Compile {
        text: words.get_str("TEXT")?,
        out: words.get_str("OUT")?,
        narrow: words.get_flag("narrow"),
    })
}

fn check_request<'m, 'a>(words: &'m ArgMatches<'a>) -> Option<Request<'m, 'a>> {
    let mode = if words.get_flag("show") {
        CheckMode::Show
    } else if words.get_flag("brief") {
        CheckMode::Brief
    } else {
        CheckMode::Report
    };
    Some(Request::Check {
        texts: words.get_strs("TEXT")?,
        mode,
    })
}

/// The format of one of `FORMATS`.
fn format_of(word: Option<&str>) -> Format {
    match word {
        Some("github") => Format::Github,
        Some("json") => Format::Json,
        Some("sarif") => Format::Sarif,
        _ => Format::Text,
    }
}

/// The choice of one of `COLOURS`.
fn colour_of(word: Option<&str>) -> Colour {
    match word {
        Some("always") => Colour::Always,
        Some("never") => Colour::Never,
        _ => Colour::Auto,
    }
}

fn lint_request<'m, 'a>(words: &'m ArgMatches<'a>) -> Option<Request<'m, 'a>> {
    Some(Request::Lint {
        texts: words.get_strs("TEXT")?,
        mode: LintMode {
            name: words.get_str("name"),
            is_strict: words.get_flag("strict"),
            is_quiet: words.get_flag("quiet"),
            format: format_of(words.get_str("format")),
            colour: colour_of(words.get_str("color")),
        },
    })
}

fn fmt_request<'m, 'a>(words: &'m ArgMatches<'a>) -> Option<Request<'m, 'a>> {
    let mode = if words.get_flag("check") {
        FmtMode::Check
    } else if words.get_flag("print") {
        FmtMode::Print
    } else {
        FmtMode::Write
    };
    let characters = if words.get_flag("quote") {
        Characters::Quoted
    } else {
        Characters::Kept
    };
    Some(Request::Fmt {
        texts: words.get_strs("TEXT")?,
        mode,
        characters,
    })
}

fn search_request<'m, 'a>(words: &'m ArgMatches<'a>) -> Option<Request<'m, 'a>> {
    Some(Request::Search {
        texts: words.get_strs("TEXT")?,
        next: words.get_str("next"),
    })
}

fn diff_request<'m, 'a>(words: &'m ArgMatches<'a>) -> Option<Request<'m, 'a>> {
    Some(Request::Diff {
        text: words.get_str("TEXT")?,
        next: words.get_str("TEXT2")?,
        is_brief: words.get_flag("brief"),
    })
}

fn play_request<'m, 'a>(words: &'m ArgMatches<'a>) -> Option<Request<'m, 'a>> {
    Some(Request::Play {
        text: words.get_str("TEXT")?,
        next: words.get_str("next"),
        script: words.get_str("SCRIPT")?,
        typed: words.get_flag("typed"),
    })
}

/// Which ways are told of each character.
fn ways_told(words: &ArgMatches<'_>) -> WaysTold {
    if words.get_flag("all") {
        WaysTold::ByEachKey
    } else {
        WaysTold::Taken
    }
}

fn type_request<'m, 'a>(words: &'m ArgMatches<'a>) -> Option<Request<'m, 'a>> {
    let sentence = match (words.get_str("text"), words.get_str("SENTENCE")) {
        (Some(text), _) => Some(Sentence::Text(text)),
        (None, Some(name)) => Some(Sentence::File(name)),
        (None, None) => None,
    };
    if words.get_flag("words") {
        return Some(Request::Words {
            text: words.get_str("TEXT")?,
            sentence,
            told: ways_told(words),
            board: words.get_str("board"),
        });
    }
    Some(Request::Type {
        text: words.get_str("TEXT")?,
        sentence: sentence?,
        missing: words.get_flag("missing"),
        form: words.get_str("as"),
        board: words.get_str("board"),
    })
}

fn cover_request<'m, 'a>(words: &'m ArgMatches<'a>) -> Option<Request<'m, 'a>> {
    Some(Request::Cover {
        text: words.get_str("TEXT")?,
        keyboard: words.get_str("keyboard"),
        press: words.get_str("press"),
        form: words.get_str("as"),
    })
}

fn draw_request<'m, 'a>(words: &'m ArgMatches<'a>) -> Option<Request<'m, 'a>> {
    Some(Request::Draw {
        texts: words.get_strs("TEXT")?,
        ansi: words.get_flag("ansi"),
        title: words.get_str("title"),
        old: words.get_str("old"),
    })
}

/// The request of words that `clap` took.
pub(crate) fn request_of<'m, 'a>(matches: &'m ArgMatches<'a>) -> Option<Request<'m, 'a>> {
    let (name, words) = matches.subcommand()?;
    match name {
        "dump" => dump_request(words),
        "compile" => compile_request(words),
        "check" => check_request(words),
        "lint" => lint_request(words),
        "fmt" => fmt_request(words),
        "search" => search_request(words),
        "diff" => diff_request(words),
        "play" => play_request(words),
        "type" => type_request(words),
        "cover" => cover_request(words),
        "draw" => draw_request(words),
        _ => None,
    }
}

/// How many of these names stand for the standard input.
fn inputs_among(names: &[&str]) -> usize {
    names.iter().filter(|name| is_standard_input(name)).count()
}

/// Whether a request reads the standard input more than once.
fn reads_twice(request: &Request<'_, '_>) -> bool {
    match request {
        Request::Lint { texts, .. }
        | Request::Fmt { texts, .. }
        | Request::Draw {
            texts,
            old: None,
            ..
        }
        | Request::Search { texts, next: None } => inputs_among(texts) > 1,
        Request::Search {
            texts,
            next: Some(other),
        }
        | Request::Draw {
            texts,
            old: Some(other),
            ..
        } => inputs_among(texts) > usize::from(!is_standard_input(other)),
        Request::Diff {
            text,
            next: other,
            ..
        }
        | Request::Type {
            text,
            sentence: Sentence::File(other),
            ..
        }
        | Request::Words {
            text,
            sentence: Some(Sentence::File(other)),
            ..
        } => { is_standard_input(text) && is_standard_input(other) }
        _ => false,
    }
}

/// Why words that `clap` took can't stand together, if they can't.
pub(crate) fn contradiction(request: &Request<'_, '_>) -> Option<&'static str> {
    if reads_twice(request) {
        return Some("'-' is standard input, which can be given only once");
    }
    match request {
        Request::Lint { texts, mode } => contradiction_of_name(texts, mode.name),
        _ => None,
    }
}

/// Why a name can't stand for that of the standard input, if it can't.
fn contradiction_of_name(texts: &[&str], name: Option<&str>) -> Option<&'static str> {
    match name {
        Some("") => Some("a value is required for '--name <FILE>' but none was supplied"),
        Some(_) if inputs_among(texts) == 0 => {
            Some("'--name <FILE>' is a name for standard input, and no TEXT is '-'")
        }
        _ => None,
    }
}
