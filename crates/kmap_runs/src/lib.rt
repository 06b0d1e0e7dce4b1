//! The runs of the program `kmap` over any reader and writer, and the line that tells why a run failed.
//!
//! `check_run` writes the report of the check on the map that a text spells, `check_brief_run` its verdict in a line
//! with the name of the file, `search_run` what the search for sticking modifiers found, under one map or between those
//! of two texts; `lint_run` writes the diagnostics of a text in a format, `fmt_print_run` the text in the layout, which
//! `fmt_run` hands out where it differs, `draw_run` a picture of its map, `cover_run` a script that tests a console,
//! `keyboard_cover_run` one that tests it by its keyboard, and `type_run` one that types a sentence, whose presses
//! `type_sentence` finds, and of which `missing_run` tells the characters that keys can't type; `compile_run` and
//! `compile_narrow_run` write the table file of a text, `dump_run` and `dump_narrow_run` print the map of one. Playing is
//! `play` and `play_next` of `play_core`, whose errors `RunError` takes over. `write_run_error` writes the line of the
//! `RunError` that a run answers, and `write_command_error` that of the `CommandError` of those that lay out, type and
//! test, which fail for reasons of their own too.
//!
//! Below the crate stand all other libraries of the workspace but that for C, and nothing that opens files or reads a
//! command line. Each contract says with one definition, `Runs` of `play_core`, which inputs were read to which values
//! (`specs/Inputs.antt`), and which text was given of them (`specs/Runs.antt`): it was written, or after a fault of the
//! writer its first bytes, and nothing after any other refusal; a device is blamed only if it failed. Those of
//! `fmt_run` and `fmt_print_run` say so in definitions of their own (`specs/FmtRuns.antt`). The module `laws` says that
//! what is printed as a script is one, what it does when it is played, and what else holds of what a run writes.
#![tactic(auto)]

mod brief_runs;
mod change_runs;
mod cover_runs;
mod diff_runs;
mod fault_line;
mod fmt_runs;
mod inputs;
mod keyboard_runs;
pub mod laws;
mod lint_runs;
mod missing;
mod missing_runs;
mod report;
mod runs;
mod search;
mod search_runs;
mod sentence;
mod spelling;
mod type_error;
mod type_runs;
mod typing;
mod way_order;
mod word_lines;
mod words;
mod words_runs;

pub use brief_runs::check_brief_run;
pub use change_runs::draw_change_run;
pub use cover_runs::cover_run;
pub use diff_runs::diff_run;
pub use fault_line::{
    CommandError, RunError, file_error_line, write_command_error, write_run_error,
};
pub use fmt_runs::{fmt_print_run, fmt_run};
pub use keyboard_runs::keyboard_cover_run;
pub use lint_runs::{Linted, lint_run};
pub use missing_runs::missing_run;
pub use runs::{check_run, compile_narrow_run, compile_run, draw_run, dump_narrow_run, dump_run};
pub use search_runs::search_run;
pub use sentence::type_sentence;
pub use type_error::TypeError;
pub use type_runs::type_run;
pub use word_lines::WaysTold;
pub use words_runs::{type_sheet_run, type_words_run};
