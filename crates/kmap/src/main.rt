//! `kmap`: reads, checks, converts, draws and plays the console keymaps of FreeBSD.
//!
//! The runs of the program are those of `kmap_runs`, and `play` and `play_next` of `play_core`. Here the command line
//! is read (`clap`), the files that it names are opened, and the exit status is made of what comes back.
#![tactic(auto)]

mod command_line;
mod compile;
mod format;
mod forms;
mod inputs;
mod keyboards;
mod lint;
mod output;
mod program;
mod refusal;
mod replace;
mod texts;

use keymap_core::ToStd;
use std::process::ExitCode;

fn main(rt: HostRuntime) -> ExitCode {
    let mut faults = ToStd::new(rt.stderr());
    program::run(&rt, &mut faults)
}
