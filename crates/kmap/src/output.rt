//! The standard output, and the standard error, which gets the lines of faults.
ghost use Rattle.std.specs.Prelude.{None};

use crate::program::Failure;
use keymap_core::{Failed, ToStd, Write, write_text};
use kmap_runs::{CommandError, RunError};
use std::io;
use std::io::{Stderr, Write as _};

/// Where a fault gets its line.
pub(crate) type Faults = ToStd<Stderr>;

/// Writes a text at once.
pub(crate) fn tell<'n>(rt: &HostRuntime, text: &[u8]) -> Result<(), Failure<'n>> {
    let mut out = Output::new(rt);
    let told = write_text(&mut out, text).map_err(RunError::Write);
    out.outcome(told)
}

/// The standard output, and what became of it.
#[derive(Drop)]
pub(crate) struct Output<'a> {
    rt: &'a HostRuntime,
    has_failed: bool,
    is_empty: bool,
    has_reader: bool,
}

impl<'a> Output<'a> {
    pub(crate) fn new(rt: &'a HostRuntime) -> Output<'a> {
        Output {
            rt,
            has_failed: false,
            is_empty: true,
            has_reader: true,
        }
    }

    /// Whether nothing was written.
    pub(crate) fn is_empty(&self) -> bool {
        self.is_empty
    }

    /// The outcome of a command that wrote here. It isn't told that a reader has gone away.
    pub(crate) fn outcome<'n, T, E: Into<CommandError>>(
        &self,
        outcome: Result<T, E>,
    ) -> Result<T, Failure<'n>> {
        match outcome {
            Ok(value) => Ok(value),
            Err(error) => Err(self.failure(None, error.into())),
        }
    }

    /// The outcome of a command on one file of many, whose name is told unless the output failed.
    pub(crate) fn file_outcome<'n, T, E: Into<CommandError>>(
        &self,
        file: &'n str,
        outcome: Result<T, E>,
    ) -> Result<T, Failure<'n>> {
        match outcome {
            Ok(value) => Ok(value),
            Err(error) => Err(self.failure(Some(file), error.into())),
        }
    }

    fn failure<'n>(&self, file: Option<&'n str>, error: CommandError) -> Failure<'n> {
        match error {
            CommandError::Run(RunError::Write(_)) if !self.has_reader => Failure::NoReader,
            CommandError::Run(RunError::Write(_)) => Failure::Command(None, error),
            _ => Failure::Command(file, error),
        }
    }
}

impl Write for Output<'_> {
    ghost contents = { λ _. None };

    ghost has_failed = { λ output. output.has_failed };

    fn write(&mut self, bytes: &[u8]) -> Result<usize, Failed> {
        match io::writer(self.rt).write(bytes) {
            Ok(0) if !bytes.is_empty() => {
                self.has_failed = true;
                Err(Failed)
            }
            Ok(count) => {
                self.is_empty = self.is_empty && count == 0;
                Ok(count)
            }
            Err(error) => {
                self.has_failed = true;
                self.has_reader = error.kind() != io::ErrorKind::BrokenPipe;
                Err(Failed)
            }
        }
    }

    fn failed(&self) -> bool {
        self.has_failed
    }
}
