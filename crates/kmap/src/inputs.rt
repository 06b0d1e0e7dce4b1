//! The files that are read, and the standard input, for which `-` stands where a command takes it.
use crate::program::{Failure, FileFault};
use keymap_core::{FromStd, ReadError};
use kmap_runs::RunError;
use play_core::read_whole;
use std::fs::File;
use std::io::{BufReader, Read, StdinLock};
use std::{fs, io};

/// How many bytes of a file are asked for at once.
const READ_AHEAD: usize = 16_384;

/// A file that is read. The libraries ask for few bytes at a time, and the buffer asks the file for many. It hands on
/// what one read of the file gave before it reads again, so what comes by a pipe or a terminal isn't waited for.
pub(crate) type Source<F> = FromStd<BufReader<F>>;

/// What a name stands for.
#[derive(Drop)]
pub(crate) enum Origin {
    File(File),
    StandardInput(StdinLock<'static>),
}

impl Read for Origin {
    fn read(&mut self, buf: &mut [u8]) -> io::Result<usize> {
        match self {
            Origin::File(file) => file.read(buf),
            Origin::StandardInput(input) => input.read(buf),
        }
    }
}

/// Whether a name stands for the standard input.
pub(crate) fn is_standard_input(name: &str) -> bool {
    name == "-"
}

/// The file of a name that is taken as given.
pub(crate) fn opened<'a>(rt: &HostRuntime, name: &'a str) -> Result<Source<File>, Failure<'a>> {
    buffered(rt, opened_file(rt, name)?)
}

/// The second text, where one is named.
pub(crate) fn opened_if_named<'a>(
    rt: &HostRuntime,
    name: Option<&'a str>,
) -> Result<Option<Source<File>>, Failure<'a>> {
    match name {
        Some(name) => Ok(Some(opened(rt, name)?)),
        None => Ok(None),
    }
}

/// What a name stands for, where it may be the standard input.
pub(crate) fn given<'a>(rt: &HostRuntime, name: &'a str) -> Result<Source<Origin>, Failure<'a>> {
    buffered(
        rt,
        if is_standard_input(name) {
            Origin::StandardInput(rt.reader())
        } else {
            Origin::File(opened_or_why(rt, name)?)
        },
    )
}

pub(crate) fn opened_file<'a>(rt: &HostRuntime, name: &'a str) -> Result<File, Failure<'a>> {
    match fs::open(rt, name) {
        Ok(file) => Ok(file),
        Err(_) => Err(Failure::File(name, FileFault::CannotOpen)),
    }
}

/// The file of a name, or why it can't be opened.
pub(crate) fn opened_or_why<'a>(rt: &HostRuntime, name: &'a str) -> Result<File, Failure<'a>> {
    match fs::open(rt, name) {
        Ok(file) => Ok(file),
        Err(error) => Err(Failure::File(name, FileFault::CannotOpenFor(error.kind()))),
    }
}

/// A keymap text in memory, so that its faults can be told as `lint` tells them.
#[derive(Drop)]
pub(crate) struct Text<'a> {
    pub(crate) name: &'a str,
    bytes: Vec<u8>,
}

impl<'a> Text<'a> {
    /// A reader of the text from its beginning.
    pub(crate) fn reader(&self) -> FromStd<&[u8]> {
        FromStd::new(self.bytes.as_slice())
    }
}

/// The text of a name, which may stand for the standard input.
pub(crate) fn text_given<'a>(rt: &HostRuntime, name: &'a str) -> Result<Text<'a>, Failure<'a>> {
    text_of(rt, name, given(rt, name)?)
}

/// A second text, where one is named.
pub(crate) fn text_if_named<'a>(
    rt: &HostRuntime,
    name: Option<&'a str>,
) -> Result<Option<Text<'a>>, Failure<'a>> {
    match name {
        Some(name) => Ok(Some(text_given(rt, name)?)),
        None => Ok(None),
    }
}

/// The text in a file of a name that is taken as given.
pub(crate) fn text_in_file<'a>(rt: &HostRuntime, name: &'a str) -> Result<Text<'a>, Failure<'a>> {
    text_of(rt, name, buffered(rt, opened_or_why(rt, name)?)?)
}

fn text_of<'a, F: Read + Drop>(
    rt: &HostRuntime,
    name: &'a str,
    mut source: Source<F>,
) -> Result<Text<'a>, Failure<'a>> {
    match read_whole(rt.alloc(), &mut source) {
        Ok(bytes) => Ok(Text { name, bytes }),
        Err(ReadError::Memory) => Err(Failure::of_run(RunError::Memory)),
        Err(ReadError::Read(fault)) => {
            let error = RunError::ReadText(fault);
            Err(Failure::Command(Some(name), error.into()))
        }
    }
}

pub(crate) fn buffered<'a, F: Read + Drop>(
    rt: &HostRuntime,
    file: F,
) -> Result<Source<F>, Failure<'a>> {
    match BufReader::with_capacity(rt.alloc(), READ_AHEAD, file) {
        Ok(buffered) => Ok(FromStd::new(buffered)),
        Err(_) => Err(Failure::of_run(RunError::Memory)),
    }
}
