//! Readers and writers of std that fail once, and would do their work if they were called again.

ghost use Rattle.std.specs.Prelude.{◌≤◌, IfOk};

use crate::asserts::expect_equal;
use keymap_core::{
    Failed, FromStd, Read, ReadError, ReadFault, ReadFaultKind, ToStd, Write, WriteFault,
    read_up_to, write_text,
};
use std::io;

/// Fails at its first call, by an error or, with none, by doing nothing. Each later call gives or takes one byte.
#[derive(Drop)]
struct FailsOnce {
    error: Option<io::ErrorKind>,
    calls: u32,
}

fn failing_once(error: Option<io::ErrorKind>) -> FailsOnce {
    FailsOnce { error, calls: 0 }
}

impl FailsOnce {
    fn call(&mut self, room: usize) -> io::Result<usize>
        ensures { IfOk result (λ n. n ≤ room) }
    {
        self.calls = self.calls.saturating_add(1);
        if self.calls > 1 {
            return Ok(room.min(1));
        }
        match self.error {
            Some(kind) => Err(io::Error::from(kind)),
            None => Ok(0),
        }
    }
}

impl io::Read for FailsOnce {
    fn read(&mut self, buffer: &mut [u8]) -> io::Result<usize> {
        self.call(buffer.len())
    }
}

impl io::Write for FailsOnce {
    fn write(&mut self, bytes: &[u8]) -> io::Result<usize> {
        self.call(bytes.len())
    }

    fn flush(&mut self) -> io::Result<()> {
        Ok(())
    }
}

/// Kinds of errors. Those of an interruption are the ones that std's own loops try again.
static KINDS: [io::ErrorKind; 4] = [
    io::ErrorKind::Interrupted,
    io::ErrorKind::WouldBlock,
    io::ErrorKind::OutOfMemory,
    io::ErrorKind::Other,
];

/// A call of the device is one call of the reader, and its flag stays; a loop over the device ends with the failure.
#[test]
fn a_read_of_std_is_made_once(rt: HostRuntime) {
    let (offset, kind) = (0, ReadFaultKind::Device);
    let wanted = ReadFault { offset, kind };
    for &kind in &KINDS {
        let mut reader = failing_once(Some(kind));
        let mut device = FromStd::new(&mut reader);
        let mut buffer = [0; 4];
        let answers = (device.read(&mut buffer), device.failed());
        let answers_again = (device.read(&mut buffer), device.failed());
        let given = (answers, answers_again, reader.calls);
        expect_equal(&rt, given, ((Err(Failed), true), (Ok(1), true), 2));
        let mut reader = failing_once(Some(kind));
        let answer = read_up_to(rt.alloc(), &mut FromStd::new(&mut reader), 4).err();
        let given = (answer, reader.calls);
        expect_equal(&rt, given, (Some(ReadError::Read(wanted)), 1));
    }
}

/// A write of std is made once also where it fails, or takes nothing.
#[test]
fn a_write_of_std_is_made_once(rt: HostRuntime) {
    for &kind in &KINDS {
        let mut writer = failing_once(Some(kind));
        let mut device = ToStd::new(&mut writer);
        let answers = (device.write(b"1234"), device.failed());
        let answers_again = (device.write(b"1234"), device.failed());
        let given = (answers, answers_again, writer.calls);
        expect_equal(&rt, given, ((Err(Failed), true), (Ok(1), true), 2));
    }
    for error in [
        Some(io::ErrorKind::Interrupted),
        Some(io::ErrorKind::Other),
        None,
    ] {
        let mut writer = failing_once(error);
        let answer = write_text(&mut ToStd::new(&mut writer), b"1234");
        let given = (answer, writer.calls);
        expect_equal(&rt, given, (Err(WriteFault { written: 0 }), 1));
    }
}
