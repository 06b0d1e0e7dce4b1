//! Files that are written whole or not at all: the bytes go into a new file beside the old one, which takes its name
//! once they are on the disk. Where a step fails, the new file is removed and the old one has not changed.
//!
//! Beside the file of another user the new one mostly can't get its owner, or its name. Then the bytes are written into
//! the old file too, and only then the new one is removed: at each moment one of the two is whole, with the old bytes
//! or the new ones.
//!
//! Whoever may write the folder can put another file under a name at any time. So the new file gets its owner, group
//! and rights by its descriptor, before a byte is in it, and takes the place of the old one only if both names still
//! stand for what was looked at. What is written in place is looked at by its descriptor.
use keymap_core::{ToStd, WriteFault, write_text};
use std::alloc::{AllocError, Global};
use std::fs::{File, Files, Metadata, OpenOptions, Permissions};
use std::os::unix::fs::{MetadataExt, OpenOptionsExt, PermissionsExt, fchown};
use std::{fs, io};

/// Why a file was not replaced.
#[derive(Drop)]
pub(crate) enum ReplaceFault {
    Memory,
    /// The old file may not be written.
    NotWritable,
    /// The folder takes no new file, which was to have this name.
    TakesNone(String),
    /// The new file, which was to have this name, can't be made.
    CannotCreate(String),
    /// The new file can't be written or flushed.
    Write(WriteFault),
    /// The old file can't be written to its end. The new one stays beside it, with all bytes.
    Partly(WriteFault),
    /// The old file isn't as it was when it was read.
    Changed,
    /// The new file can't get the name of the old one, and that isn't the file that was looked at.
    CannotReplace,
}

impl From<AllocError> for ReplaceFault {
    fn from(_: AllocError) -> ReplaceFault {
        ReplaceFault::Memory
    }
}

/// The rights of a new file until it gets those of the old one: its owner's alone.
const PRIVATE: u32 = 0o600;

/// The bits of a mode that are rights: to read, write and run, of the owner, the group and all others.
const RIGHTS: u32 = 0o777;

/// How many names are tried for a new file. Each that is taken belongs to another run, or to one that was ended.
const NAMES: u32 = 1000;

/// What is known of the old file, whose place a new one takes.
#[derive(Drop)]
pub(crate) enum Old {
    Absent,
    /// The old file is to belong to the same owner still.
    Owned(Metadata),
    /// The old file was read, and is to be as it was before.
    Read(Metadata),
}

impl Old {
    fn is_absent(&self) -> bool {
        matches!(self, Old::Absent)
    }

    /// How many bytes its text has; 0 where it is no text.
    fn text_length(&self) -> usize {
        match self {
            Old::Absent | Old::Owned(_) => 0,
            Old::Read(old) => old.size() as usize,
        }
    }

    /// Why what is found under its name now isn't replaced, if it isn't.
    fn refusal(&self, found: io::Result<Metadata>) -> Option<ReplaceFault> {
        match (self, found) {
            (Old::Absent, _) => None,
            (Old::Owned(old), Ok(found)) if found.is_file() && has_same_owner(&found, old) => None,
            (Old::Read(old), Ok(found)) if is_unchanged(&found, old) => None,
            (Old::Owned(_), _) => Some(ReplaceFault::CannotReplace),
            (Old::Read(_), _) => Some(ReplaceFault::Changed),
        }
    }

    /// Why a file that is open now isn't written in its place, if it isn't.
    fn refusal_in_place(&self, found: io::Result<Metadata>) -> Option<ReplaceFault> {
        match (self, found) {
            (Old::Owned(old), Ok(found)) if is_same(&found, old) => None,
            (Old::Absent | Old::Owned(_), _) => Some(ReplaceFault::CannotReplace),
            (Old::Read(_), found) => self.refusal(found),
        }
    }
}

/// The name of the file itself where a name is a link to it.
fn target_of(rt: &HostRuntime, name: &str) -> Result<String, ReplaceFault> {
    match fs::symlink_metadata(rt, name) {
        Ok(metadata) if metadata.is_symlink() => match rt.canonicalize(rt.alloc(), name) {
            Ok(path) => Ok(path.into_string()),
            Err(error) if error.kind() == io::ErrorKind::OutOfMemory => Err(ReplaceFault::Memory),
            Err(_) => Err(ReplaceFault::CannotReplace),
        },
        _ => Ok(String::from_str(rt.alloc(), name)?),
    }
}

/// Whether a file may be written.
fn is_writable(rt: &HostRuntime, name: &str) -> bool {
    OpenOptions::new().write(true).open(rt, name).is_ok()
}

/// Whether two are known by the same device and number, and so are one file.
pub(crate) fn is_same(one: &Metadata, other: &Metadata) -> bool {
    one.dev() == other.dev() && one.ino() == other.ino()
}

/// Whether a file is the one that this is known of, and nobody has changed it since.
fn is_unchanged(found: &Metadata, old: &Metadata) -> bool {
    is_same(found, old)
        && found.size() == old.size()
        && found.ctime() == old.ctime()
        && found.ctime_nsec() == old.ctime_nsec()
}

/// Whether two files belong to the same owner and the same group.
fn has_same_owner(one: &Metadata, other: &Metadata) -> bool {
    one.uid() == other.uid() && one.gid() == other.gid()
}

/// The name of a new file beside a target: the suffix behind it, and a number from the second one on.
fn new_name(alloc: Global, target: &str, suffix: &str, number: u32) -> Result<String, AllocError> {
    if number == 1 {
        format!(in alloc; "{target}{suffix}")
    } else {
        format!(in alloc; "{target}{suffix}-{number}")
    }
}

/// Makes a file that isn't there. One that is to get the owner of another is nobody else's until then.
fn created(rt: &HostRuntime, name: &str, is_private: bool) -> io::Result<File> {
    let mut how = OpenOptions::new();
    how.write(true).create_new(true);
    if is_private {
        how.mode(PRIVATE);
    }
    how.open(rt, name)
}

/// Why a new file of this name can't be made. A folder that may not be written, or is on a disk that isn't, takes none,
/// and no folder takes a name that is too long.
fn why_not_created(name: String, why: io::ErrorKind) -> ReplaceFault {
    match why {
        io::ErrorKind::PermissionDenied
        | io::ErrorKind::ReadOnlyFilesystem
        | io::ErrorKind::InvalidFilename => ReplaceFault::TakesNone(name),
        _ => ReplaceFault::CannotCreate(name),
    }
}

/// Makes a new file without a byte beside a target. It has the suffix behind the name of that; where others have such a
/// name, also a number.
fn new_file(
    rt: &HostRuntime,
    target: &str,
    suffix: &str,
    is_private: bool,
) -> Result<(String, File), ReplaceFault> {
    for number in 1..=NAMES {
        let name = new_name(rt.alloc(), target, suffix, number)?;
        match created(rt, name.as_str(), is_private) {
            Ok(file) => return Ok((name, file)),
            Err(error) if error.kind() == io::ErrorKind::AlreadyExists => {}
            Err(error) => return Err(why_not_created(name, error.kind())),
        }
    }
    let last = new_name(rt.alloc(), target, suffix, NAMES)?;
    Err(ReplaceFault::CannotCreate(last))
}

/// Gives a new file the owner, group and rights of an old one, if there is one.
fn give_owner_and_rights(file: &File, old: &Old) -> io::Result<()> {
    match old {
        Old::Absent => Ok(()),
        Old::Owned(old) | Old::Read(old) => {
            let new = file.metadata()?;
            if !has_same_owner(&new, old) {
                fchown(file, Some(old.uid()), Some(old.gid()))?;
            }
            file.set_permissions(Permissions::from_mode(old.mode() & RIGHTS))
        }
    }
}

/// Bytes, and line feeds behind them up to a length: where a run is ended that has written them over a longer text, and
/// has not yet cut that off, the next one reads the new text, and nothing that is left of the old one.
fn padded(alloc: Global, bytes: &[u8], length: usize) -> Result<Vec<u8>, AllocError> {
    let mut padded = Vec::from_elem(alloc, b'\n', length.max(bytes.len()))?;
    padded[..bytes.len()].copy_from_slice(bytes);
    Ok(padded)
}

/// Writes bytes, and ends the file behind so many of them, which are on the disk then.
fn write_whole(file: &mut File, bytes: &[u8], length: usize) -> Result<(), WriteFault> {
    write_text(&mut ToStd::new(&mut *file), bytes)?;
    let written = length as u64;
    if file.set_len(written).is_ok() && file.sync_all().is_ok() {
        Ok(())
    } else {
        Err(WriteFault { written })
    }
}

/// Writes bytes into a new file, which takes the place of the file of this name, of which this is known. The new file
/// has the suffix behind that name until then.
pub(crate) fn replace(
    rt: &HostRuntime,
    name: &str,
    old: &Old,
    suffix: &str,
    bytes: &[u8],
) -> Result<(), ReplaceFault> {
    let target = target_of(rt, name)?;
    replace_target(rt, target.as_str(), old, suffix, bytes)
}

fn replace_target(
    rt: &HostRuntime,
    target: &str,
    old: &Old,
    suffix: &str,
    bytes: &[u8],
) -> Result<(), ReplaceFault> {
    if !old.is_absent() && !is_writable(rt, target) {
        return Err(ReplaceFault::NotWritable);
    }
    let (name, mut file) = new_file(rt, target, suffix, !old.is_absent())?;
    let replacement = Replacement {
        target,
        name: name.as_str(),
        old,
    };
    let outcome = replacement.put(rt, &mut file, bytes);
    if !matches!(outcome, Err(ReplaceFault::Partly(_))) {
        replacement.remove(rt, &file);
    }
    outcome
}

/// A new file that is to take the place of another.
#[derive(Clone, Copy)]
struct Replacement<'a> {
    /// The name of the file whose place it takes.
    target: &'a str,
    /// The new file's own name until then.
    name: &'a str,
    old: &'a Old,
}

impl Replacement<'_> {
    /// Writes the new file and puts it in the place of the old one, or its bytes.
    fn put(&self, rt: &HostRuntime, file: &mut File, bytes: &[u8]) -> Result<(), ReplaceFault> {
        self.look_at_target(rt)?;
        let is_owned = give_owner_and_rights(file, self.old).is_ok();
        write_whole(file, bytes, bytes.len()).map_err(ReplaceFault::Write)?;
        if !self.is_named(rt, file) {
            return Err(ReplaceFault::CannotReplace);
        }
        self.look_at_target(rt)?;
        if is_owned && rt.rename(self.name, self.target).is_ok() {
            return Ok(());
        }
        self.write_in_place(rt, bytes)
    }

    /// Looks whether the old file still is what it is to be. Another run may have replaced it meanwhile.
    fn look_at_target(&self, rt: &HostRuntime) -> Result<(), ReplaceFault> {
        match self.old.refusal(fs::symlink_metadata(rt, self.target)) {
            None => Ok(()),
            Some(fault) => Err(fault),
        }
    }

    /// Writes the bytes into the old file itself.
    fn write_in_place(&self, rt: &HostRuntime, bytes: &[u8]) -> Result<(), ReplaceFault> {
        let padded = padded(rt.alloc(), bytes, self.old.text_length())?;
        let Ok(mut file) = OpenOptions::new().write(true).open(rt, self.target) else {
            return Err(ReplaceFault::CannotReplace);
        };
        match self.old.refusal_in_place(file.metadata()) {
            None => write_whole(&mut file, padded.as_slice(), bytes.len()).map_err(
                ReplaceFault::Partly,
            ),
            Some(fault) => Err(fault),
        }
    }

    /// Whether the name of the new file still stands for it.
    fn is_named(&self, rt: &HostRuntime, file: &File) -> bool {
        match (fs::symlink_metadata(rt, self.name), file.metadata()) {
            (Ok(found), Ok(new)) => is_same(&found, &new),
            _ => false,
        }
    }

    /// Removes the new file, unless it has the name of the old one by now.
    fn remove(&self, rt: &HostRuntime, file: &File) {
        if self.is_named(rt, file) {
            let _ = rt.remove_file(self.name);
        }
    }
}
