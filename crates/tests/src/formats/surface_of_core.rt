//! keymap_core: keys, actions, entries, accents and keymaps, and the devices that bytes come from and go to.

use crate::support::devices::{reader_of, sheet_of};
use arrayvec::ArrayVec;
use keymap_core::{
    Accent, Action, BadAccent, Cell, Entry, Failed, FromStd, Holding, KeyCode, KeyMap, Lock,
    LockFlag, Modifier, Name, Named, PairFault, Read, ReadError, ReadFault, ReadFaultKind, ToStd,
    Write, WriteFault, read_up_to,
};
use std::alloc::{AllocError, Global};

#[test]
fn keys_and_actions() {
    let _: fn(u8) -> Option<KeyCode> = KeyCode::new;
    let _: fn(KeyCode) -> u8 = KeyCode::get;
    let _: fn(u8) -> Option<Action> = Action::from_code;
    let _: fn(Action) -> u8 = Action::code;
    let _: fn(Action) -> Name = Action::name;
    let _: fn(Action) -> ArrayVec<u8, 6> = Action::name;
    let _: fn(Action) -> Option<Holding> = Action::holding;
    let _: fn(Holding) -> Action = Holding::action;
    let _: fn(&[u8]) -> Named = Action::named;
    let _: fn(Action) -> Named = Named::Action;
    let (Named::Action(_) | Named::Combined | Named::Unknown | Named::OutOfRange) = Named::Unknown;
    let _: fn(Modifier) -> Holding = Holding::Mod;
    let _: fn(Lock) -> Holding = Holding::Lock;
    let (Holding::Mod(_) | Holding::Lock(_)) = Holding::Lock(Lock::Caps);
}

#[test]
fn entries() {
    let _: fn(char) -> Cell = Cell::Char;
    let _: fn(Action) -> Cell = Cell::Act;
    let (Cell::Char(_) | Cell::Act(_)) = Cell::Char('a');
    let (LockFlag::O | LockFlag::C | LockFlag::N | LockFlag::B) = LockFlag::O;
    let _: fn() -> Entry = Entry::undefined;
    let Entry { cells, flag } = Entry::undefined();
    let _: ([Cell; 8], LockFlag) = (cells, flag);
}

#[test]
fn accents() {
    let _: fn(char) -> Accent = Accent::new;
    let _: fn(&Accent) -> char = Accent::own;
    let _: fn(&mut Accent, char, char) -> Result<(), PairFault> = Accent::push_pair;
    let (PairFault::ZeroBase | PairFault::TooManyPairs) = PairFault::ZeroBase;
    let acute = Accent::new('x');
    let _: &[(char, char)] = Accent::pairs(&acute);
}

#[test]
fn key_maps(rt: HostRuntime) {
    let _: fn(Global) -> Result<KeyMap, AllocError> = KeyMap::new;
    let _: fn(&KeyMap) -> u16 = KeyMap::n_keys;
    let _: fn(&mut KeyMap, u8, Entry) = KeyMap::set;
    let _: fn(&KeyMap) -> u8 = KeyMap::n_accs;
    let _: fn(&mut KeyMap, u8, Accent) -> Result<(), BadAccent> = KeyMap::set_accent;
    let _: fn(&KeyMap, Global) -> Result<KeyMap, AllocError> = KeyMap::try_clone;
    let map = KeyMap::new(rt.alloc()).expect(&rt, "a map");
    let _: &Entry = KeyMap::entry(&map, 255_u8);
    let _: Option<&Accent> = KeyMap::accent(&map, 15_u8);
    let _: &Accent = KeyMap::accent_or_blank(&map, 14_u8);
    let _: bool = map == map;
}

/// What one read and then the flag answer, of any reader.
fn read_once<R: Read>(reader: &mut R) -> (Result<usize, Failed>, bool) {
    let mut buffer: [u8; 4] = [0; 4];
    (reader.read(&mut buffer), reader.failed())
}

/// What one write and then the flag answer, of any writer.
fn write_once<W: Write>(writer: &mut W) -> (Result<usize, Failed>, bool) {
    (writer.write(b"abc"), writer.failed())
}

#[test]
fn readers(rt: HostRuntime) {
    let mut reader: FromStd<&[u8]> = FromStd::new(b"ab".as_slice());
    let _ = read_once(&mut reader);
    let mut tape = reader_of(b"12345", 1, usize::MAX);
    let _: Result<Vec<u8>, ReadError> = read_up_to(rt.alloc(), &mut tape, 3_usize);
    let _: fn(ReadFault) -> ReadError = ReadError::Read;
    let (ReadError::Memory | ReadError::Read(_)) = ReadError::Memory;
    let kind = ReadFaultKind::Device;
    let (ReadFaultKind::Device | ReadFaultKind::Endless) = kind;
    let _ = ReadFault {
        offset: 2_u64,
        kind,
    };
}

#[test]
fn writers() {
    let mut room: [u8; 2] = [0; 2];
    let mut writer: ToStd<&mut [u8]> = ToStd::new(room.as_mut_slice());
    let _ = write_once(&mut writer);
    let _ = write_once(&mut sheet_of(2));
    let _ = WriteFault { written: 10_u64 };
}
