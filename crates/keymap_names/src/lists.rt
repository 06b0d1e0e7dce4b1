//! The names of accents and columns, lists of accents, and ascending numbers as ranges.
ghost use Rattle.std.specs.Prelude.{◌≡◌, ◌<◌, ◌++◌, [], length, slice_index_or, OnOk, IfOk};
ghost use Rattle.keymap_names.specs.Lists as spec;

use keymap_core::{ACCENT_LIMIT, AccentIndex, Action, Name};
use messages::number;
use std::alloc::{AllocError, Global};

fn push_comma(text: &mut Vec<u8>, place: usize) -> Result<(), AllocError>
    ensures { OnOk result (text.new.items ≡ text.old.items ++ spec.comma place) }
{
    if place == 0 {
        Ok(())
    } else {
        text.extend_from_slice(b", ")
    }
}

/// Whether the number at the place is the first one, or isn't the one before it and one more.
fn begins_run(numbers: &[u8], place: usize) -> bool
    requires { place < length numbers.now }
    ensures { result ≡ spec.begins_run numbers.now place }
{
    place == 0 || u16::from(numbers[place]) != u16::from(numbers[place - 1]) + 1
}

/// Whether the number at the place is the last one, or the one behind it isn't one more.
fn ends_run(numbers: &[u8], place: usize) -> bool
    requires { place < length numbers.now }
    ensures { result ≡ spec.ends_run numbers.now place }
{
    place + 1 == numbers.len() || u16::from(numbers[place + 1]) != u16::from(numbers[place]) + 1
}

/// Adds what is told of the number at a place: it is the first of its run, or else the last one.
fn push_run(text: &mut Vec<u8>, numbers: &[u8], place: usize) -> Result<(), AllocError>
    requires { place < length numbers.now }
    ensures { OnOk result (text.new.items ≡ text.old.items ++ spec.run_text numbers.now place) }
{
    if begins_run(numbers, place) {
        push_comma(text, place)?;
        text.extend_from_slice(number(u64::from(numbers[place])).as_slice())
    } else if ends_run(numbers, place) {
        text.extend_from_slice(b" to ")?;
        text.extend_from_slice(number(u64::from(numbers[place])).as_slice())
    } else {
        Ok(())
    }
}

/// Ascending numbers, as `129 to 212, 254`.
pub fn ranges(alloc: Global, numbers: &[u8]) -> Result<Vec<u8>, AllocError>
    ensures { IfOk result (λ text. text.items ≡ spec.ranges numbers.now) }
{
    let mut text = Vec::new(alloc);
    for i in 0..numbers.len() {
        push_run(&mut text, numbers, i)?;
    }
    Ok(text)
}

/// The name of an accent; nothing where there is no accent with this index.
pub fn accent_name(accent: u8) -> Name
    ensures { result.items ≡ spec.accent_name accent }
{
    if usize::from(accent) < ACCENT_LIMIT {
        Action::DeadKey(AccentIndex::new(accent)).name()
    } else {
        Name::new()
    }
}

fn push_or_comma(text: &mut Vec<u8>, place: usize, count: usize) -> Result<(), AllocError>
    requires { place < count }
    ensures { OnOk result (text.new.items ≡ text.old.items ++ spec.or_comma place count) }
{
    if place == 0 {
        Ok(())
    } else if place + 1 == count {
        text.extend_from_slice(b" or ")
    } else {
        text.extend_from_slice(b", ")
    }
}

fn push_listed(text: &mut Vec<u8>, accents: &[u8], place: usize) -> Result<(), AllocError>
    requires { place < length accents.now }
    ensures { OnOk result (text.new.items ≡ text.old.items ++ spec.listed_text accents.now place) }
{
    push_or_comma(text, place, accents.len())?;
    text.extend_from_slice(accent_name(accents[place]).as_slice())
}

/// The names of accents, as `dgra, dacu or dcir`.
pub fn accents(alloc: Global, accents: &[u8]) -> Result<Vec<u8>, AllocError>
    ensures { IfOk result (λ text. text.items ≡ spec.accents_text accents.now) }
{
    let mut text = Vec::new(alloc);
    for i in 0..accents.len() {
        push_listed(&mut text, accents, i)?;
    }
    Ok(text)
}

const COLUMN_NAMES: [&[u8]; 8] = [
    b"base",
    b"shift",
    b"ctrl",
    b"ctrl shift",
    b"alt",
    b"alt shift",
    b"alt ctrl",
    b"alt ctrl shift",
];

/// What selects a column of a slot.
pub fn column_name(column: usize) -> &'static [u8]
    ensures { result.now ≡ slice_index_or spec.column_names column [] }
{
    if column < 8 {
        COLUMN_NAMES[column]
    } else {
        b""
    }
}
