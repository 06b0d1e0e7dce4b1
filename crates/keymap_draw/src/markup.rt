//! Texts with references where markup needs them.
ghost use Rattle.std.specs.Prelude.{◌≡◌, ◌++◌, OnOk};
ghost use Rattle.std.specs.List.{flat_map};
ghost use Rattle.keymap_draw.specs.Markup as spec;

use keymap_core::code_digits;
use std::alloc::AllocError;

/// What something is added to, or nothing: there may be no memory for it.
pub(crate) type Added<T = ()> = Result<T, AllocError>;

/// Whether the character is written as a reference.
fn is_referred(c: char) -> bool
    ensures { result ≡ spec.is_referred c }
{
    c == '&' || c == '<' || c == '>' || c > '~'
}

/// Adds the reference to a character.
fn push_reference(text: &mut Vec<u8>, c: char) -> Added
    ensures { OnOk result (text.new.items ≡ text.old.items ++ spec.reference c) }
{
    text.extend_from_slice(b"&#x")?;
    text.extend_from_slice(code_digits(c).as_slice())?;
    text.extend_from_slice(b";")
}

/// Adds a character, or the reference to it.
#[tactic(auto, unfolding(crate::specs::Markup::escaped))]
pub(crate) fn push_character(text: &mut Vec<u8>, c: char) -> Added
    ensures { OnOk result (text.new.items ≡ text.old.items ++ spec.escaped c) }
{
    if is_referred(c) {
        return push_reference(text, c);
    }
    text.push(c as u8)?;
    Ok(())
}

/// Adds characters.
pub(crate) fn push_characters(text: &mut Vec<u8>, characters: &[char]) -> Added
    ensures { OnOk result (text.new.items ≡ text.old.items ++ flat_map spec.escaped characters.now) }
{
    for c in characters {
        push_character(text, *c)?;
    }
    Ok(())
}

/// Adds the characters that bytes are.
pub(crate) fn push_escaped(text: &mut Vec<u8>, bytes: &[u8]) -> Added
    ensures { OnOk result (text.new.items ≡ text.old.items ++ flat_map spec.escaped bytes.now) }
{
    for byte in bytes {
        push_character(text, *byte as char)?;
    }
    Ok(())
}
