//! Two keymaps that are compared.
use console_states::Sights;
use keymap_core::KeyMap;

/// What presses can see under each of two keymaps.
#[derive(Clone, Copy)]
pub(crate) struct Seen<'a> {
    pub(crate) old: &'a Sights,
    pub(crate) new: &'a Sights,
}

/// Two keymaps, and what presses can see under each, unless a search gave up.
#[derive(Clone, Copy)]
pub(crate) struct Versions<'a> {
    pub(crate) old: &'a KeyMap,
    pub(crate) new: &'a KeyMap,
    pub(crate) seen: Option<Seen<'a>>,
}
