//! What tests share: keymaps as texts, and readers and writers that fail in mid-stream.
//!
//! It stands on the devices of keymap_core, and promises of each device with which bytes and counts it begins.

pub(crate) mod devices;
pub(crate) mod keymaps;
