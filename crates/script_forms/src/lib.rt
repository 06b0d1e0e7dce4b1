//! Scripts in the forms that other tools take: events of evdev, bytes of set 1, QEMU's commands, and those of xdotool.
//!
//! A script is in a form exactly if the form has each of its events (`specs/Sending.antt`); else the first one that it
//! has not is told. Which numbers stand for a key is the keyboard's. The lines are plain printings, one after the other
//! for each event, whose form docs/FORMATS.md has ("Scripts in other forms").
#![tactic(auto)]

mod form;
mod lines;
mod numbers;
mod printing;
mod sending;

pub use form::{Form, FormError, in_form};
pub use sending::sends;
