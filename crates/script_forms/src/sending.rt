//! Which events a form has.
ghost use Rattle.std.specs.Prelude.{◌≡◌, ◌<◌, IfSome, length, position};
ghost use Rattle.script_forms.specs.Sending as spec;

use crate::form::Form;
use keyboard::{evdev_of, qcode_of, set1_of, x11_of};
use keymap_core::KeyCode;
use play_core::{Sent, What};

/// Whether the form has something for the key.
fn has_key(form: Form, key: KeyCode) -> bool
    ensures { result ≡ spec.has_key form key }
{
    match form {
        Form::Evdev => evdev_of(key) != 0,
        Form::Set1 => !set1_of(key).is_empty(),
        Form::Qmp => !qcode_of(key).is_empty(),
        Form::X11 => x11_of(key) != 0,
    }
}

/// Whether the form has repeats.
fn repeats(form: Form) -> bool
    ensures { result ≡ spec.repeats form }
{
    match form {
        Form::X11 => false,
        _ => true,
    }
}

/// Whether the form has the event.
pub fn sends(form: Form, sent: &Sent) -> bool
    ensures { result ≡ spec.sends form sent.now }
{
    let has = match sent.what {
        What::Down(key) | What::Up(key) => has_key(form, key),
        What::Repeat(key) => repeats(form) && has_key(form, key),
        What::Reset | What::Load => false,
    };
    !sent.lost && has
}

/// Where the first event is that the form doesn't have.
pub(crate) fn first_unsent(form: Form, events: &[Sent]) -> Option<usize>
    ensures first { result ≡ position (spec.is_unsent form) events.now }
    ensures bound { IfSome result (λ i. i < length events.now) }
{
    events.iter().position(|sent| !sends(form, sent))
}
