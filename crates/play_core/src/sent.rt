//! What is sent to a console.
ghost use Rattle.std.specs.Prelude.{◌≡◌};
ghost use Rattle.play_core.specs.Delivery.{event_of, delivered_by};

use console_core::Event;
use keymap_core::KeyCode;

/// What a line of a script tells.
#[derive(Clone, Copy, Debug, PartialEq, Eq)]
pub enum What {
    Down(KeyCode),
    Repeat(KeyCode),
    Up(KeyCode),
    Reset,
    Load,
}

/// An event that is sent, and whether it is lost on its way.
#[derive(Clone, Copy, Debug, PartialEq, Eq)]
pub struct Sent {
    pub lost: bool,
    pub what: What,
}

impl What {
    fn event(&self) -> Event
        ensures { result ≡ delivered_by self.now }
    {
        match self {
            What::Down(key) | What::Repeat(key) => Event::Press(*key),
            What::Up(key) => Event::Release(*key),
            What::Reset => Event::Reset,
            What::Load => Event::Load,
        }
    }
}

impl Sent {
    /// The event that is delivered: none of a lost one.
    pub fn event(&self) -> Option<Event>
        ensures { result ≡ event_of self.now }
    {
        if self.lost {
            None
        } else {
            Some(self.what.event())
        }
    }
}
