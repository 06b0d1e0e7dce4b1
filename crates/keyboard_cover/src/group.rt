//! The actions that a keyboard's test presses only where it is told to.
ghost use Rattle.std.specs.Prelude.{◌≡◌, ◌<◌};
ghost use Rattle.keyboard_cover.specs.Allowed.{group_of, group_index};

use keymap_core::Action;

/// Actions that end or leave the console, or type what no keymap says.
#[derive(Clone, Copy, Debug, PartialEq, Eq)]
pub enum Group {
    Boot,
    Debug,
    Suspend,
    Saver,
    Standby,
    Panic,
    Halt,
    PowerDown,
    /// A screen, the next and the previous one.
    Screens,
    /// Function keys.
    Functions,
    Paste,
}

/// How many groups there are.
pub const GROUP_COUNT: usize = 11;

/// All groups, in their order.
pub static GROUPS: [Group; GROUP_COUNT] = [
    Group::Boot,
    Group::Debug,
    Group::Suspend,
    Group::Saver,
    Group::Standby,
    Group::Panic,
    Group::Halt,
    Group::PowerDown,
    Group::Screens,
    Group::Functions,
    Group::Paste,
];

impl Group {
    /// The group of an action, if it is in one.
    pub fn of(action: &Action) -> Option<Group>
        ensures { result ≡ group_of action.now }
    {
        match action {
            Action::Boot => Some(Group::Boot),
            Action::Debug => Some(Group::Debug),
            Action::Suspend => Some(Group::Suspend),
            Action::Saver => Some(Group::Saver),
            Action::Standby => Some(Group::Standby),
            Action::Panic => Some(Group::Panic),
            Action::Halt => Some(Group::Halt),
            Action::PowerDown => Some(Group::PowerDown),
            Action::NextScreen | Action::PreviousScreen | Action::Screen(_) => Some(Group::Screens),
            Action::Function(_) => Some(Group::Functions),
            Action::Paste => Some(Group::Paste),
            _ => None,
        }
    }

    /// The group's place in their order.
    pub fn index(self) -> usize
        ensures value { result ≡ group_index self }
        ensures in_range { result < 11 }
    {
        match self {
            Group::Boot => 0,
            Group::Debug => 1,
            Group::Suspend => 2,
            Group::Saver => 3,
            Group::Standby => 4,
            Group::Panic => 5,
            Group::Halt => 6,
            Group::PowerDown => 7,
            Group::Screens => 8,
            Group::Functions => 9,
            Group::Paste => 10,
        }
    }
}
