//! A keyboard by which a console is tested.
ghost use Rattle.std.specs.Prelude.{◌≡◌, length};

use crate::group::GROUP_COUNT;
use keyboard::Board;

/// A board, and the groups whose actions are pressed, each by its place in their order.
#[derive(Clone, Copy, Debug, PartialEq, Eq)]
pub struct Keyboard {
    pub board: Board,
    pub groups: [bool; GROUP_COUNT],
    ghost groups_len: { length groups ≡ 11 },
}
