//! Lists of keys, slots and accents, gathered number by number.
ghost use Rattle.std.specs.Prelude.{◌≡◌, ◌+◌, ◌<◌, ◌≤◌, ◌++◌};
ghost use Rattle.arrayvec.specs.ArrayVec.{array_vec_len};
ghost use Rattle.keymap_core.specs.Below.{passed};

use arrayvec::ArrayVec;

/// Adds a number to a list that has room for it, if it passes.
pub fn push_if<const N: usize>(numbers: &mut ArrayVec<u8, N>, number: u8, passes: bool)
    requires { array_vec_len numbers.old < N }
    ensures items { numbers.new.items ≡ numbers.old.items ++ passed passes number }
    ensures room { array_vec_len numbers.new ≤ array_vec_len numbers.old + 1 }
{
    if passes {
        numbers.push(number);
    }
}
