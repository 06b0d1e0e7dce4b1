//! The keys of a board, by the numbers that evdev has for them.
ghost use Rattle.std.specs.Prelude.{◌≡◌, ℕ, pos, negsuc};
ghost use Rattle.keyboard.specs.Codes.{IsEvdevOf};

use keyboard::key_of_evdev;

/// The code of the key that has this number in evdev, -1 for none.
#[unsafe(no_mangle)]
pub extern "C" fn kmap_key_of_evdev(code: u32) -> i32
    ensures key { (k : ℕ) → IsEvdevOf k code → result ≡ pos k }
    ensures has { (k : ℕ) → result ≡ pos k → IsEvdevOf k code }
    ensures none { ((k : ℕ) → ¬ IsEvdevOf k code) → result ≡ negsuc 0 }
{
    match key_of_evdev(code) {
        Some(key) => i32::from(key.get()),
        None => -1,
    }
}
