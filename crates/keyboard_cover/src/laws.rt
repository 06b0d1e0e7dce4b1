//! Laws of covers by a keyboard. No function here does anything.
ghost use Rattle.keyboard_cover.specs.Covering.{VerdictsAreSo};

use console_states::laws::sights_are_reachable;

/// What is told of each sight is so: what the script sees; what it leaves out, and allowed presses can see; and what no
/// admitted list sees. So of each sight of an admitted list the script sees it, or it is told as left out.
pub fn verdicts_are_so()
    ensures { VerdictsAreSo }
{
    sights_are_reachable();
}
