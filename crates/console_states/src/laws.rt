//! Laws that tie states and moves to lists of events: which paths leave a modifier on, and what can be seen.
ghost use Rattle.console_states.specs.Sticking.{NeverSticksUnlessReached, SticksIfReached};
ghost use Rattle.console_states.specs.Sticking.{SafeNeverSticksBetween, SafeNeverForgets, SafeNeverAnswersSticks};
ghost use Rattle.console_states.specs.Sights.{LooksAreSelected, SightsAreReachable, ReachableIsSeen};
ghost use Rattle.console_states.specs.AllowedSights.{AllowedSightsAreReachable};

/// A keymap, or two that loads exchange, can leave a modifier on while no key is pressed exactly if a path of moves
/// leads to a state where a key that holds a modifier looks up a character: then the events along the path, a repeat of
/// that key and the releases do so.
pub fn modifiers_stick_where_paths_lead()
    ensures never { NeverSticksUnlessReached }
    ensures sticks { SticksIfReached }
{}

/// After every list of events between two safe keymaps a modifier is on only while a key is pressed that bears it in
/// the keymap in force, and none is on once no key is pressed. So no key that holds a modifier ever looks up a
/// character, and `sticking_between` never answers that a modifier sticks.
pub fn safe_maps_never_stick_between()
    ensures lists { SafeNeverSticksBetween }
    ensures states { SafeNeverForgets }
    ensures answers { SafeNeverAnswersSticks }
{}

/// A key looks up the cell at the slot and column that the selection picks. What a press after a list sees can be seen
/// where a path leads, and a pair where one path leads through a state that offers its accent: after all lists where no
/// path leads to where a modifier is forgotten, and else after clean ones. So it is where some presses alone are
/// allowed, for lists and paths of these. And what can be seen so is seen by a press after a clean list of presses and
/// releases.
pub fn sights_are_reachable()
    ensures selected { LooksAreSelected }
    ensures reachable { SightsAreReachable }
    ensures allowed { AllowedSightsAreReachable }
    ensures seen { ReachableIsSeen }
{}
