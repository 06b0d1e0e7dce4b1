//! Laws that tie visits, and what is typed, to lists of events. No function here does anything.
ghost use Rattle.console_scripts.specs.Typing.{TypedCanBeTyped};
ghost use Rattle.console_scripts.specs.Visiting.{SeenCanBeVisited};

/// What can be visited can be seen. Where no turn of a lock is one-way, all that can be seen can be visited.
pub fn what_is_seen_can_be_visited()
    ensures { SeenCanBeVisited }
{}

/// What an admitted list of presses, repeats, releases and resets types that leaves a new console as a new one, moves
/// and taps can type. So where they can't type a character, no such list does.
pub fn what_is_typed_can_be_typed()
    ensures { TypedCanBeTyped }
{}
