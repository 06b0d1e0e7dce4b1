//! Laws over histories: the headline for all lists of events, the facts on which it stands, and each notion read on the
//! positions of a list of events.
ghost use Rattle.console_core.specs.Headline.{HeadlineHolds, LockedByFreshPresses};
ghost use Rattle.console_core.specs.Facts.{LooksAreCells, DeadUpperHalfIsNotLookedAt, HoldingIsRemembered};
ghost use Rattle.console_core.specs.Facts.{OnByPressedKey};
ghost use Rattle.console_core.specs.Loads.{WithoutLoads, LoadsOfOneMapAreResets};
ghost use Rattle.console_core.specs.Plain.{LooksPlainly, PlainOnByKeys, PlainLockedByKeys};
ghost use Rattle.console_core.specs.Reading.{HeldByPositions, LockedByCount, RememberedByPositions};
ghost use Rattle.console_core.specs.Reading.{NothingRememberedByPositions, PendingByRun, PressedByPositions};
ghost use Rattle.console_core.specs.Reading.{ResolvedAtPrefix, AnswersByCases};
ghost use Rattle.console_core.specs.Traps.{OnOnlyWhilePressedWithoutTraps};

/// After every list of events a modifier is on only while a key that bears it is pressed, and exactly then if one key
/// alone bears it throughout; a repeat turns no steady lock; once no key is pressed, no modifier is on, and with no
/// accent pending the console goes on as after a reset. The first and the last two want a safe map in force.
pub fn headline_holds()
    ensures { HeadlineHolds }
{}

/// A lock that one key alone bears throughout, where there are loads in both maps, is on exactly after an odd number of
/// fresh presses of that key.
pub fn locks_count_fresh_presses()
    ensures { LockedByFreshPresses }
{}

/// In a plain map, without loads, what a key looks up follows from which keys are pressed and from fresh presses of the
/// locks' keys: a modifier is on as a key that bears it is pressed, and a lock as such a key was freshly pressed an odd
/// number of times.
pub fn looks_plainly()
    ensures look { LooksPlainly }
    ensures on { PlainOnByKeys }
    ensures locked { PlainLockedByKeys }
{}

/// A modifier for which no key has a trap is on only while a key that bears it is pressed, also in a map that isn't
/// safe, if nobody bears clock, nlock or alock.
pub fn modifiers_without_traps_follow_keys()
    ensures { OnOnlyWhilePressedWithoutTraps }
{}

/// What a key looks up is one of its cells; a dead upper half is never looked at.
pub fn looks_are_cells()
    ensures cells { LooksAreCells }
    ensures dead_upper_half { DeadUpperHalfIsNotLookedAt }
{}

/// In a safe map a holding action that is remembered is forgotten only by a release, a reset or a load.
pub fn holding_actions_are_remembered()
    ensures { HoldingIsRemembered }
{}

/// In a safe map each modifier that is on was raised by a key that has been pressed ever since.
pub fn modifiers_are_raised_by_pressed_keys()
    ensures { OnByPressedKey }
{}

/// On, down and locked on positions: some event raises it and no later event lowers it; the number of events that turn
/// it is odd.
pub fn held_by_positions()
    ensures held { HeldByPositions }
    ensures locked { LockedByCount }
{}

/// What is remembered, on positions: the first action other than nop that was looked up since the key was let go or
/// looked up a character.
pub fn remembered_by_positions()
    ensures something { RememberedByPositions }
    ensures nothing { NothingRememberedByPositions }
{}

/// What is pending, on positions: the dead key of the longest run at the end, where its length is odd.
pub fn pending_by_run()
    ensures { PendingByRun }
{}

/// Pressed, on positions: the last event that is about the key, or is a reset or a load, is a press of it.
pub fn pressed_by_positions()
    ensures { PressedByPositions }
{}

/// What a pressed key looks up depends on the events before it alone.
pub fn looks_depend_on_prefixes()
    ensures { ResolvedAtPrefix }
{}

/// The answer to each kind of event, by look, taken and remembered action, pending accent and meta.
pub fn answers_by_cases()
    ensures { AnswersByCases }
{}

/// Without loads everything is as under the first map alone; under one map twice a load is a reset.
pub fn loads_that_change_nothing()
    ensures without { WithoutLoads }
    ensures of_one_map { LoadsOfOneMapAreResets }
{}
