//! Laws of the definitions. No function here does anything.
ghost use Rattle.keymap_diff.specs.Changes.{NothingIfSame};
ghost use Rattle.keymap_diff.specs.Telling.{AnswersAreSame, SafeListsAreClean, SameIsNeverTold};
ghost use Rattle.keymap_diff.specs.Telling.{ToldListsDifferAtLast};

/// Nothing differs exactly if the keymaps are the same.
pub fn the_same_keymaps_have_no_changes()
    ensures { NothingIfSame }
{}

/// Where no list of events tells two keymaps apart, the answers to each list are the same.
pub fn keymaps_that_are_never_told_answer_alike()
    ensures { AnswersAreSame }
{}

/// What tells two keymaps apart by the fewest presses is answered alike up to its last event.
#[tactic(auto, using(crate::proofs::LastEvents::told_lists_differ_at_last))]
pub fn told_lists_differ_at_their_last_event()
    ensures { ToldListsDifferAtLast }
{}

/// In a safe keymap no list of events makes a key forget that it holds a modifier.
pub fn safe_keymaps_have_clean_lists()
    ensures { SafeListsAreClean }
{}

/// No list of events tells a keymap apart from itself.
pub fn the_same_keymaps_are_never_told()
    ensures { SameIsNeverTold }
{}
