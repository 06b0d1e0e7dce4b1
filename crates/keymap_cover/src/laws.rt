//! Laws of covers. No function here does anything.
ghost use Rattle.keymap_cover.specs.Covering.{CountsAreOfVerdicts, NothingIsAhead, NothingIsLeftOut};

/// What is counted of a cover is what is told: each sight by its one verdict. Where no turn of a lock is one-way, the
/// number of those that are left out is 0.
pub fn counts_are_of_verdicts()
    ensures verdicts { CountsAreOfVerdicts }
    ensures left_out { NothingIsLeftOut }
{}

/// At the end of a script no moves lead to a press that sees a cell or a lock setting that it didn't see, where no
/// press of it makes a console forget a modifier, or none can; else that is so of those that can be seen.
pub fn nothing_is_ahead()
    ensures { NothingIsAhead }
{}
