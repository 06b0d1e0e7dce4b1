//! Laws of what is printed of a text. No function here does anything.
ghost use Rattle.std.specs.Prelude.{List, ℕ};
ghost use Rattle.keymap_lint_text.specs.Promises.{EachDiagnosticIsOneRemark, EachRemarkHasOneHead};
ghost use Rattle.keymap_lint_text.specs.Promises.{NotesTellEvents, PrintedIsPlain};
ghost use Rattle.keymap_names.specs.Shown.{shown_name, IsLine};

/// All that is printed of a text, whatever the text, the name of its file and the diagnostics are, is lines of UTF-8
/// that a terminal shows: no control but a tab and the line feed at their ends, no mark that can't be seen and none
/// that turns the direction of writing. So is the name of a file as it is shown, in one line.
pub fn printed_lines_are_plain()
    ensures all { PrintedIsPlain }
    ensures name { (name : List ℕ) → IsLine (shown_name name) }
{}

/// Of a text that spells a keymap each diagnostic has one line that tells its place, its severity and its kind, in the
/// order of the diagnostics; of a text with faults each fault has one, in their order. Each further line either begins
/// with two blanks, whatever the text has there, or is the first line of a note. A name of a file that begins with two
/// blanks makes each line do so.
pub fn diagnostics_have_one_head()
    ensures remarks { EachDiagnosticIsOneRemark }
    ensures heads { EachRemarkHasOneHead }
{}

/// The note on modifiers that stay on tells these modifiers, and behind its colon exactly the events of the answer.
pub fn notes_tell_the_events()
    ensures { NotesTellEvents }
{}
