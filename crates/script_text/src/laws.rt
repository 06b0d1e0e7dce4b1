//! Laws of the scripts of `cover` and `diff`: what is printed is a script, and what it sends when it is played. No
//! function here does anything.
ghost use Rattle.std.specs.Prelude.{List, [], ℕ, true};
ghost use Rattle.console_core.specs.History.{HasKeys};
ghost use Rattle.keymap_core.specs.Maps.{MapValue};
ghost use Rattle.console_states.specs.declared.allowed.Presses.{Presses};
ghost use Rattle.keyboard_cover.specs.Covering as keyboard;
ghost use Rattle.keyboard_cover.specs.declared.cover.KeyboardCover.{KeyboardCover as KeyboardCoverValue};
ghost use Rattle.keymap_cover.specs.Covering.{history};
ghost use Rattle.keymap_cover.specs.declared.parts.Cover.{Cover as CoverValue};
ghost use Rattle.keymap_diff.specs.Telling.{IsTelling};
ghost use Rattle.keymap_diff.specs.declared.change.Change.{Change as ChangeValue};
ghost use Rattle.keymap_diff.specs.declared.telling.Telling.{Telling as TellingValue};
ghost use Rattle.play_core.specs.Scripts.{IsScript};
ghost use Rattle.script_text.specs.Cover.{CountedAreTold, IsCoverText, LeftOutCannotBeVisited};
ghost use Rattle.script_text.specs.Diff.{IsDiffText, LinesTellChanges, same_text};
ghost use Rattle.script_text.specs.Keyboard.{IsKeyboardText};
ghost use Rattle.script_text.specs.Replayed.{ShowsKeyboardCover, TellingReplays, events_sent};

/// The numbers of cells, lock settings and pairs that are printed of a cover count what is told of, each pair once.
/// What is counted as left out can be seen by presses, but not visited: no moves lead to a press that sees it from
/// which, once all keys are let go, more of them lead home.
pub fn counted_sights_are_told()
    ensures told { CountedAreTold }
    ensures left_out { LeftOutCannotBeVisited }
{}

/// What is printed of a cover, its comments with counts and lists, the comment that begins each part and a line for
/// each event, is a script of exactly these events.
pub fn cover_scripts_send_the_events()
    ensures { (m : MapValue) (c : CoverValue) (text : List ℕ) → IsCoverText m c text → HasKeys (history c)
        → IsScript text (events_sent c) }
{}

/// What is printed of a cover by a keyboard, with its repeats, its comments and a line for each event, is a script of
/// exactly these events, and delivers them.
pub fn keyboard_scripts_send_the_events()
    ensures { (p : Presses) (m : MapValue) (c : KeyboardCoverValue) (text : List ℕ) → keyboard.Covers p m c
        → IsKeyboardText m c true text → ShowsKeyboardCover c text }
{}

/// The line of a change tells what is so in the old keymap before what is so in the new one, and `unseen` exactly where
/// no press meets it, unless a search gave up.
pub fn lines_tell_changes()
    ensures { LinesTellChanges }
{}

/// What is printed of keymaps that differ is a script. Where they are told apart, it sends exactly the events that do
/// so, none of them lost: `down` for a press of a key that isn't pressed, `repeat` for one of a key that is, and `up`
/// of a pressed key. Two consoles that play it, one of each keymap alone, answer all events alike but the last, and
/// that by the two answers of the verdict. Else it sends nothing, as what is printed of keymaps that are the same.
pub fn told_scripts_tell_keymaps_apart()
    ensures differ { (m n : MapValue) (found : List ChangeValue) (telling : TellingValue) (text : List ℕ)
        → IsTelling m n telling → IsDiffText telling found text → TellingReplays m n text telling }
    ensures same { IsScript same_text [] }
{}
