//! Laws of the runs: what is printed as a script is one, and what a command says or writes of a text is so of its
//! keymap. No function here does anything.
ghost use Rattle.std.specs.Prelude.{◌≡◌, List, [], ℕ, reverse, All, Option, Some, Ok, true};
ghost use Rattle.keymap_core.specs.Maps.{MapValue};
ghost use Rattle.console_states.specs.declared.outcome.Sticking.{Sticking as StickingValue};
ghost use Rattle.console_scripts.specs.declared.typing.Typing.{Typing as TypingValue};
ghost use Rattle.console_core.specs.History.{Maps};
ghost use Rattle.console_states.specs.Moves.{alone, with_loads};
ghost use Rattle.console_scripts.specs.Typing.{AreTyped, characters_of};
ghost use Rattle.play_core.specs.Playing.{Plays};
ghost use Rattle.play_core.specs.Runs.{moves};
ghost use Rattle.play_core.specs.declared.show.Show.{Show as ShowValue};
ghost use Rattle.play_core.specs.declared.show.Show.TheVariants as show;
ghost use Rattle.keyboard.specs.declared.board.Board.{Board as BoardValue};
ghost use Rattle.kmap_runs.specs.Sentences.{IsTyped};
ghost use Rattle.kmap_runs.specs.Report.{report};
ghost use Rattle.kmap_runs.specs.Replayed.{Delivers, ScriptTypes, AnswerReplays, AnswerReplaysBetween, ShowsScript};
ghost use Rattle.kmap_runs.specs.Replayed.{PlaysCover};
ghost use Rattle.kmap_runs.specs.FmtRuns.{ChangedTextsSpellTheSame, PrintedLayoutsSpellTheSame};
ghost use Rattle.keymap_tables.specs.Sources.{ReadsNarrow, ReadsTables};
ghost use Rattle.kmap_runs.specs.Runs.{AcceptedKeepTheirPromise, AreDumped, CompilesNarrowly, CompilesText};
ghost use Rattle.kmap_runs.specs.Runs.{CoversText, DrawnAreWellFormed, IsFoundUnder};
ghost use Rattle.kmap_runs.specs.Runs.{PrintedCoversAreScripts, PrintedKeyboardCoversAreScripts, TypesSentence};
ghost use Rattle.kmap_runs.specs.Runs.{WellLintedNeverStick};
ghost use Rattle.kmap_runs.specs.Typing.{typing_script};
ghost use Rattle.keymap_names.specs.Shown.{IsPlainText};
ghost use Rattle.std.specs.Char.{IsScalar};

use keymap_check::laws::safe_maps_keep_their_promise;
use keymap_draw::laws::{pictures_are_plain, pictures_are_well_formed};
use keymap_fmt::laws::keymap_stays;
use keymap_lint::laws::well_texts_never_stick;
use keymap_tables::laws::{an_image_has_one_map, each_map_fits_in_a_table_file, images_are_whole};
use keymap_text::laws::printed_form_spells;

/// What is printed to type characters is a script that sends exactly the events that type them, and none of them is
/// lost.
pub fn typing_scripts_deliver_the_events()
    ensures { (m : MapValue) (cs : List ℕ) (x : TypingValue) → AreTyped m cs x
        → Delivers (typing_script x) (reverse x.events.items) }
{}

/// What is printed to type a sentence is a script that types it, played on the keymap alone.
pub fn typing_scripts_type_the_sentence()
    ensures { (m : MapValue) (bytes : List ℕ) (x : TypingValue) → IsTyped m bytes x
        → ScriptTypes m (typing_script x) bytes }
{}

/// What is printed to type characters, the comments that show a sentence among it, is UTF-8 that a terminal shows: no
/// control but a line feed, no mark that can't be seen and none that turns the direction of writing.
#[tactic(auto, using(crate::proofs::PlainScripts::typing_plain))]
pub fn typing_scripts_are_plain()
    ensures { (x : TypingValue) → All IsScalar (characters_of x.keyed.items) → IsPlainText (typing_script x) }
{}

/// What is printed of an answer of the search is a script: where it found a list, one that sends exactly this list, of
/// which nothing is lost, and which leaves a modifier on while no key is pressed, by the fewest presses, between the
/// same two keymaps where it has loads; and else one of no events.
pub fn found_scripts_deliver_the_answer()
    ensures alone { (m : MapValue) (found : StickingValue) → IsFoundUnder (alone m) found → AnswerReplays m found }
    ensures between { (ms : Maps) (found : StickingValue) → IsFoundUnder (with_loads ms) found
        → AnswerReplaysBetween ms found }
{}

/// What `play` types of the script that `type_run` printed for a sentence, over the same text, is that sentence.
pub fn typed_sentences_come_back()
    ensures { (board : BoardValue) (text sentence script typed : List ℕ) (t s u v : Option (List ℕ))
        → TypesSentence board (moves (Some text) t) (moves (Some sentence) s) (moves (Some []) (Some script)) (Ok tt)
        → Plays show.Typed (moves (Some text) u) (moves (Some script) v) (moves (Some []) (Some typed)) (Ok tt)
        → typed ≡ sentence }
{}

/// Behind the report of a keymap stands `demonstration: none`, or `demonstration:` and a script that sends exactly the
/// events of the demonstration, none of them lost, which leave a modifier on while no key is pressed.
pub fn printed_demonstrations_leave_a_modifier_on()
    ensures { (m : MapValue) → ShowsScript m (report m true) }
{}

/// What the run that prints it wrote for a text is a script of the events of a cover of the keymap that the text
/// spells, and of nothing else.
pub fn printed_covers_are_scripts()
    ensures { PrintedCoversAreScripts }
{}

/// So is what the run wrote that prints a script by the keyboard, where no repeat is left out.
pub fn printed_keyboard_covers_are_scripts()
    ensures { PrintedKeyboardCoversAreScripts }
{}

/// What `play` writes of the script that `cover_run` printed, over the same text, is what is played of the events of
/// a cover of its keymap.
pub fn printed_covers_are_played()
    ensures { (show : ShowValue) (text script told : List ℕ) (t u v : Option (List ℕ))
        → CoversText (moves (Some text) t) (moves (Some []) (Some script)) (Ok tt)
        → Plays show (moves (Some text) u) (moves (Some script) v) (moves (Some []) (Some told)) (Ok tt)
        → PlaysCover show text told }
{}

/// What the run that draws wrote for a text under a name, whatever the two are, is well formed and printable ASCII: no
/// keymap and no name brings an element, an attribute or a link of its own into a page.
pub fn drawn_pictures_are_well_formed()
    ensures { DrawnAreWellFormed }
{
    pictures_are_well_formed();
    pictures_are_plain();
}

/// A text that the run that prints diagnostics calls well spells a keymap under which no list of presses and releases
/// leaves a modifier on.
pub fn well_linted_texts_never_stick()
    ensures { WellLintedNeverStick }
{
    well_texts_never_stick();
}

/// A text that the run of the check accepts spells a keymap that keeps the promise.
pub fn accepted_texts_keep_their_promise()
    ensures { AcceptedKeepTheirPromise }
{
    safe_maps_keep_their_promise();
}

/// What is compiled of a text and then dumped is a text that spells the same keymap, by way of a table file and of a
/// narrow one.
pub fn compiled_texts_are_dumped()
    ensures tables { AreDumped CompilesText ReadsTables }
    ensures narrow { AreDumped CompilesNarrowly ReadsNarrow }
{
    each_map_fits_in_a_table_file();
    images_are_whole();
    an_image_has_one_map();
    printed_form_spells();
}

/// What is printed of a text in the layout, and what is handed out for a file to be replaced, spells the keymap that
/// the text spells.
pub fn laid_out_texts_spell_the_same()
    ensures printed { PrintedLayoutsSpellTheSame }
    ensures changed { ChangedTextsSpellTheSame }
{
    keymap_stays();
}
