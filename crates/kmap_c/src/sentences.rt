//! Sentences and names in a buffer of the caller: for the numbers of kinds of faults, for findings and for actions.
ghost use Rattle.std.specs.Prelude.{◌≡◌, ◌≢◌, ◌<◌, ◌≤◌, ◌++◌, [], length, slice_index_or};
ghost use Rattle.arrayvec.specs.ArrayVec.{array_vec_len};
ghost use Rattle.keymap_core.specs.Actions.{holding_index, IsAction, code_of, name_of};
ghost use Rattle.keymap_core.specs.declared.action.Action.{Action as ActionValue};
ghost use Rattle.keymap_core.specs.declared.action.Holding.{Holding as HoldingValue};
ghost use Rattle.keymap_tables.specs.declared.fault.TableFaultKind.{TableFaultKind as TableFaultKindValue};
ghost use Rattle.keymap_text.specs.declared.fault.TextFaultKind.{TextFaultKind as TextFaultKindValue};
ghost use Rattle.kmap_c.specs.Numbers.{kind_number};
ghost use Rattle.kmap_c.specs.Sentences.{IsSaid};
ghost use Rattle.kmap_c.specs.Sentences as spec;
ghost use Rattle.kmap_c.specs.Statuses as status;
ghost use Rattle.kmap_c.specs.TextFaults.{text_kind_number};

use crate::buffer::put;
use crate::status::{BAD_CODE, BAD_HOLDING, BAD_KIND, DONE, NO_ROOM};
use crate::tables::{KmapFinding, holding_of};
use crate::words::{
    BAD_ACTION, BAD_BYTE, BAD_CHARACTER, BAD_COUNT, BAD_FLAG, BAD_FUNCTION, BAD_LITERAL,
    BAD_NUMBER, BAD_PAD, BAD_WORD, COMBINED, END_INSIDE, KEY_TOO_LARGE, NOT_EMPTY, TOO_LONG,
    TOO_MANY_PAIRS, TOO_SHORT, UNEXPECTED, ZERO_BASE,
};
use keymap_check::{Place, say_of_key};
use keymap_core::{Action, Holding};
use messages::Line;

/// The sentence of a kind of fault of a table file, empty where the number names none.
fn table_sentence(kind: u32) -> &'static [u8]
    ensures words { result.now ≡ slice_index_or spec.table_sentences kind [] }
    ensures short { length result.now < spec.words_size }
{
    match kind {
        1 => TOO_SHORT,
        2 => TOO_LONG,
        3 => BAD_COUNT,
        4 => BAD_PAD,
        5 => BAD_FLAG,
        6 => BAD_ACTION,
        7 => COMBINED,
        8 => BAD_NUMBER,
        9 => NOT_EMPTY,
        _ => b"",
    }
}

/// The sentence of a kind of fault of a text, empty where the number names none.
fn text_sentence(kind: u32) -> &'static [u8]
    ensures words { result.now ≡ slice_index_or spec.text_sentences kind [] }
    ensures short { length result.now < spec.words_size }
{
    match kind {
        1 => BAD_BYTE,
        2 => BAD_LITERAL,
        3 => BAD_WORD,
        4 => UNEXPECTED,
        5 => KEY_TOO_LARGE,
        6 => BAD_CHARACTER,
        7 => BAD_FUNCTION,
        8 => TOO_MANY_PAIRS,
        9 => ZERO_BASE,
        10 => COMBINED,
        11 => END_INSIDE,
        _ => b"",
    }
}

/// Adds to an empty line the sentence of a finding of a modifier or lock: what `kmap check` says.
fn push_finding_sentence(line: &mut Line, holding: Holding, finding: &KmapFinding)
    requires { array_vec_len line.old ≡ 0 }
    ensures { line.new.items ≡ line.old.items ++ spec.finding_sentence holding finding.now }
{
    let holding_at = Place {
        slot: finding.holding_slot,
        column: finding.holding_column,
    };
    let character_at = Place {
        slot: finding.character_slot,
        column: finding.character_column,
    };
    say_of_key(line, finding.key, holding, holding_at, character_at);
}

/// Puts a sentence or a name and a 0 in front, where there is room for both.
fn say(sentence: &[u8], words: &mut [u8]) -> i32
    requires { length sentence.now < spec.words_size }
    ensures said { IsSaid sentence.now words.old result words.new }
    ensures room { length sentence.now < length words.old → result ≢ status.no_room }
{
    if words.len() <= sentence.len() {
        return NO_ROOM;
    }
    let end = put(words, 0, sentence);
    words[end] = 0;
    DONE
}

/// Puts the sentence of a kind of fault of a table file into a buffer, and a 0 behind it: `DONE`, or `BAD_KIND` where
/// the number names no kind, or `NO_ROOM` where there is none for both.
#[unsafe(no_mangle)]
pub extern "C" fn kmap_fault_words(kind: u32, words: &mut [u8]) -> i32
    ensures said { (k : TableFaultKindValue) → kind ≡ kind_number k
        → IsSaid (slice_index_or spec.table_sentences kind []) words.old result words.new }
    ensures no_kind { ((k : TableFaultKindValue) → kind ≢ kind_number k) → result ≡ status.bad_kind }
    ensures room { spec.words_size ≤ length words.old → result ≢ status.no_room }
    ensures unchanged { result ≢ status.done → words.new ≡ words.old }
{
    let sentence = table_sentence(kind);
    if sentence.is_empty() {
        return BAD_KIND;
    }
    say(sentence, words)
}

/// Puts the sentence of a kind of fault of a text into a buffer, and a 0 behind it: `DONE`, or `BAD_KIND` where the
/// number names no kind, or `NO_ROOM` where there is none for both.
#[unsafe(no_mangle)]
pub extern "C" fn kmap_text_fault_words(kind: u32, words: &mut [u8]) -> i32
    ensures said { (k : TextFaultKindValue) → kind ≡ text_kind_number k
        → IsSaid (slice_index_or spec.text_sentences kind []) words.old result words.new }
    ensures no_kind { ((k : TextFaultKindValue) → kind ≢ text_kind_number k) → result ≡ status.bad_kind }
    ensures room { spec.words_size ≤ length words.old → result ≢ status.no_room }
    ensures unchanged { result ≢ status.done → words.new ≡ words.old }
{
    let sentence = text_sentence(kind);
    if sentence.is_empty() {
        return BAD_KIND;
    }
    say(sentence, words)
}

/// Puts the sentence of a finding into a buffer, and a 0 behind it: `DONE`, or `BAD_HOLDING` where its `holding` is no
/// index of a modifier or lock, or `NO_ROOM` where there is none for both.
#[unsafe(no_mangle)]
pub extern "C" fn kmap_finding_words(finding: &KmapFinding, words: &mut [u8]) -> i32
    ensures said { (a : HoldingValue) → holding_index a ≡ finding.now.holding
        → IsSaid (spec.finding_sentence a finding.now) words.old result words.new }
    ensures no_holding { 11 < finding.now.holding → result ≡ status.bad_holding }
    ensures room { spec.words_size ≤ length words.old → result ≢ status.no_room }
    ensures unchanged { result ≢ status.done → words.new ≡ words.old }
{
    if finding.holding > 11 {
        return BAD_HOLDING;
    }
    let mut line = Line::new();
    push_finding_sentence(&mut line, holding_of(finding.holding), finding);
    say(line.as_slice(), words)
}

/// Puts the name of the action of a code into a buffer, and a 0 behind it: `DONE`, or `BAD_CODE` where no action has
/// the code, or `NO_ROOM` where there is none for both.
#[unsafe(no_mangle)]
pub extern "C" fn kmap_action_name(code: u32, name: &mut [u8]) -> i32
    ensures said { (a : ActionValue) → IsAction a → code ≡ code_of a
        → IsSaid (name_of a) name.old result name.new }
    ensures no_action { ((a : ActionValue) → IsAction a → code ≢ code_of a) → result ≡ status.bad_code }
    ensures room { spec.name_size ≤ length name.old → result ≢ status.no_room }
    ensures unchanged { result ≢ status.done → name.new ≡ name.old }
{
    if code > 255 {
        return BAD_CODE;
    }
    match Action::from_code(code as u8) {
        Some(action) => say(action.name().as_slice(), name),
        None => BAD_CODE,
    }
}
