//! What is said of a text by a diagnostic: its severity, its message and its kind, in words.
ghost use Rattle.std.specs.Prelude.{◌≡◌, ◌∷◌, [], IsTrue, IfOk, slice_index};
ghost use Rattle.keymap_lint.specs.Positions.{TellsWithin};
ghost use Rattle.messages.specs.Filled.{has_places};
ghost use Rattle.keymap_lint.specs.Spelled.{bytes_at as bytes_in};
ghost use Rattle.keymap_names.specs.Lists.{ranges as ranges_of};
ghost use Rattle.keymap_names.specs.Shown.{word_text};
ghost use Rattle.keymap_lint_text.specs.Names as names;
ghost use Rattle.keymap_lint_text.specs.Said as spec;

use crate::letters::{cannot_type, no_control, octal_like};
use crate::wanted::{character_name, column as column_text, defined};
use crate::words::{
    ACCENTS, BARE_DIGIT, CR_ALONE, DEAD_KEY, DEFINED_AGAIN, EXCHANGED, GAP, HALF_DEFINED,
    MISSING_SLOT, MISSING_SLOTS, MIXED_KEY, NEVER_STICKS, NO_ACCENT, NO_KEY, NO_KIND, NO_KINDS,
    NO_SHIFT, NO_WORD, NOT_IGNORED, NOT_JOINED, NUL_KEY, NUL_KEYS, ONE_ACCENT, OTHER_SLOT,
    PAIR_AGAIN, SMALL_SLOT, SMALL_SLOTS, TWICE, UNUSED_IGNORE, UNUSED_SLOT, UNUSED_SLOTS,
    ZERO_ACCENT,
};
use keymap_check::Finding;
use keymap_core::Holding;
use keymap_lint::{BadIgnore, Diagnostic, Diagnostics, Kind, Severity, bytes_at};
use keymap_names::{accent_name, accents, ranges, word};
use keymap_places::{Defined, TextLines};
use keymap_text::Span;
use messages::{either, filled, number};
use std::alloc::{AllocError, Global};

pub(crate) fn severity_text(severity: Severity) -> &'static [u8]
    ensures { result.now ≡ names.severity_text severity }
{
    match severity {
        Severity::Error => b"error",
        Severity::Warning => b"warning",
    }
}

/// Ascending numbers in the words for one number or in those for more.
fn counted(alloc: Global, one: &[u8], more: &[u8], numbers: &[u8]) -> Result<Vec<u8>, AllocError>
    requires one { IsTrue (has_places one.now (ranges_of numbers.now ∷ [])) }
    requires more { IsTrue (has_places more.now (ranges_of numbers.now ∷ [])) }
    ensures { IfOk result (λ text. text.items ≡ spec.counted one.now more.now numbers.now) }
{
    let told = ranges(alloc, numbers)?;
    if numbers.len() == 1 {
        filled(alloc, one, &[told.as_slice()])
    } else {
        filled(alloc, more, &[told.as_slice()])
    }
}

/// What is said besides of an accent that is defined again.
fn not_joined(what: Defined) -> &'static [u8]
    ensures { result.now ≡ spec.not_joined what }
{
    match what {
        Defined::Slot(_) => b"",
        Defined::Accent(_) => NOT_JOINED,
    }
}

/// The slot of the character, where it isn't that of the modifier or lock.
fn other_slot(alloc: Global, finding: &Finding) -> Result<Vec<u8>, AllocError>
    ensures { IfOk result (λ text. text.items ≡ spec.other_slot finding.now) }
{
    let slot = finding.character_at.slot;
    if finding.holding_at.slot == slot {
        Ok(Vec::new(alloc))
    } else {
        filled(alloc, OTHER_SLOT, &[number(u64::from(slot)).as_slice()])
    }
}

/// The verdict on the whole keymap, where no modifier ever stays on.
fn never_text(never: bool) -> &'static [u8]
    ensures { result.now ≡ spec.never_text never }
{
    if never { NEVER_STICKS } else { b"" }
}

/// What is said of a key that is a modifier or lock and has a character.
#[tactic(auto, unfolding(crate::specs::Said::mixed_key_text))]
fn mixed_key(
    alloc: Global,
    finding: &Finding,
    character: char,
    never: bool,
) -> Result<Vec<u8>, AllocError>
    ensures { IfOk result (λ text. text.items ≡ spec.mixed_key_text finding.now character never) }
{
    let name = finding.holding.action().name();
    filled(
        alloc,
        MIXED_KEY,
        &[
            number(u64::from(finding.key.get())).as_slice(),
            name.as_slice(),
            character_name(alloc, character)?.as_slice(),
            column_text(alloc, usize::from(finding.character_at.column))?.as_slice(),
            other_slot(alloc, finding)?.as_slice(),
            name.as_slice(),
            never_text(never),
        ],
    )
}

/// What is said of slots that the text doesn't define, and of the keys that have a character in one of them.
#[tactic(auto, unfolding(crate::specs::Said::half_defined_text))]
fn half_defined(
    alloc: Global,
    lint: &Diagnostics,
    selector: Holding,
    has_keys: bool,
) -> Result<Vec<u8>, AllocError>
    ensures { IfOk result (λ text. text.items ≡ spec.half_defined_text lint.now selector has_keys) }
{
    let name = selector.action().name();
    let missing = lint.missing_slots.as_slice();
    let slots = counted(alloc, MISSING_SLOT, MISSING_SLOTS, missing)?;
    let keys = counted(alloc, NUL_KEY, NUL_KEYS, lint.nul_keys.as_slice())?;
    let keys = either(has_keys, keys.as_slice(), b"");
    filled(
        alloc,
        HALF_DEFINED,
        &[name.as_slice(), slots.as_slice(), keys],
    )
}

/// What is said of a definition without effect, by the line of the last one.
#[tactic(auto, unfolding(crate::specs::Said::defined_again_text))]
fn defined_again(alloc: Global, what: Defined, last: u64) -> Result<Vec<u8>, AllocError>
    ensures { IfOk result (λ text. text.items ≡ spec.defined_again_text what last) }
{
    let line = number(last);
    let defined = defined(alloc, what)?;
    filled(
        alloc,
        DEFINED_AGAIN,
        &[defined.as_slice(), line.as_slice(), not_joined(what)],
    )
}

/// What is said of slots of the main block that the text doesn't define.
fn gap(alloc: Global, slots: &[u8]) -> Result<Vec<u8>, AllocError>
    ensures { IfOk result (λ text. text.items ≡ spec.gap_text slots.now) }
{
    let told = counted(alloc, MISSING_SLOT, MISSING_SLOTS, slots)?;
    filled(alloc, GAP, &[told.as_slice()])
}

/// What is said of a capital where its letter is wanted.
#[tactic(auto, unfolding(crate::specs::Said::exchanged_text))]
fn exchanged(alloc: Global, slot: u8, base: char, shifted: char) -> Result<Vec<u8>, AllocError>
    ensures { IfOk result (λ text. text.items ≡ spec.exchanged_text slot base shifted) }
{
    filled(
        alloc,
        EXCHANGED,
        &[
            number(u64::from(slot)).as_slice(),
            character_name(alloc, base)?.as_slice(),
            character_name(alloc, shifted)?.as_slice(),
        ],
    )
}

/// What is said of a letter in two slots, and of one in none.
#[tactic(auto, unfolding(crate::specs::Said::twice_text))]
fn twice(
    alloc: Global,
    slots: [u8; 2],
    place: u8,
    character: char,
    missing: char,
) -> Result<Vec<u8>, AllocError>
    ensures { IfOk result (λ text. text.items
        ≡ spec.twice_text (slice_index slots 0) (slice_index slots 1) place character missing) }
{
    let [one, other] = slots;
    filled(
        alloc,
        TWICE,
        &[
            number(u64::from(one)).as_slice(),
            number(u64::from(other)).as_slice(),
            character_name(alloc, character)?.as_slice(),
            column_text(alloc, usize::from(place))?.as_slice(),
            character_name(alloc, missing)?.as_slice(),
        ],
    )
}

/// What is said of dead keys of accents that the text doesn't define, where it defines some other accent or none.
#[tactic(auto, unfolding(crate::specs::Said::dead_key_text))]
fn dead_key(alloc: Global, missing: &[u8], defines_some: bool) -> Result<Vec<u8>, AllocError>
    ensures { IfOk result (λ text. text.items ≡ spec.dead_key_text missing.now defines_some) }
{
    let names = accents(alloc, missing)?;
    if defines_some {
        let one = either(missing.len() == 1, ONE_ACCENT, ACCENTS);
        filled(alloc, DEAD_KEY, &[names.as_slice(), one])
    } else {
        filled(alloc, NO_ACCENT, &[names.as_slice()])
    }
}

/// What is said of a character that is spelled as a bare digit.
#[tactic(auto, unfolding(crate::specs::Said::bare_digit_text))]
fn bare_digit(alloc: Global, character: char) -> Result<Vec<u8>, AllocError>
    ensures { IfOk result (λ text. text.items ≡ spec.bare_digit_text character) }
{
    let digits = number(u64::from(character as u32));
    let digit = digits.as_slice();
    let text = character_name(alloc, character)?;
    filled(alloc, BARE_DIGIT, &[digit, digit, text.as_slice(), digit])
}

fn has_byte(byte: u8, text: &[u8]) -> bool
    ensures { result ≡ spec.has_byte byte text.now }
{
    text.iter().any(|c| *c == byte)
}

/// Whether the lines of a text end in CR alone.
fn ends_in_cr(text: &[u8]) -> bool
    ensures { result ≡ spec.ends_in_cr text.now }
{
    has_byte(b'\r', text) && !has_byte(b'\n', text)
}

/// What is said of a word of the text.
fn of_word(alloc: Global, words: &[u8], source: &[u8], at: Span) -> Result<Vec<u8>, AllocError>
    requires { IsTrue (has_places words.now (word_text (bytes_in source.now at) ∷ [])) }
    ensures { IfOk result (λ text. text.items ≡ spec.of_word words.now source.now at) }
{
    filled(
        alloc,
        words,
        &[word(alloc, bytes_at(source, at))?.as_slice()],
    )
}

/// What is said of a directive that is wrong.
fn bad_ignore(alloc: Global, source: &[u8], wrong: BadIgnore) -> Result<Vec<u8>, AllocError>
    ensures { IfOk result (λ text. text.items ≡ spec.bad_ignore_text source.now wrong) }
{
    match wrong {
        BadIgnore::NoKind(at) => of_word(alloc, NO_KIND, source, at),
        BadIgnore::NotIgnored(at) => of_word(alloc, NOT_IGNORED, source, at),
        BadIgnore::NoKinds => filled(alloc, NO_KINDS, &[]),
        BadIgnore::NoWord => filled(alloc, NO_WORD, &[]),
    }
}

/// What is said of a text without a key, which a comment that reaches to the end of the text may hide.
#[tactic(auto, unfolding(crate::specs::Said::no_key_text))]
fn no_key(alloc: Global, source: &[u8]) -> Result<Vec<u8>, AllocError>
    ensures { IfOk result (λ text. text.items ≡ spec.no_key_text source.now) }
{
    filled(alloc, NO_KEY, &[either(ends_in_cr(source), CR_ALONE, b"")])
}

/// What is said of a text that spells a keymap. A character is given as a text that is Unicode has it.
#[tactic(auto, unfolding(crate::specs::Said::message_text))]
pub(crate) fn kind_message(
    alloc: Global,
    source: &TextLines,
    lint: &Diagnostics,
    kind: &Kind,
) -> Result<Vec<u8>, AllocError>
    requires { TellsWithin source.now kind.now }
    ensures { IfOk result (λ text. text.items ≡ spec.message_text source.now lint.now kind.now) }
{
    match kind {
        Kind::NoKey => no_key(alloc, source.text()),
        Kind::CannotType => cannot_type(alloc, lint.untyped.as_slice()),
        Kind::NoShift => filled(alloc, NO_SHIFT, &[]),
        Kind::MixedKey { finding, character } => mixed_key(
            alloc,
            finding,
            *character,
            lint.never_sticks(),
        ),
        Kind::HalfDefined { selector, has_keys } => half_defined(alloc, lint, *selector, *has_keys),
        Kind::DefinedAgain { what, last } => {
            defined_again(alloc, *what, source.number_at(*last))
        }
        Kind::Gap => gap(alloc, lint.gaps.as_slice()),
        Kind::Exchanged {
            slot,
            base,
            shifted,
        } => exchanged(alloc, *slot, *base, *shifted),
        Kind::Twice {
            one,
            other,
            column,
            character,
            missing,
        } => twice(alloc, [*one, *other], *column, *character, *missing),
        Kind::NoControl { is_above } => no_control(alloc, lint.lost_letters.as_slice(), *is_above),
        Kind::NoCaps => { counted(alloc, SMALL_SLOT, SMALL_SLOTS, lint.small_slots.as_slice()) }
        Kind::OctalLike {
            character,
            start,
            octal,
        } => octal_like(alloc, source.text(), *character, *start, *octal),
        Kind::DeadKey { defines_some } => {
            dead_key(alloc, lint.missing_accents.as_slice(), *defines_some)
        }
        Kind::ZeroAccent { accent } => {
            filled(alloc, ZERO_ACCENT, &[accent_name(*accent).as_slice()])
        }
        Kind::PairAgain {
            accent,
            base,
            first,
        } => {
            let name = accent_name(*accent);
            let base = character_name(alloc, *base)?;
            let line = number(source.number_at(*first));
            filled(
                alloc,
                PAIR_AGAIN,
                &[name.as_slice(), base.as_slice(), line.as_slice()],
            )
        }
        Kind::UnusedHalf => {
            counted(
                alloc,
                UNUSED_SLOT,
                UNUSED_SLOTS,
                lint.unused_slots.as_slice(),
            )
        }
        Kind::BareDigit { character } => bare_digit(alloc, *character),
        Kind::UnusedIgnore { word } => of_word(alloc, UNUSED_IGNORE, source.text(), *word),
        Kind::BadIgnore { wrong } => bad_ignore(alloc, source.text(), *wrong),
    }
}

/// Whether this is a `MixedKey` of a key from this one on.
fn is_mixed_from(key: u8, kind: &Kind) -> bool
    ensures { result ≡ names.is_mixed_from key kind.now }
{
    match kind {
        Kind::MixedKey { finding, .. } => key <= finding.key.get(),
        _ => false,
    }
}

fn has_mixed_from(list: &[Diagnostic], key: u8) -> bool
    ensures { result ≡ names.has_mixed_from list.now key }
{
    list.iter().any(|other| is_mixed_from(key, &other.kind))
}

/// Whether what the search answered is told behind a diagnostic of this kind, of all in the list: behind the `MixedKey`
/// of the greatest key, or where there is none behind a `HalfDefined` that has keys.
#[tactic(auto, unfolding(crate::specs::Names::is_noted))]
pub(crate) fn is_noted(list: &[Diagnostic], kind: &Kind) -> bool
    ensures { result ≡ names.is_noted list.now kind.now }
{
    match kind {
        Kind::MixedKey { finding, .. } => !has_mixed_from(list, finding.key.get() + 1),
        Kind::HalfDefined { has_keys, .. } => *has_keys && !has_mixed_from(list, 0),
        _ => false,
    }
}
