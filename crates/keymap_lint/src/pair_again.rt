//! Pairs of an accent without effect.
ghost use Rattle.std.specs.Prelude.{◌≡◌, ◌<◌, ◌≤◌, ◌++◌, IfSome, OnOk, length};
ghost use Rattle.std.specs.Option.{option_to_list};
ghost use Rattle.keymap_core.specs.Numbers.{accent_limit, pair_limit};
ghost use Rattle.keymap_core.specs.Below.{first_below, gathered};
ghost use Rattle.keymap_lint.specs.Kinds.{paren as paren_of, has_base as has_base_of, pair_again as pair_again_of};
ghost use Rattle.keymap_lint.specs.Kinds.{accent_pairs as accent_pairs_of, pairs_again};

use crate::diagnostic::{Added, Diagnostic, Found, Kind, add};
use crate::spelled::SpelledText;
use keymap_core::ACCENT_LIMIT;

/// Whether the two pairs have the same base.
fn has_base(pairs: &[(char, char)], place: usize, other: usize) -> bool
    requires place { place < length pairs.now }
    requires other { other < length pairs.now }
    ensures { result ≡ has_base_of pairs.now place other }
{
    pairs[other].0 == pairs[place].0
}

/// The first pair before this one with the same base.
fn before(pairs: &[(char, char)], place: usize) -> Option<usize>
    requires { place < length pairs.now }
    ensures value { result ≡ first_below (has_base_of pairs.now place) place }
    ensures in_range { IfSome result (λ other. other < place) }
{
    (0..place).find(|other| has_base(pairs, place, *other))
}

/// The offset of a pair's parenthesis, where the accent's definition begins with this token.
fn paren(text: &SpelledText, first: usize, place: usize) -> usize
    requires { place ≤ pair_limit }
    ensures { result ≡ paren_of text.now first place }
{
    text.offset_behind(first, 4 * place + 2)
}

/// What is said of a pair whose base another one before it has.
fn pair_again(
    text: &SpelledText,
    accent: u8,
    first: usize,
    pairs: &[(char, char)],
    place: usize,
) -> Option<Diagnostic>
    requires place { place < length pairs.now }
    requires few { length pairs.now ≤ pair_limit }
    ensures { option_to_list result ≡ pair_again_of text.now accent first pairs.now place }
{
    match before(pairs, place) {
        Some(other) => Some(Diagnostic {
            place: Some(paren(text, first, place)),
            kind: Kind::PairAgain {
                accent,
                base: pairs[place].0,
                first: paren(text, first, other),
            },
        }),
        None => None,
    }
}

/// Adds what is said of the pairs of an accent whose definition begins with this token.
#[tactic(auto, using(crate::proofs::Lists::gathered_rules))]
fn add_pairs(
    found: &mut Found,
    text: &SpelledText,
    accent: u8,
    first: usize,
    pairs: &[(char, char)],
) -> Added
    requires { length pairs.now ≤ pair_limit }
    ensures { OnOk result (found.new.items ≡ found.old.items
        ++ gathered (pair_again_of text.now accent first pairs.now) (length pairs.now)) }
{
    for place in 0..pairs.len() {
        add(found, pair_again(text, accent, first, pairs, place))?;
    }
    Ok(())
}

/// Adds what is said of the pairs of an accent, if it is defined.
fn add_accent(found: &mut Found, text: &SpelledText, index: u8) -> Added
    requires { index < accent_limit }
    ensures { OnOk result (found.new.items ≡ found.old.items ++ accent_pairs_of text.now index) }
{
    let Some(definition) = text.accent(index) else {
        return Ok(());
    };
    let Some(accent) = text.map().accent(index) else {
        return Ok(());
    };
    add_pairs(found, text, index, definition.first, accent.pairs())
}

/// Adds the pairs of accents without effect, accent by accent in the order of their indices: an earlier pair of the
/// accent has the same base.
#[tactic(auto, using(crate::proofs::Lists::gathered_rules))]
pub(crate) fn add_pairs_again(found: &mut Found, text: &SpelledText) -> Added
    ensures { OnOk result (found.new.items ≡ found.old.items ++ pairs_again text.now) }
{
    for index in 0..ACCENT_LIMIT as u8 {
        add_accent(found, text, index)?;
    }
    Ok(())
}
