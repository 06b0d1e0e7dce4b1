//! Laws of the diagnostics: what they promise of the keymap that a text spells, and of its faults. No function here
//! does anything.
ghost use Rattle.keymap_lint.specs.Positions.{CellsInForceAreSpelled, DiagnosticsStandInTheText};
ghost use Rattle.keymap_lint.specs.Same.{SameTokensSameAnswers, SameTokensSameDiagnostics, SameTokensTellOfTheSame};
ghost use Rattle.keymap_lint.specs.Promises.{FaultsAreInOrder, KeysAreNamedExactlyIfRefused, WellTextsNeverStick};

/// Where no diagnostic of a text is an error, the text spells a keymap, and after each list of presses and releases a
/// modifier is on only while a key that bears it is pressed: so none is on once no key is pressed.
#[tactic(auto, using(crate::proofs::Well::well_texts_never_stick))]
pub fn well_texts_never_stick()
    ensures { WellTextsNeverStick }
{}

/// A text that spells an accepted keymap has no `MixedKey`, and no `HalfDefined` that names keys; one that spells a
/// refused keymap has one of them, unless no modifier ever stays on and directives keep them back.
pub fn keys_are_named_exactly_if_refused()
    ensures { KeysAreNamedExactlyIfRefused }
{}

/// Each cell of a definition in force is a token of the text that spells what the map has there.
#[tactic(auto, using(crate::proofs::InForce::cells_in_force_are_spelled))]
pub fn cells_in_force_are_spelled()
    ensures { CellsInForceAreSpelled }
{}

/// Each diagnostic that has a place stands within the text, and so do the further places that it tells. A `MixedKey`
/// stands at a token that is its modifier or lock, a `HalfDefined` at its selector, a `DeadKey` at a dead key, and a
/// `BareDigit` at its character; a `Twice` at the letter, a `NoControl` at a cell of column 2, and an `OctalLike` at
/// its digits; a `DefinedAgain` and an `UnusedHalf` where a definition begins, a `ZeroAccent` at the
/// character, and a `PairAgain` at its parenthesis. What is said of directives stands at a word or at a `#`.
#[tactic(auto, using(crate::proofs::Standing::diagnostics_stand_in_the_text))]
pub fn diagnostics_stand_in_the_text()
    ensures { DiagnosticsStandInTheText }
{}

/// The diagnostics of two texts with the same tokens tell of the same slots, keys, letters and accents.
pub fn same_tokens_tell_of_the_same()
    ensures { SameTokensTellOfTheSame }
{}

/// Of two texts with the same tokens the searches answer the same: what no keys type, and whether a modifier may stay
/// on.
pub fn same_tokens_same_answers()
    ensures { SameTokensSameAnswers }
{}

/// Of two texts with the same tokens, and without directives, the diagnostics are the same but for places, in the same
/// order: each stands at the same token, and tells of the same tokens.
#[tactic(auto, using(crate::proofs::SameAnswers::same_tokens_same_diagnostics))]
pub fn same_tokens_same_diagnostics()
    ensures { SameTokensSameDiagnostics }
{}

/// Of a text with a fault there are 21 faults at most. The first one is the fault of the text, and each other one
/// stands in a later line than the one before it.
#[tactic(auto, using(crate::proofs::FaultOrder::faults_are_in_order))]
pub fn faults_are_in_order()
    ensures { FaultsAreInOrder }
{}
