//! What is said of a text, as values.
ghost use Rattle.std.specs.Prelude.{◌≡◌, ◌++◌, OnOk};
ghost use Rattle.std.specs.Option.{option_to_list};
ghost use Rattle.keymap_lint.specs.KindNames.{kind_name};
ghost use Rattle.keymap_lint.specs.Severities as spec;

use arrayvec::ArrayVec;
use console_states::Sticking;
use keymap_check::Finding;
use keymap_core::{ACCENT_LIMIT, Holding, KEY_COUNT, SLOT_LIMIT};
use keymap_places::{Defined, FaultPlace};
use keymap_text::{Span, TextFault};
use std::alloc::AllocError;

/// How serious a diagnostic is: `kmap lint` fails where a text has an error, and not for warnings.
#[derive(Clone, Copy, Debug, PartialEq, Eq)]
pub enum Severity {
    Error,
    Warning,
}

/// What is said of a text that spells a keymap. Accents are told by their index, 0 to 14; places of the text by their
/// offset in bytes.
#[derive(Clone, Copy, Debug, PartialEq, Eq)]
pub enum Kind {
    /// The text defines no slot. It has no place.
    NoKey,
    /// Keys type 40 of the 52 letters A to Z and a to z at least, and not all characters from 0x20 to 0x7e: those that
    /// they don't are `Diagnostics::untyped`. It has no place.
    CannotType,
    /// The text defines a slot, and no live cell is lshift or rshift. It has no place.
    NoShift,
    /// A key has a modifier or lock and a character, both in slots that the text defines. It stands at the cell of the
    /// modifier or lock.
    MixedKey {
        finding: Finding,
        /// The key's first character, which stands at `finding.character_at`.
        character: char,
    },
    /// Some cell selects the slots from 128 on, and of some key one slot is defined and the other one isn't. The slots
    /// that aren't are `Diagnostics::missing_slots`. It stands at the first ashift or alock of a slot below 128.
    HalfDefined {
        /// What stands there, ashift or alock.
        selector: Holding,
        /// Some key is a modifier or lock with a character in such a slot: the keys are `Diagnostics::nul_keys`.
        has_keys: bool,
    },
    /// A definition without effect: a later one defines the same. It stands at its first token.
    DefinedAgain {
        what: Defined,
        /// The offset of the last definition of the same.
        last: usize,
    },
    /// The text defines at least 40 of the 48 slots of the main block, and not all: those that it doesn't define are
    /// `Diagnostics::gaps`. It stands at the first definition of a slot below 128 that is greater than the first of
    /// them, or else at that of the greatest one.
    Gap,
    /// A live slot gives the capital of a letter without shift, and the letter with it. It stands at the cell of column
    /// 0.
    Exchanged {
        slot: u8,
        base: char,
        shifted: char,
    },
    /// In a column of the main block one letter stands in two slots, another one in none, and each other one in one: of
    /// a to z in column 0, of A to Z in column 1. It stands at the cell of the later definition.
    Twice {
        /// The two slots, the lesser one first.
        one: u8,
        other: u8,
        column: u8,
        character: char,
        missing: char,
    },
    /// Control types no control character of letters: these are `Diagnostics::lost_letters`. It stands at the first
    /// cell of column 2 of a slot of one of them.
    NoControl {
        /// It doesn't while ashift or alock is on, and does else.
        is_above: bool,
    },
    /// Some key is caps lock, and of the letters of live slots it makes no capitals: these are
    /// `Diagnostics::small_slots`. It stands at the first lock letter of such a slot.
    NoCaps,
    /// A character that is spelled by two or more decimal digits, the first of which is 0: in a cell, or as the
    /// character, a base or a result of an accent.
    OctalLike {
        character: char,
        /// The offset of its digits.
        start: usize,
        /// The number that they are as octal digits, where they may be and it is another one.
        octal: Option<u32>,
    },
    /// Live cells are dead keys of accents that the text doesn't define: these are `Diagnostics::missing_accents`. It
    /// stands at the first such cell.
    DeadKey {
        /// The text defines some other accent.
        defines_some: bool,
    },
    /// An accent whose own character is 0, and some live cell is its dead key. It stands at that character.
    ZeroAccent {
        accent: u8,
    },
    /// A pair of an accent that has a pair with the same base before it. It stands at the pair's parenthesis.
    PairAgain {
        accent: u8,
        base: char,
        /// The offset of the first pair with this base: of its parenthesis.
        first: usize,
    },
    /// No live cell is ashift or alock, and the text defines slots from 128 on: these are `Diagnostics::unused_slots`.
    /// The diagnostic stands at the first definition of such a slot that is in force.
    UnusedHalf,
    /// A cell that is spelled by one decimal digit, which is the number of this character.
    BareDigit {
        character: char,
    },
    /// A kind of a directive that keeps nothing back. It stands at this word.
    UnusedIgnore {
        word: Span,
    },
    /// A directive, or a word of one, that is wrong.
    BadIgnore {
        wrong: BadIgnore,
    },
}

/// What is wrong with a directive.
#[derive(Clone, Copy, Debug, PartialEq, Eq)]
pub enum BadIgnore {
    /// The word is no kind. It stands at this word.
    NoKind(Span),
    /// The word is a kind that can't be ignored. It stands at this word.
    NotIgnored(Span),
    /// No kind stands behind `ignore` or `ignore-text`. It stands at the `#`.
    NoKinds,
    /// Neither of these words stands behind `kmap:`. It stands at the `#`.
    NoWord,
}

/// A diagnostic: what is said, and the offset of its place in the text, if it has one.
#[derive(Clone, Copy, Debug, PartialEq, Eq)]
pub struct Diagnostic {
    pub place: Option<usize>,
    pub kind: Kind,
}

/// The diagnostics of a text that spells a keymap, in their order, and what some of them tell of. Of these kinds a text
/// has one diagnostic at most. The lists of numbers are in ascending order.
#[derive(Debug, Drop)]
pub struct Diagnostics {
    pub list: Vec<Diagnostic>,
    /// The characters from 0x20 to 0x7e that no keys type, where there is a `CannotType`.
    pub untyped: ArrayVec<u8, KEY_COUNT>,
    /// The slots that the text doesn't define though it defines the other slot of their key, 128 apart.
    pub missing_slots: ArrayVec<u8, SLOT_LIMIT>,
    /// The keys that have a modifier or lock and, in a slot that the text doesn't define, a character.
    pub nul_keys: ArrayVec<u8, KEY_COUNT>,
    /// The slots of the main block that the text doesn't define: those of letters, digits, punctuation and space bar.
    pub gaps: ArrayVec<u8, KEY_COUNT>,
    /// The letters a to z whose control character control doesn't type; those of the slots from 128 on also where the
    /// text defines none of their slots, of which there is no diagnostic.
    pub lost_letters: ArrayVec<u8, KEY_COUNT>,
    /// The live slots with a letter and its capital, whose lock letter is O or N.
    pub small_slots: ArrayVec<u8, SLOT_LIMIT>,
    /// The accents that the text doesn't define though a live cell is their dead key.
    pub missing_accents: ArrayVec<u8, ACCENT_LIMIT>,
    /// The slots from 128 on that the text defines.
    pub unused_slots: ArrayVec<u8, KEY_COUNT>,
    /// What the search for sticking modifiers answers; nothing where the check has no findings.
    pub sticking: Option<Sticking>,
}

/// A fault, what is wanted there, and the definition that has begun. Offsets and lines are those of the whole text.
#[derive(Clone, Copy, Debug, PartialEq, Eq)]
pub struct PlacedFault {
    pub fault: TextFault,
    pub place: FaultPlace,
}

/// What is said of a text.
#[derive(Debug, Drop)]
pub enum Lint {
    /// The text spells no keymap. It has one of these faults at least, in their order: the first one is its fault, and
    /// each other one is that of what stands behind the line of the one before, as a text of its own.
    Faulty(Vec<PlacedFault>),
    /// The text spells a keymap.
    Spelled(Diagnostics),
}

pub(crate) fn never_sticks(sticking: &Option<Sticking>) -> bool
    ensures { result ≡ spec.never_sticks sticking.now }
{
    matches!(sticking, Some(Sticking::Never))
}

fn error_unless(is_mild: bool) -> Severity
    ensures { result ≡ spec.error_unless is_mild }
{
    if is_mild {
        Severity::Warning
    } else {
        Severity::Error
    }
}

impl Kind {
    /// How much it weighs, by whether the search answers that no modifier ever stays on.
    pub fn severity(&self, never_sticks: bool) -> Severity
        ensures { result ≡ spec.severity_of never_sticks self.now }
    {
        match self {
            Kind::NoKey => Severity::Error,
            Kind::MixedKey { .. } => error_unless(never_sticks),
            Kind::HalfDefined { has_keys, .. } => error_unless(never_sticks || !*has_keys),
            _ => Severity::Warning,
        }
    }

    /// The name of the kind.
    #[tactic(auto, unfolding(crate::specs::KindNames::kind_name))]
    pub fn name(&self) -> &'static [u8]
        ensures { result.now ≡ kind_name self.now }
    {
        match self {
            Kind::NoKey => b"no-key",
            Kind::CannotType => b"cannot-type",
            Kind::NoShift => b"no-shift",
            Kind::MixedKey { .. } => b"mixed-key",
            Kind::HalfDefined { .. } => b"half-defined",
            Kind::DefinedAgain { .. } => b"defined-again",
            Kind::Gap => b"gap",
            Kind::Exchanged { .. } => b"exchanged",
            Kind::Twice { .. } => b"twice",
            Kind::NoControl { .. } => b"no-control",
            Kind::NoCaps => b"no-caps",
            Kind::OctalLike { .. } => b"octal-like",
            Kind::DeadKey { .. } => b"dead-key",
            Kind::ZeroAccent { .. } => b"zero-accent",
            Kind::PairAgain { .. } => b"pair-again",
            Kind::UnusedHalf => b"unused-half",
            Kind::BareDigit { .. } => b"bare-digit",
            Kind::UnusedIgnore { .. } => b"unused-ignore",
            Kind::BadIgnore { .. } => b"bad-ignore",
        }
    }
}

impl Severity {
    pub(crate) fn is_error(self) -> bool
        ensures { result ≡ spec.is_error self }
    {
        matches!(self, Severity::Error)
    }
}

impl Diagnostics {
    /// Whether the search answers that no modifier ever stays on.
    pub fn never_sticks(&self) -> bool
        ensures { result ≡ spec.never_sticks self.now.sticking }
    {
        never_sticks(&self.sticking)
    }

    fn has_error(&self) -> bool
        ensures { result ≡ spec.is_error_among self.now }
    {
        let never = self.never_sticks();
        self.list
            .as_slice()
            .iter()
            .any(|d| d.kind.severity(never).is_error())
    }
}

impl Lint {
    /// Whether the text has a fault, or some diagnostic is an error.
    pub fn has_error(&self) -> bool
        ensures { result ≡ spec.has_error self.now }
    {
        match self {
            Lint::Faulty(_) => true,
            Lint::Spelled(diagnostics) => diagnostics.has_error(),
        }
    }
}

/// What has been found.
pub(crate) type Found = Vec<Diagnostic>;

/// Nothing: there may be no memory for what is added.
pub(crate) type Added = Result<(), AllocError>;

/// Adds what is said, if something is.
pub(crate) fn add<T: Copy>(found: &mut Vec<T>, said: Option<T>) -> Added
    ensures { OnOk result (found.new.items ≡ found.old.items ++ option_to_list said) }
{
    if let Some(more) = said {
        found.push(more)?;
    }
    Ok(())
}
