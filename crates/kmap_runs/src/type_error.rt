//! Why a sentence isn't typed.
use std::alloc::AllocError;
use thiserror::Error;

/// Why a sentence isn't typed.
#[derive(Clone, Copy, Debug, PartialEq, Eq, Error)]
pub enum TypeError {
    #[error("out of memory")]
    Memory,
    /// The sentence isn't UTF-8: the offset of its first byte that belongs to no character.
    #[error("not UTF-8 at offset {offset}")]
    NotText { offset: u64 },
    /// Moves lead to no keys that type the character, from which more of them lead home: the first such character of
    /// the sentence, and the offset of its first byte.
    #[error("no keys were found for the character at offset {offset}")]
    NoWay { offset: u64, c: char },
    /// The keymap has more states than a search goes over, and no keys were found among these that type a character.
    #[error("more states than a search goes over")]
    TooManyStates,
}

impl From<AllocError> for TypeError {
    ghost use Rattle.std.specs.Prelude.{◌≡◌};
    ghost use Rattle.kmap_runs.specs.declared.type_error.TypeError.TheVariants.{Memory};

    ghost from_gives = { λ _ e. e ≡ Memory };

    fn from(_e: AllocError) -> TypeError {
        TypeError::Memory
    }
}
