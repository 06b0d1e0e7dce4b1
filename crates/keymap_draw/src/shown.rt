//! Text that is shown: what a terminal doesn't show of it, or XML doesn't take, is replaced.
ghost use Rattle.std.specs.Prelude.{◌≡◌, true, IfOk};
ghost use Rattle.std.specs.List.{list_all};

use crate::markup::Added;
use crate::name::shown_words;
use std::alloc::Global;
use std::marker::Model;

/// Characters each of which may stand in a text.
#[derive(Drop)]
pub(crate) struct Shown {
    characters: Vec<char>,
}

impl Model for Shown {
    ghost use Rattle.std.specs.Prelude.{◌≡◌, ℕ, List, true};
    ghost use Rattle.std.specs.List.{list_all};
    ghost use Rattle.keymap_draw.specs.Sheets.{is_seen};

    ghost Value = { List ℕ };

    ghost view = { λ s. s.characters.items };

    ghost invariant = { λ s. list_all is_seen s.characters.items ≡ true };
}

impl Shown {
    ghost use Rattle.keymap_draw.specs.Drawings.{shown_words as shown_words_of};
    ghost use Rattle.keymap_draw.specs.Sheets.{is_seen};

    pub(crate) fn new(characters: Vec<char>) -> Shown
        requires { list_all is_seen characters.items ≡ true }
        ensures { result ≡ characters.items }
    {
        Shown { characters }
    }

    /// The text that is given, in UTF-8.
    #[tactic(auto, using(crate::proofs::Names::all_seen))]
    pub(crate) fn of(alloc: Global, given: &[u8]) -> Added<Shown>
        ensures { IfOk result (λ s. s ≡ shown_words_of given.now) }
    {
        let characters = shown_words(alloc, given)?;
        Ok(Shown::new(characters))
    }

    pub(crate) fn as_slice(&self) -> &[char]
        ensures characters { result.now ≡ self.now }
        ensures seen { list_all is_seen result.now ≡ true }
    {
        self.characters.as_slice()
    }
}
