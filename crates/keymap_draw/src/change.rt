//! What a picture is told of a change.
ghost use Rattle.std.specs.Prelude.{◌≡◌, IfOk};

use crate::shown::Shown;
use keymap_core::KeyMap;
use std::alloc::{AllocError, Global};

/// What a line tells of.
#[derive(Clone, Copy, Debug, PartialEq, Eq)]
pub enum About {
    /// The keymaps as a whole.
    Whole,
    Slot(u8),
    /// An accent, by its index.
    Accent(u8),
}

/// A line that tells something of a change.
#[derive(Drop)]
pub struct ChangeLine {
    pub(crate) about: About,
    pub(crate) words: Shown,
}

impl About {
    ghost use Rattle.keymap_draw.specs.Drawings.{is_about};

    /// Whether both are the same.
    pub(crate) fn is(self, other: About) -> bool
        ensures { result ≡ is_about other self }
    {
        match (self, other) {
            (About::Whole, About::Whole) => true,
            (About::Slot(one), About::Slot(another)) => one == another,
            (About::Accent(one), About::Accent(another)) => one == another,
            _ => false,
        }
    }
}

impl ChangeLine {
    ghost use Rattle.keymap_draw.specs.Drawings.{shown_words};

    /// The line of these words, in UTF-8. U+FFFD stands for each character in them that a terminal doesn't show, and for
    /// what isn't UTF-8.
    ///
    /// # Errors
    ///
    /// There is no memory for it.
    pub fn new(alloc: Global, about: About, words: &[u8]) -> Result<ChangeLine, AllocError>
        ensures { IfOk result (λ line. line ≡ record { about = about; words = shown_words words.now }) }
    {
        let words = Shown::of(alloc, words)?;
        Ok(ChangeLine { about, words })
    }
}

/// A keymap as it was before a change, its name, in UTF-8, and the lines that tell the change: none where nothing has
/// changed.
#[derive(Clone, Copy)]
pub struct Before<'a> {
    pub map: &'a KeyMap,
    pub name: &'a [u8],
    pub lines: &'a [ChangeLine],
}
