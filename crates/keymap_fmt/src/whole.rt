//! A text in the layout.
ghost use Rattle.std.specs.Prelude.{◌≡◌, ◌≤◌, IfOk, IfErr, IsOk, vec_len};
ghost use Rattle.keymap_core.specs.Maps.{MapValue};
ghost use Rattle.keymap_text.specs.Meaning.{Spells};
ghost use Rattle.keymap_text.specs.Sources.{limit};
ghost use Rattle.keymap_fmt.specs.Formatted.{rendered};
ghost use Rattle.keymap_fmt.specs.Pieces.{pieces};
ghost use Rattle.keymap_fmt.specs.Quoted.{laid_by, written_from};
ghost use Rattle.keymap_fmt.specs.Refused.{IsRefused, IsUnfinished};

use crate::layout::{State, end_line};
use crate::piece::{Standing, behind, next_piece};
use crate::quoted::{Characters, Quoting, left_by, push_changed};
use keymap_places::is_unicode;
use keymap_text::{LIMIT, TextError, TextFault, read_map};
use std::alloc::Global;
use thiserror::Error;

/// Why a text was not formatted.
#[derive(Clone, Copy, Debug, PartialEq, Eq, Error)]
pub enum FormatError {
    #[error("out of memory")]
    Memory,
    #[error("the text has a fault")]
    Fault(TextFault),
    /// The formatted text would have more bytes than a text may have.
    #[error("the text is too long when formatted")]
    TooLong,
}

/// What stands for the pieces of a text in the layout, up to a byte where no token stands.
fn laid_out(alloc: Global, text: &[u8], quoting: Quoting) -> Result<Vec<u8>, FormatError>
    ensures laid { IfOk result (λ laid. laid.items ≡ rendered (written_from quoting 0 (pieces text.now))) }
    ensures short { IfOk result (λ laid. vec_len laid ≤ limit) }
    ensures refused { IfErr result (IsUnfinished (rendered (written_from quoting 0 (pieces text.now)))) }
{
    let mut laid = Vec::new(alloc);
    let mut state = State::start();
    let mut standing = Standing::AtTop;
    let mut left = 0;
    let mut at = 0;
    while let Some(piece) = next_piece(text, at, standing) {
        let Ok(()) = push_changed(&mut laid, &mut state, quoting, left, &piece) else {
            return Err(FormatError::Memory);
        };
        if laid.len() > LIMIT {
            return Err(FormatError::TooLong);
        }
        standing = behind(piece.part);
        left = left_by(quoting, left, &piece);
        at = piece.end;
    }
    let Ok(()) = end_line(&mut laid, state.column) else {
        return Err(FormatError::Memory);
    };
    if laid.len() > LIMIT {
        return Err(FormatError::TooLong);
    }
    Ok(laid)
}

/// How the layout of a text has its characters.
fn quoting_of(text: &[u8], characters: Characters) -> Quoting
    ensures { rendered (written_from result 0 (pieces text.now)) ≡ laid_by characters text.now }
{
    match characters {
        Characters::Kept => Quoting::Off,
        Characters::Quoted => Quoting::On {
            sure: is_unicode(text),
        },
    }
}

/// A text that spells a keymap, in the layout.
pub fn format(alloc: Global, text: &[u8], characters: Characters) -> Result<Vec<u8>, FormatError>
    ensures laid { IfOk result (λ laid. laid.items ≡ laid_by characters text.now) }
    ensures short { IfOk result (λ laid. vec_len laid ≤ limit) }
    ensures spells { IsOk result → (m : MapValue) × Spells text.now m }
    ensures refused { IfErr result (IsRefused text.now (laid_by characters text.now)) }
{
    match read_map(alloc, text) {
        Ok(_) => laid_out(alloc, text, quoting_of(text, characters)),
        Err(TextError::Fault(fault)) => Err(FormatError::Fault(fault)),
        Err(_) => Err(FormatError::Memory),
    }
}
