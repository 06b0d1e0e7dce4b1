//! Laws of a text and its layout. No function here does anything.
ghost use Rattle.layout_lint.specs.Layouts.{LayoutsAnswerTheSame, LayoutsKeepDiagnostics, LayoutsTellOfTheSame};

use keymap_fmt::laws::tokens_stay;
use keymap_lint::laws::{same_tokens_same_answers, same_tokens_tell_of_the_same};

/// The diagnostics of a text and of its layout are the same but for places, in the same order, whatever directives
/// stand there: each stands at the same byte, where blanks and line ends don't count, and at the same token if at one.
/// They tell of the same slots, keys, letters and accents, and what no keys type and whether a modifier may stay on is
/// answered alike.
pub fn layouts_keep_diagnostics()
    ensures diagnostics { LayoutsKeepDiagnostics }
    ensures answers { LayoutsAnswerTheSame }
    ensures told { LayoutsTellOfTheSame }
{
    tokens_stay();
    same_tokens_same_answers();
    same_tokens_tell_of_the_same();
}
