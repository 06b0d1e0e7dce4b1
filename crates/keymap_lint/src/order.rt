//! The diagnostics of a text in their order.
ghost use Rattle.std.specs.Prelude.{OnOk};
ghost use Rattle.keymap_lint.specs.Lists.{AreOrdered};

use crate::diagnostic::Diagnostic;
use std::alloc::AllocError;

/// Puts the diagnostics in order: first those without a place, then by their place. Those of one place stay in the
/// order in which they are.
pub(crate) fn put_in_order(found: &mut Vec<Diagnostic>) -> Result<(), AllocError>
    ensures { OnOk result (AreOrdered found.old.items found.new.items) }
{
    found.sort_by_key(|diagnostic| diagnostic.place)?;
    Ok(())
}
