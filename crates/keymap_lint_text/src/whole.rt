//! All that is printed of a text.
ghost use Rattle.std.specs.Prelude.{◌≡◌, IfOk};
ghost use Rattle.keymap_lint_text.specs.Heads.{printed as printed_of};
ghost use Rattle.keymap_lint_text.specs.Told.{remarks_of};
ghost use Rattle.keymap_names.specs.Shown.{shown_name as shown_name_of};

use crate::printer::printed;
use crate::remark::Remark;
use keymap_names::shown_name;
use keymap_places::TextLines;
use std::alloc::{AllocError, Global};

/// What is printed of the remarks on a text under the name of its file, as `shown_name` shows that. `Err` means that
/// memory was refused.
pub fn remarks_text(
    alloc: Global,
    file: &[u8],
    source: &[u8],
    remarks: &[Remark],
) -> Result<Vec<u8>, AllocError>
    ensures { IfOk result (λ text. text.items
        ≡ printed_of (shown_name_of file.now) source.now (remarks_of remarks.now)) }
{
    if remarks.is_empty() {
        return Ok(Vec::new(alloc));
    }
    let name = shown_name(alloc, file)?;
    let lines = TextLines::new(alloc, source)?;
    printed(alloc, name.as_slice(), &lines, remarks)
}
