//! Definitions without effect.
ghost use Rattle.std.specs.Prelude.{◌≡◌, ◌++◌, OnOk};
ghost use Rattle.std.specs.Option.{option_to_list};
ghost use Rattle.keymap_places.specs.Placed.{HasIndex};
ghost use Rattle.keymap_lint.specs.Spelled.{AreDefined};
ghost use Rattle.keymap_lint.specs.Kinds.{again as again_of, defined_again};

use crate::diagnostic::{Added, Diagnostic, Found, Kind, add};
use crate::spelled::SpelledText;
use keymap_places::Placed;

/// What is said of a definition that isn't the last one of what it defines.
fn again(text: &SpelledText, definition: &Placed) -> Option<Diagnostic>
    requires { HasIndex definition.now.what }
    ensures { option_to_list result ≡ again_of text.now definition.now }
{
    match text.last(definition.what) {
        Some(last) if last.first != definition.first => Some(Diagnostic {
            place: Some(text.offset(definition.first)),
            kind: Kind::DefinedAgain {
                what: definition.what,
                last: text.offset(last.first),
            },
        }),
        _ => None,
    }
}

/// Adds the definitions without effect, in their order: a later one defines the same.
pub(crate) fn add_defined_again(found: &mut Found, text: &SpelledText) -> Added
    requires { AreDefined text.now }
    ensures { OnOk result (found.new.items ≡ found.old.items ++ defined_again text.now) }
{
    for definition in text.definitions() {
        add(found, again(text, definition))?;
    }
    Ok(())
}
