//! Which characters a text has as they are, between apostrophes.
ghost use Rattle.std.specs.Prelude.{◌≡◌};
ghost use Rattle.keymap_names.specs.Quoted as spec;

use keymap_core::is_unseen;
use ucd_bidi::BidiClass;
use ucd_category::{GeneralCategory, GeneralCategoryGroup};

/// Whether a character of this category is a letter, a digit, a punctuation mark or a symbol.
fn is_sign(category: GeneralCategory) -> bool
    ensures { result ≡ spec.is_sign category }
{
    GeneralCategoryGroup::Letter.contains(category)
        || GeneralCategoryGroup::Number.contains(category)
        || GeneralCategoryGroup::Punctuation.contains(category)
        || GeneralCategoryGroup::Symbol.contains(category)
}

/// Whether a character of this class is written from right to left.
fn is_from_right(class: BidiClass) -> bool
    ensures { result ≡ spec.is_from_right class }
{
    match class {
        BidiClass::ArabicLetter | BidiClass::ArabicNumber | BidiClass::RightToLeft => true,
        _ => false,
    }
}

/// Whether a text has the character as it is, between apostrophes, rather than as a number or a name: it is one of
/// ASCII and no control, or a letter, digit, punctuation mark or symbol above the controls that is not written from
/// right to left and that a terminal shows.
pub fn is_quoted(c: char) -> bool
    ensures { result ≡ spec.is_quoted c }
{
    if c < '\u{a0}' {
        '\u{20}' <= c && c <= '\u{7e}'
    } else {
        is_sign(GeneralCategory::for_char(c))
            && !is_from_right(BidiClass::for_char(c))
            && !is_unseen(c)
    }
}
