//! Which characters a terminal doesn't show as they are, by Unicode's properties.
ghost use Rattle.std.specs.Prelude.{◌≡◌};
ghost use Rattle.keymap_core.specs.Unseen as spec;

/// Cc.
fn is_control(c: u32) -> bool
    ensures { result ≡ spec.is_control c }
{
    c < 32 || (127 <= c && c <= 159)
}

/// Zl and Zp.
fn ends_line(c: u32) -> bool
    ensures { result ≡ spec.ends_line c }
{
    0x2028 <= c && c <= 0x2029
}

/// Bidi_Control.
fn turns_direction(c: u32) -> bool
    ensures { result ≡ spec.turns_direction c }
{
    c == 0x61c
        || (0x200e <= c && c <= 0x200f)
        || (0x202a <= c && c <= 0x202e)
        || (0x2066 <= c && c <= 0x2069)
}

/// Default_Ignorable_Code_Point among the letters of scripts.
fn is_ignorable_letter(c: u32) -> bool
    ensures { result ≡ spec.is_ignorable_letter c }
{
    c == 0xad
        || c == 0x34f
        || c == 0x61c
        || (0x115f <= c && c <= 0x1160)
        || (0x17b4 <= c && c <= 0x17b5)
        || (0x180b <= c && c <= 0x180f)
}

/// Default_Ignorable_Code_Point among punctuation and variants.
fn is_ignorable_sign(c: u32) -> bool
    ensures { result ≡ spec.is_ignorable_sign c }
{
    (0x200b <= c && c <= 0x200f)
        || (0x202a <= c && c <= 0x202e)
        || (0x2060 <= c && c <= 0x206f)
        || c == 0x3164
        || (0xfe00 <= c && c <= 0xfe0f)
        || c == 0xfeff
}

/// Default_Ignorable_Code_Point from the half-width forms on.
fn is_ignorable_above(c: u32) -> bool
    ensures { result ≡ spec.is_ignorable_above c }
{
    c == 0xffa0
        || (0xfff0 <= c && c <= 0xfff8)
        || (0x1bca0 <= c && c <= 0x1bca3)
        || (0x1d173 <= c && c <= 0x1d17a)
        || (0xe0000 <= c && c <= 0xe0fff)
}

/// Interlinear annotation.
fn annotates(c: u32) -> bool
    ensures { result ≡ spec.annotates c }
{
    0xfff9 <= c && c <= 0xfffb
}

fn is_unseen_above(c: u32) -> bool
    ensures { result ≡ spec.is_unseen_above c }
{
    ends_line(c)
        || turns_direction(c)
        || is_ignorable_letter(c)
        || is_ignorable_sign(c)
        || is_ignorable_above(c)
        || annotates(c)
}

/// Whether a terminal doesn't show the character as it is: it is a control, ends a line, turns the direction of
/// writing, can't be seen, or sets a note between lines.
pub fn is_unseen(c: char) -> bool
    ensures { result ≡ spec.is_unseen c }
{
    let number = u32::from(c);
    is_control(number) || (127 < number && is_unseen_above(number))
}
