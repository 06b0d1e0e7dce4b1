//! Which characters are of scripts with large signs, by Unicode's blocks.
ghost use Rattle.std.specs.Prelude.{◌≡◌};
ghost use Rattle.keymap_draw.specs.Characters as spec;

/// Whether the character is of a script many of whose signs are wider or lower than others.
#[tactic(auto, unfolding(crate::specs::Characters::is_large))]
pub(crate) fn is_large(c: char) -> bool
    ensures { result ≡ spec.is_large c }
{
    // Oriya to Sinhala, Tibetan and Myanmar, Khmer and its symbols, Javanese.
    matches!(
        u32::from(c),
        0xb00..=0xdff | 0xf00..=0x109f | 0x1780..=0x17ff | 0x19e0..=0x19ff | 0xa980..=0xa9df
    )
}
