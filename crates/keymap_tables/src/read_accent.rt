//! Reading of an accent: its own character, its pairs, and zeros.
ghost use Rattle.std.specs.Prelude.{◌≡◌, ◌≢◌, ℕ, ◌<◌, ◌≤◌, length, IfOk, IfErr};
ghost use Rattle.keymap_core.specs.Numbers.{pair_limit};
ghost use Rattle.keymap_tables.specs.Faults.{accent_fault, base_at, pairs_in, IsFirstFault};
ghost use Rattle.keymap_tables.specs.Inner.Taken.{IsAccentIn};
ghost use Rattle.keymap_tables.specs.Image.{accent_bytes};
ghost use Rattle.keymap_tables.specs.Layouts.{accent_size};

use crate::fault::{TableFault, TableFaultKind};
use crate::layout::Layout;
use crate::number::{check_zeros, read_char, read_number};
use keymap_core::{Accent, PAIR_LIMIT};

/// How many pairs stand before the first base 0.
fn count_pairs(layout: Layout, bytes: &[u8]) -> usize
    requires { length bytes.now ≡ accent_size layout }
    ensures value { result ≡ pairs_in layout bytes.now }
    ensures few { result ≤ pair_limit }
    ensures bases { (pair : ℕ) → pair < result → base_at layout bytes.now pair ≢ 0 }
{
    for pair in 0..PAIR_LIMIT {
        if read_number(layout, bytes, 1 + 2 * pair) == 0 {
            return pair;
        }
    }
    PAIR_LIMIT
}

/// The accent whose image the bytes are, or their first fault.
pub(crate) fn read_accent(layout: Layout, bytes: &[u8]) -> Result<Accent, TableFault>
    requires { length bytes.now ≡ accent_size layout }
    ensures image { IfOk result (λ accent. bytes.now ≡ accent_bytes layout accent) }
    ensures known { IfOk result (IsAccentIn layout) }
    ensures fault { IfErr result (λ f. IsFirstFault (accent_fault layout bytes.now) f
        × (f.offset < accent_size layout)) }
{
    let pairs = count_pairs(layout, bytes);
    let mut accent = Accent::new(read_char(layout, bytes, 0)?);
    for pair in 0..pairs {
        let base = read_char(layout, bytes, 1 + 2 * pair)?;
        let composed = read_char(layout, bytes, 2 + 2 * pair)?;
        accent.push_pair(base, composed).unwrap();
    }
    let end = layout.number() * (1 + 2 * pairs);
    check_zeros(bytes, end, TableFaultKind::NotEmpty)?;
    Ok(accent)
}
