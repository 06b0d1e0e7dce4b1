//! The two counts of a table file.
ghost use Rattle.std.specs.Prelude.{◌≡◌, length};
ghost use Rattle.keymap_tables.specs.Image.{count_bytes};
ghost use Rattle.keymap_tables.specs.Layouts.{count_size};

use crate::layout::{COUNT, Layout};
use crate::slot::push_zeros;
use arrayvec::ArrayVec;

/// The bytes of a count, with its pads.
pub(crate) fn count_image(layout: Layout, count: u16) -> ArrayVec<u8, COUNT>
    ensures bytes { result.items ≡ count_bytes layout count }
    ensures whole { length result.items ≡ count_size layout }
{
    let [low, high] = count.to_le_bytes();
    let mut image = ArrayVec::new();
    image.push(low);
    image.push(high);
    push_zeros(&mut image, layout.count());
    image
}
