//! Writing of tables.
ghost use Rattle.std.specs.Prelude.{◌≡◌, ◌+◌, ◌*◌, ◌^◌, ◌<◌, ◌≤◌, ◌||◌, is_err, OnOk};
ghost use Rattle.keymap_core.specs.Devices.{WritesText};
ghost use Rattle.keymap_core.specs.Bounds.{IsMap};
ghost use Rattle.keymap_core.specs.Streams.{Pushes, size_of};
ghost use Rattle.keymap_tables.specs.Image.{image, image_in, table_bytes, zeros};
ghost use Rattle.keymap_tables.specs.Layouts.{count_size};

use crate::count::count_image;
use crate::layout::Layout;
use crate::row::Row;
use keymap_core::laws::every_keymap_is_within_the_bounds;
use keymap_core::{Accent, Entry, KeyMap, Stream, Write, WriteFault};

/// Pushes the count of the rows of a map, the rows, and zeros in place of those past the last.
fn push_table<R: Row, W: Write>(
    stream: &mut Stream,
    writer: &mut W,
    layout: Layout,
    map: &KeyMap,
) -> Result<(), WriteFault>
    requires empty { R.image layout R.blank ≡ zeros (R.size layout) }
    requires counted { size_of stream.old + (count_size layout + R.MOST * R.size layout) < 2 ^ 64 }
    ensures bytes { Pushes (W.contents writer.old) (W.contents writer.new) stream.old stream.new
        (table_bytes layout (R.image layout) (R.size layout) R.MOST (R.rows map.now)) result }
    ensures count { OnOk result (size_of stream.new
        ≡ size_of stream.old + (count_size layout + R.MOST * R.size layout)) }
    ensures failed { W.has_failed writer.new ≡ (is_err result || W.has_failed writer.old) }
{
    stream.push(writer, count_image(layout, R::count(map)).as_slice())?;
    for index in 0..R::MOST {
        R::of(map, index).push(stream, writer, layout)?;
    }
    Ok(())
}

/// Writes the image of a map in a layout, gathered into few writes. It takes no memory.
pub(crate) fn write_image<W: Write>(
    layout: Layout,
    map: &KeyMap,
    writer: &mut W,
) -> Result<(), WriteFault>
    ensures bytes { WritesText (λ f. f.written) (W.contents writer.old) (W.contents writer.new)
        (image_in layout map.now) result }
    ensures failed { W.has_failed writer.new ≡ (is_err result || W.has_failed writer.old) }
{
    let mut stream = Stream::new();
    push_table::<Entry, W>(&mut stream, writer, layout, map)?;
    push_table::<Accent, W>(&mut stream, writer, layout, map)?;
    stream.finish(writer)
}

/// Writes the table file of a map: 15,524 bytes, gathered into few writes. It takes no memory.
pub fn write_tables<W: Write>(map: &KeyMap, writer: &mut W) -> Result<(), WriteFault>
    ensures bytes { WritesText (λ f. f.written) (W.contents writer.old) (W.contents writer.new) (image map.now) result }
    ensures failed { W.has_failed writer.new ≡ (is_err result || W.has_failed writer.old) }
    ensures known { IsMap map.now }
{
    every_keymap_is_within_the_bounds(map);
    write_image(Layout::Wide, map, writer)
}
