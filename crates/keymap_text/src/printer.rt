//! Printing a map, a line at a time, through a buffer that makes few writes of many lines.
ghost use Rattle.std.specs.Prelude.{◌≡◌, ◌+◌, ◌^◌, ◌<◌, ◌≤◌, ◌||◌, OnOk, is_err};
ghost use Rattle.keymap_core.specs.Devices.{WritesText};
ghost use Rattle.keymap_core.specs.Streams.{Pushes, size_of};
ghost use Rattle.keymap_text.specs.Printed.{printed, key_lines, accent_lines};

use crate::layout::{accent_line, key_line};
use keymap_core::{KeyMap, Stream, Write, WriteFault};

/// Pushes a line for each defined slot.
fn print_keys<W: Write>(map: &KeyMap, stream: &mut Stream, writer: &mut W) -> Result<(), WriteFault>
    requires { size_of stream.old < 2 ^ 62 }
    ensures bytes { Pushes (W.contents writer.old) (W.contents writer.new) stream.old stream.new
        (key_lines map.now) result }
    ensures few { OnOk result (size_of stream.new ≤ size_of stream.old + 2 ^ 32) }
    ensures failed { W.has_failed writer.new ≡ (is_err result || W.has_failed writer.old) }
{
    for slot in 0..map.n_keys() {
        let line = key_line(slot as u8, map.entry(slot as u8));
        stream.push(writer, line.as_slice())?;
    }
    Ok(())
}

/// Pushes a line for each defined accent.
fn print_accents<W: Write>(
    map: &KeyMap,
    stream: &mut Stream,
    writer: &mut W,
) -> Result<(), WriteFault>
    requires { size_of stream.old < 2 ^ 62 }
    ensures bytes { Pushes (W.contents writer.old) (W.contents writer.new) stream.old stream.new
        (accent_lines map.now) result }
    ensures few { OnOk result (size_of stream.new ≤ size_of stream.old + 2 ^ 32) }
    ensures failed { W.has_failed writer.new ≡ (is_err result || W.has_failed writer.old) }
{
    for index in 0..map.n_accs() {
        let line = accent_line(index, map.accent_or_blank(index));
        stream.push(writer, line.as_slice())?;
    }
    Ok(())
}

/// Writes the printed form of a map: a line for each slot up to the last defined one, then one for each accent. Lines
/// are gathered, so that a map costs few writes.
pub fn print_map<W: Write>(map: &KeyMap, writer: &mut W) -> Result<(), WriteFault>
    ensures bytes { WritesText (λ f. f.written) (W.contents writer.old) (W.contents writer.new)
        (printed map.now) result }
    ensures failed { W.has_failed writer.new ≡ (is_err result || W.has_failed writer.old) }
{
    let mut stream = Stream::new();
    print_keys(map, &mut stream, writer)?;
    print_accents(map, &mut stream, writer)?;
    stream.finish(writer)
}
