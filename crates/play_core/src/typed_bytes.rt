//! The bytes that answers type.
ghost use Rattle.std.specs.Prelude.{◌≡◌, ◌+◌, ◌^◌, ◌≤◌, ◌||◌, ◌++◌, length, is_err, encode_utf8};
ghost use Rattle.keymap_core.specs.Devices.{WritesText};
ghost use Rattle.play_core.specs.Written.{typed_text, typed_by};

use crate::output::Output;
use console_core::Answer;
use keymap_core::{Write, WriteFault};

/// Writes the bytes that the answers type: a character in UTF-8, behind an escape under meta, and a sequence for the
/// back tab.
pub fn typed<W: Write>(answers: &[Answer], out: &mut W) -> Result<(), WriteFault>
    requires { length answers.now ≤ 2 ^ 60 }
    ensures bytes { WritesText (λ f. f.written) (W.contents out.old) (W.contents out.new) (typed_text answers.now)
        result }
    ensures failed { W.has_failed out.new ≡ (is_err result || W.has_failed out.old) }
{
    let mut text = Output::new();
    for answer in answers {
        text.make_room(out, 5)?;
        push_typed(&mut text, answer);
    }
    text.finish(out)
}

/// Adds the bytes that an answer types.
#[tactic(auto, unfolding(crate::specs::Written::typed_by))]
pub(crate) fn push_typed(text: &mut Output, answer: &Answer)
    requires { length text.old.waiting + 5 ≤ 65536 }
    ensures written { text.new.written ≡ text.old.written }
    ensures text { text.new.waiting ≡ text.old.waiting ++ typed_by answer.now }
    ensures size { length text.new.waiting ≤ length text.old.waiting + 5 }
{
    match answer {
        Answer::Char { c, meta } => {
            if *meta {
                text.append(b"\x1b");
            }
            push_character(text, *c);
        }
        Answer::BackTab => text.append(b"\x1b[Z"),
        _ => {}
    }
}

/// Adds a character in UTF-8.
fn push_character(text: &mut Output, c: char)
    requires { length text.old.waiting + 4 ≤ 65536 }
    ensures written { text.new.written ≡ text.old.written }
    ensures text { text.new.waiting ≡ text.old.waiting ++ encode_utf8 c }
    ensures size { length text.new.waiting ≤ length text.old.waiting + 4 }
{
    let number = c as u32;
    if number < 0x80 {
        text.append(&[number as u8]);
    } else {
        let mut bytes = [0; 4];
        text.append(c.encode_utf8(&mut bytes).as_bytes());
    }
}
