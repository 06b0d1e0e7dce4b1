//! Playing a script on keymaps.
ghost use Rattle.std.specs.Prelude.{◌≡◌, ◌+◌, ◌||◌, ◌^◌, ◌<◌, ◌≤◌, ◌++◌, List, [], ◌∷◌, length, reverse, is_err};
ghost use Rattle.keymap_core.specs.Devices.{WritesText};
ghost use Rattle.play_core.specs.Types.{Event as EventValue};
ghost use Rattle.console_core.specs.History.{Maps, between};
ghost use Rattle.play_core.specs.Delivery.{delivered};
ghost use Rattle.play_core.specs.Written.{text_after, played_text};

use crate::answer_line::push_line;
use crate::output::Output;
use crate::sent::Sent;
use crate::show::Show;
use crate::typed_bytes::push_typed;
use console_core::{Event, Translator, WordConsole};
use keymap_core::{KeyMap, Write, WriteFault};

/// What is shown of one event is never longer.
const LONGEST: usize = 140;

/// Plays what is sent on two maps, and writes what the show has of it. The first map is in force, and each load puts
/// the other in force.
pub(crate) fn play_events<W: Write>(
    show: Show,
    first: &KeyMap,
    second: &KeyMap,
    sent: &[Sent],
    out: &mut W,
) -> Result<(), WriteFault>
    requires { length sent.now < 2 ^ 50 }
    ensures bytes { WritesText (λ f. f.written) (W.contents out.old) (W.contents out.new)
        (played_text show (between first.now second.now) sent.now) result }
    ensures failed { W.has_failed out.new ≡ (is_err result || W.has_failed out.old) }
{
    play_shown(show, &mut WordConsole::between(first, second), sent, out)
}

/// As `deliver_all`, of which there is one for each show, so that no event asks what is shown.
fn play_shown<T: Translator, W: Write>(
    show: Show,
    console: &mut T,
    sent: &[Sent],
    out: &mut W,
) -> Result<(), WriteFault>
    requires { length sent.now < 2 ^ 50 }
    ensures bytes { (ms : Maps) (h : List EventValue) → T.stands console.old ms h
        → WritesText (λ f. f.written) (W.contents out.old) (W.contents out.new)
        (text_after show ms h (delivered sent.now)) result }
    ensures failed { W.has_failed out.new ≡ (is_err result || W.has_failed out.old) }
{
    match show {
        Show::Lines => deliver_all(Show::Lines, console, sent, out),
        Show::Typed => deliver_all(Show::Typed, console, sent, out),
    }
}

/// Delivers what is sent to the console, but for what is lost, and writes what the show has of it.
#[inline(always)]
fn deliver_all<T: Translator, W: Write>(
    show: Show,
    console: &mut T,
    sent: &[Sent],
    out: &mut W,
) -> Result<(), WriteFault>
    requires { length sent.now < 2 ^ 50 }
    ensures bytes { (ms : Maps) (h : List EventValue) → T.stands console.old ms h
        → WritesText (λ f. f.written) (W.contents out.old) (W.contents out.new)
        (text_after show ms h (delivered sent.now)) result }
    ensures failed { W.has_failed out.new ≡ (is_err result || W.has_failed out.old) }
{
    let mut text = Output::new();
    for one in sent {
        text.make_room(out, LONGEST)?;
        play_sent(show, console, *one, &mut text);
    }
    text.finish(out)
}

/// Delivers what is sent, unless it is lost, and adds what the show has of it.
#[inline(always)]
fn play_sent<T: Translator>(show: Show, console: &mut T, one: Sent, text: &mut Output)
    requires { length text.old.waiting + 140 ≤ 65536 }
    ensures written { text.new.written ≡ text.old.written }
    ensures text { (ms : Maps) (h : List EventValue) → T.stands console.old ms h
        → text.new.waiting ≡ text.old.waiting ++ text_after show ms h (delivered (one ∷ [])) }
    ensures next { (ms : Maps) (h : List EventValue) → T.stands console.old ms h
        → T.stands console.new ms (reverse (delivered (one ∷ [])) ++ h) }
    ensures size { length text.new.waiting ≤ length text.old.waiting + 140 }
{
    let Some(event) = one.event() else {
        return;
    };
    play_event(show, console, event, text);
}

/// Delivers an event, and adds what the show has of it.
#[inline(always)]
fn play_event<T: Translator>(show: Show, console: &mut T, event: Event, text: &mut Output)
    requires { length text.old.waiting + 140 ≤ 65536 }
    ensures written { text.new.written ≡ text.old.written }
    ensures text { (ms : Maps) (h : List EventValue) → T.stands console.old ms h
        → text.new.waiting ≡ text.old.waiting ++ text_after show ms h (event ∷ []) }
    ensures next { (ms : Maps) (h : List EventValue) → T.stands console.old ms h → T.stands console.new ms (event ∷ h) }
    ensures size { length text.new.waiting ≤ length text.old.waiting + 140 }
{
    let answer = console.step(event);
    match show {
        Show::Lines => push_line(text, &event, &answer, console),
        Show::Typed => push_typed(text, &answer),
    }
}
