//! What keyboards, X and loadkeys call keys and accents, and the names that these have here.
ghost use Rattle.std.specs.Prelude.{◌≡◌, ◌<◌, ◌≤◌, length, position, IfSome};
ghost use Rattle.keymap_lint_text.specs.OtherNames as spec;

use crate::near::{before, behind};

/// How many words there are.
pub(crate) const OTHER_COUNT: u16 = 66;

/// The words in lower case, each in 16 bytes, and behind each in 8 its name; dots are what is left of these. The
/// definitions have the words from here.
pub(crate) const OTHERS: &[u8] = b"\
    shift...........lshift..shift_l.........lshift..shiftl..........lshift..shifta..........lshift..\
    shift_r.........rshift..shiftr..........rshift..control.........lctrl...control_l.......lctrl...\
    ctrll...........lctrl...ctrla...........lctrl...control_r.......rctrl...ctrlr...........rctrl...\
    alta............lalt....altgr...........ralt....iso_level3_shiftralt....mode_switch.....ralt....\
    caps............clock...capslock........clock...caps_lock.......clock...numlock.........nlock...\
    num_lock........nlock...scrolllock......slock...scroll_lock.....slock...altgr_lock......alock...\
    iso_next_group..alock...escape..........esc.....tab.............ht......iso_left_tab....btab....\
    backspace.......bs......delete..........del.....return..........cr......enter...........cr......\
    kp_enter........cr......linefeed........nl......space...........' '.....voidsymbol......nop.....\
    nosymbol........nop.....none............nop.....incr_console....nscr....home............fkey49..\
    up..............fkey50..prior...........fkey51..page_up.........fkey51..left............fkey53..\
    right...........fkey55..end.............fkey57..down............fkey58..next............fkey59..\
    page_down.......fkey59..insert..........fkey60..print...........pscr....sys_req.........pscr....\
    grave...........dgra....acute...........dacu....circumflex......dcir....tilde...........dtil....\
    diaeresis.......duml....cedilla.........dced....macron..........dmac....breve...........dbre....\
    abovedot........ddot....abovering.......drin....doubleacute.....ddac....stroke..........dsla....\
    ogonek..........dogo....caron...........dcar....";

fn dot_in(bytes: &[u8]) -> Option<usize>
    ensures place { result ≡ position spec.is_dot bytes.now }
    ensures bound { IfSome result (λ i. i < length bytes.now) }
{
    bytes.iter().position(|c| *c == b'.')
}

/// What stands at a place of the table, in so many bytes, without the dots.
#[tactic(auto, unfolding(crate::specs::OtherNames::field))]
fn field(from: usize, width: usize) -> &'static [u8]
    ensures value { result.now ≡ spec.field from width }
    ensures short { length result.now ≤ width }
{
    let bytes = before(behind(OTHERS, from), width);
    let end = dot_in(bytes).unwrap_or(bytes.len());
    &bytes[..end]
}

/// The word with this number, in lower case; none behind the last one.
pub(crate) fn other_word(place: u16) -> &'static [u8]
    ensures { result.now ≡ spec.other_word place }
{
    field(24 * usize::from(place), 16)
}

/// The name of the word with this number.
pub(crate) fn other_name(place: u16) -> &'static [u8]
    ensures name { result.now ≡ spec.other_name place }
    ensures short { length result.now ≤ 8 }
{
    field(24 * usize::from(place) + 16, 8)
}
