//! The report of the check as text: put together whole in one buffer of fixed capacity, so that it is written at once.
ghost use Rattle.std.specs.Prelude.{◌≡◌, ◌+◌, ◌*◌, ◌≤◌, ◌++◌, [], length};
ghost use Rattle.std.specs.List.{flat_map};
ghost use Rattle.arrayvec.specs.ArrayVec.{array_vec_len};
ghost use Rattle.keymap_check.specs.Report.{report_of};
ghost use Rattle.keymap_check.specs.Scripts.{demonstration_of};
ghost use Rattle.play_core.specs.Spelling.{event_line};
ghost use Rattle.kmap_runs.specs.Report as spec;

use crate::words::{
    ACCEPTED, DEMONSTRATION, NO_DEMONSTRATION, NOBODY, REFUSED, SEVERAL, SOLE, STEADY, THROUGHOUT,
};
use arrayvec::ArrayVec;
use console_core::Event;
use keymap_check::{Bearer, Finding, Report, demonstrate, finding_words};
use keymap_core::{HOLDINGS, Holding, KeyMap};
use messages::{Line, either, line, small};
use script_text::{append, append_event};

/// How many bytes a report has at most: the verdict, a line for each of 128 findings and of 12 holding actions, and the
/// demonstration, fit with room to spare.
const REPORT: usize = 14_336;

pub(crate) type Text = ArrayVec<u8, REPORT>;

/// Adds the line on a finding.
fn append_finding(text: &mut Text, finding: &Finding)
    requires { array_vec_len text.old + 97 ≤ REPORT }
    ensures text { text.new.items ≡ text.old.items ++ spec.finding_line finding.now }
    ensures bound { array_vec_len text.new ≤ array_vec_len text.old + 97 }
{
    append(text, finding_words(finding).as_slice());
    append(text, b"\n");
}

fn append_findings(text: &mut Text, findings: &[Finding])
    requires { array_vec_len text.old + 97 * length findings.now ≤ REPORT }
    ensures text { text.new.items ≡ text.old.items ++ flat_map spec.finding_line findings.now }
    ensures bound { array_vec_len text.new ≤ array_vec_len text.old + 97 * length findings.now }
{
    for finding in findings {
        append_finding(text, finding);
    }
}

/// Whether the holding action is a steady lock.
fn is_steady(report: &Report, holding: Holding) -> bool
    ensures { result ≡ spec.is_reported_steady report.now holding }
{
    match holding {
        Holding::Mod(_) => false,
        Holding::Lock(lock) => report.steady(lock),
    }
}

fn holding_line(report: &Report, holding: Holding) -> Line
    ensures { result.items ≡ spec.holding_line report.now holding }
{
    let name = holding.action().name();
    let name = name.as_slice();
    let steady = either(is_steady(report, holding), STEADY, b"");
    match report.bearer(holding) {
        Bearer::Nobody => line(NOBODY, &[name, steady]),
        Bearer::Throughout(key) => line(THROUGHOUT, &[name, small(key.get()).as_slice(), steady]),
        Bearer::Sole(key) => line(SOLE, &[name, small(key.get()).as_slice(), steady]),
        Bearer::Several => line(SEVERAL, &[name, steady]),
    }
}

fn append_holdings(text: &mut Text, report: &Report, holdings: &[Holding])
    requires { array_vec_len text.old + 96 * length holdings.now ≤ REPORT }
    ensures text { text.new.items ≡ text.old.items ++ flat_map (spec.holding_line report.now) holdings.now }
    ensures bound { array_vec_len text.new ≤ array_vec_len text.old + 96 * length holdings.now }
{
    for holding in holdings {
        append(text, holding_line(report, *holding).as_slice());
    }
}

fn append_events(text: &mut Text, events: &[Event])
    requires { array_vec_len text.old + 9 * length events.now ≤ REPORT }
    ensures text { text.new.items ≡ text.old.items ++ flat_map event_line events.now }
    ensures bound { array_vec_len text.new ≤ array_vec_len text.old + 9 * length events.now }
{
    for event in events {
        append_event(text, *event);
    }
}

fn append_demonstration(text: &mut Text, map: &KeyMap)
    requires { array_vec_len text.old + 120 ≤ REPORT }
    ensures { text.new.items ≡ text.old.items ++ spec.demonstration_text (demonstration_of map.now) }
{
    match demonstrate(map) {
        Some(events) => {
            append(text, DEMONSTRATION);
            append_events(text, events.as_slice());
        }
        None => append(text, NO_DEMONSTRATION),
    }
}

fn append_verdict(text: &mut Text, report: &Report)
    requires { array_vec_len text.old + 9 ≤ REPORT }
    ensures text { text.new.items ≡ text.old.items ++ spec.verdict_line report.now.findings }
    ensures bound { array_vec_len text.new ≤ array_vec_len text.old + 9 }
{
    if report.accepted() {
        append(text, ACCEPTED);
    } else {
        append(text, REFUSED);
    }
}

fn append_check(text: &mut Text, report: &Report)
    requires { text.old.items ≡ [] }
    ensures text { text.new.items ≡ text.old.items ++ spec.check_text report.now }
    ensures bound { array_vec_len text.new ≤ 9 + 128 * 97 + 12 * 96 }
{
    append_verdict(text, report);
    append_findings(text, report.findings().as_slice());
    append_holdings(text, report, &HOLDINGS);
}

/// Appends the report on a map, with a demonstration where it is asked for.
pub(crate) fn append_report(text: &mut Text, map: &KeyMap, report: &Report, show: bool)
    requires report { report.now ≡ report_of map.now }
    requires empty { text.old.items ≡ [] }
    ensures { text.new.items ≡ spec.report map.now show }
{
    append_check(text, report);
    if show {
        append_demonstration(text, map);
    }
}
