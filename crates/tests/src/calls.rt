//! Makes calls of the libraries that scripts look at from outside, and prints what they answered.
//!
//! It is one test, which a script runs by its name. An argument behind that names one call, whose allocations are
//! refused (`tests/refused_calls.sh`): there is one at least for each exported function of the libraries that takes
//! memory. What the call needs is made before. A line goes to standard error right before the call and right after it,
//! so that the call's own allocations can be told from all others. The answer is `ok`, `memory` where memory was
//! refused, or `fault`. ` changed` follows it where the call did not leave alone what it must: the map or the console
//! that it was lent, or a device that it was not to touch.
//!
//! Behind `steps` stand `map` or `tables`, and how many rounds of eight events a console takes, 1 or 10000. The answer
//! is the sum of the console's, and `make bench` counts the instructions.
mod consoles;
mod devices;
mod formats;
mod inputs;
mod names;
mod outcome;
mod runs;
mod searches;
mod steps;
mod texts;

use crate::calls::inputs::{Call, Lent, TEXT, TRAP, narrow, tables};
use crate::calls::outcome::Outcome;
use keymap_core::{ToStd, Write};
use std::alloc::AllocError;
use std::{env, io};

/// Makes a call that needs nothing but keymaps. There is none where no such call has the name.
fn of_keymaps<W: Write>(call: &Call<'_>, marks: &mut W) -> Option<Outcome> {
    if let Some(outcome) = formats::of_texts(call, marks) {
        return Some(outcome);
    }
    if let Some(outcome) = consoles::of_keymaps(call, marks) {
        return Some(outcome);
    }
    if let Some(outcome) = texts::of_scripts(call, marks) {
        return Some(outcome);
    }
    if let Some(outcome) = names::of_names(call, marks) {
        return Some(outcome);
    }
    runs::of_texts(call, marks)
}

/// Makes a call on table files. There is none where no such call has the name.
fn of_tables<W: Write>(call: &Call<'_>, marks: &mut W) -> Result<Option<Outcome>, AllocError> {
    let tables = tables(call.alloc, &call.sample.map)?;
    let narrow = narrow(call.alloc, &call.sample.map)?;
    let (tables, narrow) = (tables.as_slice(), narrow.as_slice());
    match formats::of_files(call, tables, narrow, marks) {
        Some(outcome) => Ok(Some(outcome)),
        None => Ok(runs::of_files(call, tables, narrow, marks)),
    }
}

/// Makes the call. There is none where no call has the name.
fn outcome_of<W: Write>(call: &Call<'_>, marks: &mut W) -> Result<Option<Outcome>, AllocError> {
    if let Some(outcome) = of_keymaps(call, marks) {
        return Ok(Some(outcome));
    }
    if let Some(outcome) = of_tables(call, marks)? {
        return Ok(Some(outcome));
    }
    if let Some(outcome) = texts::of_trap(call, marks)? {
        return Ok(Some(outcome));
    }
    if let Some(outcome) = searches::of_searches(call, marks)? {
        return Ok(Some(outcome));
    }
    if let Some(outcome) = names::of_printing(call, marks)? {
        return Ok(Some(outcome));
    }
    consoles::of_explorer(call, marks)
}

/// Makes the call and prints what came of it.
fn answer(rt: &HostRuntime, call: &Call<'_>) -> io::Result<()> {
    let mut marks = ToStd::new(rt.stderr());
    match outcome_of(call, &mut marks)? {
        Some(outcome) => println!(rt; "{outcome}"),
        None => println!(rt; "no such call"),
    }
}

fn answer_by_name(rt: &HostRuntime, name: &str) -> io::Result<()> {
    let alloc = rt.alloc();
    let sample = Lent::of(alloc, TEXT)?;
    let trap = Lent::of(alloc, TRAP)?;
    let call = Call {
        alloc,
        name,
        sample: &sample,
        trap: &trap,
    };
    answer(rt, &call)
}

#[test]
fn answers(rt: HostRuntime) -> io::Result<()> {
    let words: Vec<String> = env::args(&rt)?.collect(rt.alloc())?;
    match words.as_slice() {
        [_, _, word, rest @ ..] if word.as_str() == "steps" => {
            let sum = steps::sum(rt.alloc(), rest)?;
            println!(rt; "{sum}")
        }
        [_, _, name, ..] => answer_by_name(&rt, name.as_str()),
        _ => println!(rt; "no call is named"),
    }
}
