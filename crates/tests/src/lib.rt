//! The tests of the libraries, which say what no clause says: answers from outside, limits, devices that fail. They are
//! in folders by what they test, `formats`, `consoles` and `runs`.
//!
//! The modules `surface_of_..` have nothing but what the libraries have for others, a line for each item: a function is
//! taken as a pointer of its whole type, or called with arguments and a result of their types where it has a type
//! parameter or answers a reference, and each enum is matched without a rest, so that another signature or another
//! variant doesn't compile. Whoever changes one of these items has to change its line too, and sees there that other
//! programs may stand on it. What the calls mean is told by their contracts and by the other tests.
//!
//! `calls` makes single calls of all libraries, for the scripts that refuse memory and the measurements; `support` has
//! the keymaps and devices that several tests take.
//!
//! A crate with tests is proved once more together with them, so the libraries have none of their own. Nothing here is
//! exported.
#![tactic(auto)]

#[cfg(test)]
mod asserts;
#[cfg(test)]
mod calls;
#[cfg(test)]
mod consoles;
#[cfg(test)]
mod formats;
#[cfg(test)]
mod runs;
#[cfg(test)]
mod support;
