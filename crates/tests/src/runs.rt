//! The tests of console_scripts, play_core and kmap_runs: scripts and what is played of them, the events that type a
//! sentence, what the runs of the program write, and devices that fail.

mod fault_lines;
mod outputs;
mod play_devices;
mod play_faults;
mod plays;
mod run_devices;
mod scripts;
mod sentences;
mod surface_of_play;
mod surface_of_runs;
