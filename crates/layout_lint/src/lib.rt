//! What a text and its layout have in common: their diagnostics.
#![tactic(auto)]

pub mod laws;
