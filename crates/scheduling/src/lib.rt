// Scheduling: single sends, and the call that repeats them.
#![tactic(auto)]

mod all;
pub mod answer;
pub mod laws;
mod next;
mod send;
mod waiting;
