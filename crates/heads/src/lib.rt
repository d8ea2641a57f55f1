// Head runs: what a session would send next.
#![tactic(auto)]

pub mod head;
pub mod laws;
