// Choosing: which session sends next, and when to look again.
#![tactic(auto)]

pub mod choose;
pub mod due;
pub mod free;
pub mod laws;
pub mod spare;
pub mod view;
pub mod wake;
