// Sharing rules: the level, by a service record, that says who is given spare service first.
#![tactic(auto)]

pub mod even;
pub mod laws;
pub mod rule;
pub mod shipped;
pub mod water;
