// The values that calls take: checked where they have a range, so that no later call can meet one outside it.
#![tactic(auto)]

pub mod direction;
pub mod extent;
pub mod fault;
pub mod instant;
pub mod io;
pub mod rates;
pub mod settings;
