// Accounts: what a pool or session has, as a row of plain numbers that is settled, charged and re-marked in place.
#![tactic(auto)]

pub mod laws;
pub mod row;
