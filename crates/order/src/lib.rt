// Choosing the least, once, for every kind of key that has an order.
#![tactic(auto)]

pub mod key;
pub mod keys;
pub mod least;
