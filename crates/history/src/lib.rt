// Histories: any sequence of calls from the making of a service on, and the log of single steps that is read off them.
#![tactic(auto)]

pub mod laws;
