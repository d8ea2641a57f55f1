// The service: its tables of pools and sessions, and every call on them but scheduling.
#![tactic(auto)]

pub mod fault;
mod find;
pub mod laws;
pub mod rows;
pub mod service;
mod steps;
