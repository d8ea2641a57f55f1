// The way in: the events that a stream of bytes spells, exactly, or the fault that ends it.
#![tactic(auto, using(crate::proofs::Numbers::numbers))]

pub mod checked;
pub mod decode;
pub mod event;
pub mod fault;
pub mod field;
pub mod laws;
pub mod reader;
pub mod tag;
pub mod whole;
pub mod write;
