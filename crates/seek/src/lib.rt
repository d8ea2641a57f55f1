// What the program sweep does: reading requests, serving them through a device, and the arm's way.
#![tactic(auto)]

mod lines;
pub mod request;
pub mod serve;
pub mod text;
pub mod travel;
