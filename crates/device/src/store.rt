use crate::disk::Disk;

pub mod serving;

// A store that serves runs in the order in which they were put. Its depth is 16.
pub type LineStore = Disk<OldestFirst>;

// The oldest run at work is next.
#[derive(Clone, Copy, Debug)]
pub struct OldestFirst;
