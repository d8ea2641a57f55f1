use crate::disk::Disk;

pub mod serving;

// A disk whose arm goes up through the addresses and round again, and serves the run that it meets first. Its depth is 32.
pub type Elevator = Disk<Arm>;

// An arm, which starts at address 0 and stands at the end of the run served last.
#[derive(Clone, Copy, Debug)]
pub struct Arm {
    address: u32,
}
