// Devices: what every device means, a disk that serves runs by a policy, and two such disks.
#![tactic(auto)]

mod bay;
pub mod device;
pub mod disk;
pub mod elevator;
pub mod policy;
pub mod runs;
pub mod store;
mod sweep;
