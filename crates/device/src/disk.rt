use crate::bay::Bay;

pub mod serving;

// A disk that serves one run at a time, the one that its policy picks.
#[derive(Drop)]
pub struct Disk<P> {
    bay: Bay,
    policy: P,
}
