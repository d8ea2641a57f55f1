// What the scheduling call answers: how many runs it sent, how many of them were due, and when to call again, if ever.
#[derive(Clone, Copy)]
pub struct Scheduled {
    pub sent: usize,
    pub due: usize,
    pub wake: Option<u64>,
}
