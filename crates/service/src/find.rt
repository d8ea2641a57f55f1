ghost use Rattle.std.specs.Prelude.{◌≡◌, ◌<◌, ◌≤◌, IfSome, MatchOption};
ghost use Rattle.service.specs.Rows.{blank_pool, pool as pool_at, is_present, OpenAs, EndedAs, PresentAs, FreePlace, first_fit};

use crate::rows::{Pool, State, Tables};

impl State {
    // Whether a session is there, open or ended.
    pub fn is_present(self) -> bool
        ensures { result ≡ is_present self }
    {
        self != State::Free
    }
}

impl Tables {
    // The pool of a number; none past the 16 places.
    pub fn pool(&self, number: u8) -> Option<&Pool>
        ensures { MatchOption result ((16 ≤ number) × (pool_at self.now number ≡ blank_pool)) (λ p. (number < 16) × (p.now ≡ pool_at self.now number)) }
    {
        self.pools.get(usize::from(number))
    }
}

// A look-up for each thing that is looked for, by its own test; each names the definition that it meets.
// A place is a number with its bound beside, and no type of its own: the rules count places, and would have to unwrap it everywhere.
impl Tables {
    // The place of the open session of a name.
    pub(crate) fn open_session(&self, name: u32) -> Option<usize>
        ensures is { result ≡ first_fit (OpenAs name) self.now.sessions }
        ensures within { IfSome result (λ i. i < 64) }
    {
        self.sessions
            .iter()
            .position(|row| row.state == State::Open && row.name == name)
    }

    // The place of the ended session of a name.
    pub(crate) fn ended_session(&self, name: u32) -> Option<usize>
        ensures is { result ≡ first_fit (EndedAs name) self.now.sessions }
        ensures within { IfSome result (λ i. i < 64) }
    {
        self.sessions
            .iter()
            .position(|row| row.state == State::Ended && row.name == name)
    }

    // The place of the session of a name, open or ended.
    pub(crate) fn present_session(&self, name: u32) -> Option<usize>
        ensures is { result ≡ first_fit (PresentAs name) self.now.sessions }
        ensures within { IfSome result (λ i. i < 64) }
    {
        self.sessions
            .iter()
            .position(|row| row.state.is_present() && row.name == name)
    }

    // The first free place.
    pub(crate) fn free_place(&self) -> Option<usize>
        ensures is { result ≡ first_fit FreePlace self.now.sessions }
        ensures within { IfSome result (λ i. i < 64) }
    {
        self.sessions
            .iter()
            .position(|row| row.state == State::Free)
    }
}
