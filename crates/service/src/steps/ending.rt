ghost use Rattle.std.specs.Prelude.{◌≡◌};
ghost use Rattle.service.specs.Calls.{end_call};

use crate::fault::{ServiceFault, ServiceWhy};
use crate::rows::{State, Tables};

impl Tables {
    // Ends the open session of a name.
    pub(crate) fn end(&mut self, name: u32) -> Result<u32, ServiceFault>
        ensures answer { result ≡ (end_call name self.old).0 }
        ensures leaves { self.new ≡ (end_call name self.old).1 }
    {
        let i = self.open_session(name).ok_or(ServiceWhy::NoSuchSession)?;
        self.sessions[i].state = State::Ended;
        Ok(name)
    }
}
