ghost use Rattle.std.specs.Prelude.{◌≡◌, ◌<◌, IfOk};
ghost use Rattle.service.specs.Calls.{close_place, close_call};

use crate::fault::{ServiceFault, ServiceWhy};
use crate::rows::{Session, Tables};

impl Tables {
    // The place of the ended session of a name that has no I/O left, with its bound beside (see find.rt), or why it is refused.
    fn close_place(&self, name: u32) -> Result<usize, ServiceFault>
        ensures is { result ≡ close_place name self.now }
        ensures within { IfOk result (λ i. i < 64) }
    {
        let i = self.ended_session(name).ok_or(ServiceWhy::NoSuchSession)?;
        if self.sessions[i].unsent > 0 || self.sessions[i].inside > 0 {
            return Err(ServiceWhy::NotHandedBack.into());
        }
        Ok(i)
    }

    // Closes the ended session of a name.
    pub(crate) fn close(&mut self, name: u32) -> Result<u32, ServiceFault>
        ensures answer { result ≡ (close_call name self.old).0 }
        ensures leaves { self.new ≡ (close_call name self.old).1 }
    {
        let i = self.close_place(name)?;
        self.sessions[i] = Session::FREE;
        Ok(name)
    }
}
