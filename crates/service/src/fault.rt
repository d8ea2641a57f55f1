ghost use Rattle.std.specs.Prelude.{◌≡◌};
ghost use Rattle.service.specs.Faults.{why_number, refused};

// Why the service refused, with the number by which that is told.
#[derive(Clone, Copy, Debug, PartialEq, Eq)]
pub enum ServiceWhy {
    BeginMissingOrRepeated = 6,
    InstantBefore = 7,
    NoSuchPool = 8,
    NoSuchSession = 9,
    NoPlace = 10,
    NoReserve = 11,
    WaitingLineFull = 12,
    CountedOut = 13,
    NotHandedBack = 14,
    HandBackFull = 15,
    NothingDone = 16,
}

// The service's refusal. The offset is that of the field of a stream which spells the call, and 0 outside a stream.
#[derive(Clone, Copy, Debug, PartialEq, Eq)]
pub struct ServiceFault {
    pub why: ServiceWhy,
    pub offset: usize,
}

// The refusal outside a stream.
impl From<ServiceWhy> for ServiceFault {
    ghost from_gives = { λ why fault. fault ≡ refused why };

    fn from(why: ServiceWhy) -> ServiceFault {
        ServiceFault { why, offset: 0 }
    }
}

impl ServiceFault {
    // The number by which the refusal is told. (A method and no conversion: a refusal is more than its number.)
    pub fn number(self) -> u8
        ensures { result ≡ why_number self.why }
    {
        self.why as u8
    }
}
