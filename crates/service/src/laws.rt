ghost use Rattle.service.specs.Laws.{ReservesOf112, StaysSound};

// With a throughput of 112, reserves 60 and 52 pass, and 60 and 53 do not.
pub fn reserves_of_112()
    ensures { ReservesOf112 }
{}

// The tables of a new service are sound, and every call leaves sound tables so.
pub fn tables_stay_sound()
    ensures { StaysSound }
{}
