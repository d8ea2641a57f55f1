ghost use Rattle.scheduling.specs.Laws.{SendsStaySound, StopsRightly};

// Every single send, and so every scheduling call, leaves sound tables sound.
pub fn sends_stay_sound()
    ensures { SendsStaySound }
{}

// The sends of a call stop exactly where the device holds its most runs or no session is free to go.
pub fn sends_stop_rightly()
    ensures { StopsRightly }
{}
