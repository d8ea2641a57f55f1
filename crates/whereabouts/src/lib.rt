// Where every accepted I/O is, over whole runs.
#![tactic(auto)]

ghost use Rattle.whereabouts.specs.Example.{ThroughAllPlaces};
ghost use Rattle.whereabouts.specs.Law.{AlwaysFound, SessionAlwaysFound};

// At every moment of every history: every accepted I/O is waiting, inside the device or handed back, in exactly one of the three,
// once, with the direction, address and length it was accepted with; no other I/O is in any; and no collected run is foreign.
pub fn whereabouts_hold()
    ensures { AlwaysFound }
{}

// The same for one session by itself.
pub fn session_whereabouts_hold()
    ensures { SessionAlwaysFound }
{}

// A history that leads through all three places: three I/Os are sent as two runs, come back in the other order, and their session
// is closed.
pub fn all_places_are_reached()
    ensures { ThroughAllPlaces }
{}
