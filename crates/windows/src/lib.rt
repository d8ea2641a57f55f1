// The window law over whole runs.
#![tactic(auto)]

ghost use Rattle.windows.specs.Example.{BoundReached};
ghost use Rattle.windows.specs.Law.{Windows};

// At every moment of every history: from any instant to the same or a later one, both counted, the runs sent for a limited session
// or pool are at most its burst plus its limit times the seconds between.
pub fn windows_hold()
    ensures { Windows }
{}

// No smaller bound would do: a session, closed at the end, and its pool are sent as many runs as that.
pub fn bound_is_reached()
    ensures { BoundReached }
{}
