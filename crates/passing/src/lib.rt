// The passing law over whole runs.
#![tactic(auto)]

ghost use Rattle.passing.specs.Example.{BoundsReached};
ghost use Rattle.passing.specs.Law.{Passing};

// At every moment of every history: once a session is due, and until its next send, the sends that pass it while it is free to go
// number at most one for each other session present when it became due and one for each other pool; for a due pool only other
// pools and their sessions count.
pub fn passing_holds()
    ensures { Passing }
{}

// No smaller bounds would do.
pub fn bounds_are_reached()
    ensures { BoundsReached }
{}
