ghost use Rattle.bucket.specs.Settling.{PairsStay, SettlesInSteps};
ghost use Rattle.bucket.specs.Due.{WaitIsRight};
ghost use Rattle.bucket.specs.Edges.{BucketEdges};
ghost use Rattle.bucket.specs.Windows.{WindowLaw, WindowReached};

// A pair stays a pair from its start on, however it is settled and charged: its reserve bucket never passes its limit bucket.
pub fn pairs_stay()
    ensures { PairsStay }
{}

// It makes no difference how often, or how late, a bucket or a pair is settled.
pub fn settles_in_steps()
    ensures { SettlesInSteps }
{}

// A bucket with a rate holds an amount when the wait for it is over, and no sooner.
pub fn wait_is_right()
    ensures { WaitIsRight }
{}

// Between any two instants a limited bucket pays for no more runs than its burst and what its rate fills in meanwhile.
pub fn windows_hold()
    ensures { WindowLaw }
{}

// No smaller bound would do.
pub fn window_is_reached()
    ensures { WindowReached }
{}

// Worked examples.
pub fn bucket_edges()
    ensures { BucketEdges }
{}
