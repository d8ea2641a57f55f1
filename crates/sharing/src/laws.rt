// Laws of the levels, as contracts of functions that do nothing.
ghost use Rattle.sharing.specs.Laws.{WeightsByRule, OneNowOneBefore, WaterRises, EvenRises};

// Each weight of the window is the rule's, and there is none past it.
pub fn weights_by_rule()
    ensures { WeightsByRule }
{}

// Water at a worked example: one run now and one in the quarter before.
pub fn one_now_one_before()
    ensures { OneNowOneBefore }
{}

// A run sent raises a water level by a million.
pub fn water_rises()
    ensures { WaterRises }
{}

// A run sent leaves an even level as it is if it was due, and raises it by one if it was not.
pub fn even_rises()
    ensures { EvenRises }
{}
