// Laws of service records, as contracts of functions that do nothing.
ghost use Rattle.usage.specs.Histories.{WindowCounts, NotDueCounts};
ghost use Rattle.usage.specs.Laws.{MovesCompose, SameQuarterKeeps, ExactBelowMax};

// A record reads the same however often it was moved on in between.
pub fn moves_compose()
    ensures { MovesCompose }
{}

// Moved to an instant, a record is unchanged by every other instant of the same quarter.
pub fn same_quarter_keeps()
    ensures { SameQuarterKeeps }
{}

// Below the most that a count holds, one more is exactly one more.
pub fn exact_below_max()
    ensures { ExactBelowMax }
{}

// After any sends, no more than a count holds, the record read in the present quarter counts the runs of each of the last twenty
// quarters, and all those sent when not due.
pub fn records_count()
    ensures window { WindowCounts }
    ensures others { NotDueCounts }
{}
