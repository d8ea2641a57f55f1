ghost use Rattle.history.specs.Laws.{HistoryLaws};

// Every history is a course of single steps, by its log, and at each of its moments the tables are sound.
pub fn histories_hold()
    ensures { HistoryLaws }
{}
