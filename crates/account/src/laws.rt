ghost use Rattle.account.specs.Laws.{AccountLaws};

// What holds of every account, whatever happens to it.
pub fn accounts_hold()
    ensures { AccountLaws }
{}
