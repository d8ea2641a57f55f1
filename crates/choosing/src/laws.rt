ghost use Rattle.choosing.specs.Laws.{ChoiceLaws};
ghost use Rattle.choosing.specs.Quiet.{QuietUntil};

// What holds of every choice and wake-up.
pub fn choices_hold()
    ensures { ChoiceLaws }
{}

// Until the wake-up nothing changes by itself.
pub fn quiet_until_wake_up()
    ensures { QuietUntil }
{}
