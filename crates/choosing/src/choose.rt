ghost use Rattle.std.specs.Prelude.{◌≡◌};
ghost use Rattle.choosing.specs.Chosen.{level_choice, chosen_of, chosen};
ghost use Rattle.choosing.specs.Free.{free_in, run_at};
ghost use Rattle.choosing.specs.Right.{RightChoice, InTable, Sendable};
ghost use Rattle.choosing.specs.Views.{seen};

use crate::view::{FreePlaces, View};
use sharing::rule::SharingRule;

// The place of the session that sends next, and whether it was chosen by its due mark.
// Two facts of every choice, not a flag for the other: a caller charges by the mark whatever the place is.
#[derive(Clone, Copy)]
pub struct Choice {
    pub place: usize,
    pub due: bool,
}

impl FreePlaces<'_> {
    // The place of the free session of lowest level in the pool of lowest level.
    fn level_choice<R: SharingRule>(&self, rule: &R) -> Option<usize>
        ensures { result ≡ level_choice (R.level rule.now) self.now.tables.now (free_in self.now.free) self.now.present.micros }
    {
        let pool = self.pool_choice(rule)?;
        self.session_choice(rule, pool)
    }

    // The choice among the free places: by its mark, if one goes by that, and else by level.
    fn choice<R: SharingRule>(&self, rule: &R) -> Option<Choice>
        ensures { result ≡ chosen_of (R.level rule.now) self.now.tables.now (free_in self.now.free) self.now.present.micros }
    {
        if let Some(place) = self.due_choice() {
            return Some(Choice { place, due: true });
        }
        let place = self.level_choice(rule)?;
        Some(Choice { place, due: false })
    }
}

impl View<'_> {
    // The session that sends next, of those that are free to go.
    pub fn choose<R: SharingRule>(&self, rule: &R) -> Option<Choice>
        ensures is { result ≡ chosen (R.level rule.now) self.now.tables.now (run_at self.now.heads.now) self.now.present.micros }
        ensures right { RightChoice (R.level rule.now) (seen self.now) result }
        ensures within { InTable result }
        ensures sendable { Sendable self.now.tables.now (run_at self.now.heads.now) result }
    {
        self.free_places().choice(rule)
    }
}
