ghost use Rattle.std.specs.Prelude.{◌≡◌, true, false, MatchOption, MatchResult};
ghost use Rattle.account.specs.Accounts.{is_sound, opened, settled_to, sent_at, free_at, released_from, units_at, with_units};
ghost use Rattle.bucket.specs.Pairs.{units_of};

use bucket::due::{due_mark, release_at};
use bucket::pair::BucketPair;
use order::keys::DueMark;
use std::error::Error;
use std::fmt;
use usage::ServiceRecord;
use values::instant::Instant;
use values::rates::Rates;

// What a pool or session has: its rates, what its two buckets held when they were last settled, its due mark and its service record.
// The numbers are plain; rates and the pair of buckets are made from them for settling and charging, and the pair is written back whole.
// No ghost field says that they are a pair: rows are compared and copied as they are, and each answer says whether they were one.
#[derive(Clone, Copy)]
pub struct Account {
    pub reserve: u32,
    pub limit: Option<u32>,
    pub burst: u8,
    pub reserve_units: u64,
    pub limit_units: Option<u64>,
    pub settled_at: u64,
    pub mark: DueMark,
    pub usage: ServiceRecord,
}

// Refused: a row's numbers are no pair of buckets.
#[derive(Clone, Copy, Debug, PartialEq, Eq)]
pub struct NoPair;

impl fmt::Display for NoPair {
    ghost use Rattle.std.specs.Prelude.{Some, codes};

    ghost output = { λ _. Some (codes "the numbers are no pair of buckets") };

    fn fmt<W: fmt::Write>(&self, f: &mut fmt::Formatter<W>) -> fmt::Result {
        f.write_str("the numbers are no pair of buckets")
    }
}

impl Error for NoPair {}

impl Account {
    // A new account, with the order number of its first due mark.
    pub fn new(rates: Rates, present: Instant, number: u64) -> Account
        ensures { result ≡ opened rates present.micros number }
    {
        let pair = BucketPair::fresh(rates);
        Account {
            reserve: rates.reserve,
            limit: rates.limit,
            burst: rates.burst,
            reserve_units: pair.reserve,
            limit_units: pair.limit,
            settled_at: present.micros,
            mark: due_mark(pair, present, number),
            usage: ServiceRecord::new(present),
        }
    }

    // The pair of buckets as of an instant; none exactly where the row's numbers are no pair.
    pub fn pair_at(&self, present: Instant) -> Option<BucketPair>
        ensures { MatchOption result (is_sound self.now ≡ false) (λ p. (is_sound self.now ≡ true) × (p.rates.reserve ≡ self.now.reserve) × (p.rates.limit ≡ self.now.limit) × (units_of p ≡ units_at self.now present.micros)) }
    {
        let rates = Rates::new(self.reserve, self.limit, self.burst).ok()?;
        let pair = BucketPair::from_units(rates, self.reserve_units, self.limit_units)?;
        Some(pair.settled(present.micros.saturating_sub(self.settled_at)))
    }

    // Writes the pair of buckets, as of an instant, back whole.
    fn write_back(&mut self, pair: BucketPair, present: Instant)
        ensures { self.new ≡ with_units self.old (units_of pair) present.micros }
    {
        self.reserve_units = pair.reserve;
        self.limit_units = pair.limit;
        self.settled_at = present.micros;
    }

    // Settles the two buckets to an instant, in place; refused, and nothing changed, exactly where the row's numbers are no pair.
    pub fn settle(&mut self, present: Instant) -> Result<(), NoPair>
        ensures { MatchResult result (λ _. (is_sound self.old ≡ true) × (self.new ≡ settled_to present.micros self.old)) (λ _. (is_sound self.old ≡ false) × (self.new ≡ self.old)) }
    {
        let pair = self.pair_at(present).ok_or(NoPair)?;
        self.write_back(pair, present);
        Ok(())
    }

    // Charges one run sent at an instant, renews the due mark with an order number and counts the run, in place;
    // refused, and nothing changed, exactly where the row's numbers are no pair.
    pub fn send(&mut self, present: Instant, number: u64, due: bool) -> Result<(), NoPair>
        ensures { MatchResult result (λ _. (is_sound self.old ≡ true) × (self.new ≡ sent_at present.micros number due self.old)) (λ _. (is_sound self.old ≡ false) × (self.new ≡ self.old)) }
    {
        let settled = self.pair_at(present).ok_or(NoPair)?;
        let pair = settled.charged();
        self.write_back(pair, present);
        self.mark = due_mark(pair, present, number);
        self.usage.move_on(present);
        self.usage.count_send(due);
        Ok(())
    }

    // Whether the limit lets a run go at an instant; none exactly where the row's numbers are no pair.
    pub fn may_send(&self, present: Instant) -> Option<bool>
        ensures { MatchOption result (is_sound self.now ≡ false) (λ free. (is_sound self.now ≡ true) × (free ≡ free_at present.micros self.now)) }
    {
        Some(self.pair_at(present)?.may_send())
    }

    // The instant from which the limit lets a run go, as seen at the present one; none exactly where the row's numbers are no pair.
    pub fn release(&self, present: Instant) -> Option<u64>
        ensures { MatchOption result (is_sound self.now ≡ false) (λ at. (is_sound self.now ≡ true) × (at ≡ released_from present.micros self.now)) }
    {
        let pair = self.pair_at(present)?;
        Some(release_at(pair, present))
    }
}
