#![tactic(auto)]

ghost use Rattle.std.specs.Prelude.{◌≡◌, ℕ, ◌+◌, ◌<◌, ◌≤◌, min, false, length, ◌==◌, slice_index_or};
ghost use Rattle.std.specs.List.{remove};
ghost use Rattle.line.specs.Line.{records_of, unflagged, Appended, Closed, Removed, AppendedAt, RemovedAt, without};

use std::error::Error;
use std::fmt;

// Refused: no place of the table is left.
#[derive(Clone, Copy, Debug, PartialEq, Eq)]
pub struct LineFull;

impl fmt::Display for LineFull {
    ghost use Rattle.std.specs.Prelude.{Some, codes};

    ghost output = { λ _. Some (codes "no place is left in the line") };

    fn fmt<W: fmt::Write>(&self, f: &mut fmt::Formatter<W>) -> fmt::Result {
        f.write_str("no place is left in the line")
    }
}

impl Error for LineFull {}

// A line of records over a table that the caller lends, as the rules ask: the first `len` places, never more than the table has.
// Each method says that the table is still the same one (`same`): that compares two moments, which no ghost field or model can say.
#[derive(Drop)]
pub struct Line<'a, T> {
    places: &'a mut [T],
    len: usize,
    ghost within: { len ≤ length places.now },
}

impl<'a, T: Copy> Line<'a, T> {
    // The line over the first `len` places, or over all where the table has fewer.
    pub fn new(places: &'a mut [T], len: usize) -> Line<'a, T>
        ensures same { result.places.ghost_name ≡ places.entry.ghost_name }
        ensures held { (result.places.now ≡ places.old) × (result.len ≡ min len (length places.old)) }
    {
        let len = len.min(places.len());
        Line { places, len }
    }

    // How many records stand in line.
    pub fn len(&self) -> usize
        ensures { result ≡ self.now.len }
    {
        self.records().len()
    }

    // Whether no place is left for one more.
    pub fn is_full(&self) -> bool
        ensures { result ≡ (self.now.len == length self.now.places.now) }
    {
        self.len == self.places.len()
    }

    // The records in line, in their order.
    pub fn records(&self) -> &[T]
        ensures { result.now ≡ records_of self.now.places.now self.now.len }
    {
        &self.places[..self.len]
    }

    // Puts a record behind the last one; refused, and nothing changed, where the table is full.
    pub fn append(&mut self, record: T) -> Result<(), LineFull>
        ensures same { self.new.places.ghost_name ≡ self.old.places.ghost_name }
        ensures held { Appended self.old.places.now self.old.len «record» self.new.places.now self.new.len result }
    {
        let at = self.len;
        if at >= self.places.len() {
            return Err(LineFull);
        }
        self.places[at] = record;
        self.len = at + 1;
        Ok(())
    }

    // Takes out each record whose flag is set and keeps the order of the rest, in one pass; a record with no flag stays.
    pub fn close_up(&mut self, out: &[bool])
        ensures same { self.new.places.ghost_name ≡ self.old.places.ghost_name }
        ensures held { Closed (unflagged out.now (records_of self.old.places.now self.old.len)) self.old.places.now self.new.places.now self.new.len }
    {
        self.len = self.keep_unflagged(out);
    }

    // Takes out the record at a place and closes up; none, and nothing changed, where no record stands there.
    pub fn remove(&mut self, at: usize) -> Option<T>
        ensures same { self.new.places.ghost_name ≡ self.old.places.ghost_name }
        ensures held { Removed self.old.places.now self.old.len at self.new.places.now self.new.len result }
    {
        if at >= self.len {
            return None;
        }
        let taken = self.places[at];
        self.len = self.keep_others(at);
        Some(taken)
    }

    // Moves the records whose flag is not set to the front; how many they are, which is not yet the line's length.
    fn keep_unflagged(&mut self, out: &[bool]) -> usize
        ensures same { self.new.places.ghost_name ≡ self.old.places.ghost_name }
        ensures len { (self.new.len ≡ self.old.len) × (result ≤ self.old.len) }
        ensures held { Closed (unflagged out.now (records_of self.old.places.now self.old.len)) self.old.places.now self.new.places.now result }
    {
        let mut kept_len = 0;
        // By places, since the loop writes the slice that it reads. Not one function with `keep_but_first`: see there.
        for i in 0..self.len {
            if !is_set(out, i) {
                self.places[kept_len] = self.places[i];
                kept_len += 1;
            }
        }
        kept_len
    }

    // Moves the records behind a place up by one; how many records are left, which is not yet the line's length.
    fn keep_others(&mut self, at: usize) -> usize
        ensures same { self.new.places.ghost_name ≡ self.old.places.ghost_name }
        ensures len { (self.new.len ≡ self.old.len) × (result ≤ self.old.len) × (at < self.old.len → result + 1 ≡ self.old.len) }
        ensures held { Closed (remove (records_of self.old.places.now self.old.len) at) self.old.places.now self.new.places.now result }
    {
        if at >= self.len {
            return self.len;
        }
        self.places.copy_within(at + 1..self.len, at);
        self.len - 1
    }
}

// A record that belongs to somebody, as an I/O to its session.
pub trait Owned {
    ghost owner: { Self → ℕ };

    fn owned_by(&self) -> u32
        ensures { result ≡ owner self.now };
}

impl<'a, T: Owned + Copy> Line<'a, T> {
    // Takes out the first `count` records of an owner among the first `within` of the line, and keeps the order of the others
    // of these. The line ends with them; a record behind the `within`-th is where it was, and no longer in line.
    pub fn take_first(&mut self, within: usize, owner: u32, count: usize)
        ensures same { self.new.places.ghost_name ≡ self.old.places.ghost_name }
        ensures held { Closed (without T.Owned.owner owner count (records_of self.old.places.now (min within self.old.len))) self.old.places.now self.new.places.now self.new.len }
    {
        let end = within.min(self.len);
        self.len = self.keep_but_first(end, owner, count);
    }

    // Moves those of the first `end` records that are not the first `count` of an owner to the front; how many they are, which is
    // not yet the line's length.
    fn keep_but_first(&mut self, end: usize, owner: u32, count: usize) -> usize
        requires { end ≤ self.old.len }
        ensures same { self.new.places.ghost_name ≡ self.old.places.ghost_name }
        ensures len { (self.new.len ≡ self.old.len) × (result ≤ end) }
        ensures held { Closed (without T.Owned.owner owner count (records_of self.old.places.now end)) self.old.places.now self.new.places.now result }
    {
        let mut left = count;
        let mut kept_len = 0;
        // By places, since the loop writes the slice that it reads.
        // Not one function with `keep_unflagged`: the test would be a closure that counts down, and a proof learns nothing of its answers.
        for i in 0..end {
            let record = self.places[i];
            let by = record.owned_by();
            if left == 0 || by != owner {
                self.places[kept_len] = record;
                kept_len += 1;
            } else {
                left -= 1;
            }
        }
        kept_len
    }
}

// Whether the flag at a place is set; one that is not there is not.
fn is_set(flags: &[bool], at: usize) -> bool
    ensures { result ≡ slice_index_or flags.now at false }
{
    flags.get(at).copied().unwrap_or(false)
}

// Puts a record behind the first `len` of a table that is an array inside a struct (a line kept there would have to borrow its own
// struct); refused, and nothing changed, where it has no place there.
pub fn append_at<T: Copy>(places: &mut [T], len: usize, record: T) -> Result<(), LineFull>
    ensures { AppendedAt places.old len «record» places.new result }
{
    if places.len() <= len {
        return Err(LineFull);
    }
    let mut line = Line::new(places, len);
    line.append(record)
}

// Takes the record at a place out of the first `len` of a table, as an array inside a struct, and closes up.
pub fn remove_at<T: Copy>(places: &mut [T], len: usize, at: usize) -> Option<T>
    ensures { RemovedAt places.old len at places.new result }
{
    if len > places.len() {
        return None;
    }
    let mut line = Line::new(places, len);
    line.remove(at)
}
