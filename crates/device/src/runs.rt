ghost use Rattle.std.specs.Prelude.{◌≡◌, ◌≤◌, length};

use line::remove_at;
use values::direction::Direction;
use values::extent::Extent;
use values::io::Run;

// Up to 32 runs in their order, in a table inside the value. No model, which would see a list alone: that a refused call
// leaves a value equal to what it was is said of the whole table, the places that hold no run too.
// No `ArrayVec`: it fills its unused places with default elements, and there is no default run.
#[derive(Drop)]
pub struct Runs {
    places: [Run; 32],
    len: usize,
    ghost few: { len ≤ 32 },
    ghost wide: { length places ≡ 32 },
}

impl Runs {
    ghost use Rattle.std.specs.Prelude.{◌<◌, [], ◌∷◌, ◌++◌, ◌==◌, slice_index_or, MatchOption};
    ghost use Rattle.std.specs.List.{remove};
    ghost use Rattle.device.specs.Runs.{runs_of};

    // No runs.
    pub(crate) fn new() -> Runs
        ensures { runs_of result ≡ [] }
    {
        let blank = Run {
            session: 0,
            first: 0,
            count: 0,
            direction: Direction::Read,
            extent: Extent {
                address: 0,
                length: 1,
            },
        };
        Runs {
            places: [blank; 32],
            len: 0,
        }
    }

    // How many runs there are.
    pub fn len(&self) -> usize
        ensures { result ≡ length (runs_of self.now) }
    {
        self.as_slice().len()
    }

    // Whether there are none.
    pub fn is_empty(&self) -> bool
        ensures { result ≡ (length (runs_of self.now) == 0) }
    {
        self.len == 0
    }

    // The runs, in their order.
    pub fn as_slice(&self) -> &[Run]
        ensures { (result.now ≡ runs_of self.now) × (length result.now ≤ 32) }
    {
        &self.places[..self.len]
    }

    // Adds a run behind the others.
    pub(crate) fn push(&mut self, run: Run)
        requires { length (runs_of self.old) < 32 }
        ensures { runs_of self.new ≡ runs_of self.old ++ run ∷ [] }
    {
        self.places[self.len] = run;
        self.len += 1;
    }

    // Takes out the run at a place; none, and nothing changed, exactly where no run stands there.
    pub(crate) fn pop_at(&mut self, place: usize) -> Option<Run>
        ensures { MatchOption result ((length (runs_of self.old) ≤ place) × (self.new ≡ self.old)) (λ run. (place < length (runs_of self.old)) × (run ≡ slice_index_or (runs_of self.old) place run) × (runs_of self.new ≡ remove (runs_of self.old) place)) }
    {
        let run = remove_at(&mut self.places, self.len, place)?;
        self.len -= 1;
        Some(run)
    }
}
