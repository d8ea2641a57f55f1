ghost use Rattle.std.specs.Prelude.{◌≡◌, ℕ, ◌<◌, List, ◌∷◌, slice_index_or};
ghost use Rattle.heads.specs.Heads.{HeadsOf, head_says};
ghost use Rattle.heads.specs.Places.{final_at, finally_from, found};
ghost use Rattle.heads.specs.declared.head.at_once.Growing.TheVariants.{Empty};
ghost use Rattle.std.specs.Option.{option_map};
ghost use Rattle.values.specs.declared.io.Io.{Io};

use super::Head;
use std::array;
use values::io::Io;

// A head run that is being found: none yet, one that the next I/O may join, or one that is over.
#[derive(Clone, Copy)]
enum Growing {
    Empty,
    Open(Head),
    Over(Head),
}

impl Growing {
    // What an I/O makes of the run of a place: with it the place ends as it would have with the I/O in front of what is left.
    fn met(self, name: Option<u32>, io: Io) -> Growing
        ensures { (ios : List Io) → finally_from result name ios ≡ finally_from self name (io ∷ ios) }
    {
        if name != Some(io.session) {
            return self;
        }
        match self {
            Growing::Empty => Growing::Open(Head::alone(io)),
            Growing::Open(head) => match head.longer(io) {
                Some(longer) => Growing::Open(longer),
                None => Growing::Over(head),
            },
            Growing::Over(_) => self,
        }
    }

    // The run that was found, if there is one.
    fn found(self) -> Option<Head>
        ensures { option_map head_says result ≡ found self }
    {
        match self {
            Growing::Empty => None,
            Growing::Open(head) | Growing::Over(head) => Some(head),
        }
    }
}

// What an I/O makes of the runs of all places. (They stand beside the names in fixed memory, since they follow from the waiting line.)
fn meet(growing: &mut [Growing; 64], names: &[Option<u32>; 64], io: Io)
    ensures { (k : ℕ) (ios : List Io) → k < 64 → final_at growing.new names.now k ios ≡ final_at growing.old names.now k (io ∷ ios) }
{
    // By places: after a zip with `iter_mut` a proof knows nothing of what was written.
    for (place, name) in names.iter().enumerate() {
        growing[place] = growing[place].met(*name, io);
    }
}

// The head runs of the sessions of all places, by one pass over the waiting line.
// The names come beside the table of sessions, which this crate does not know.
pub fn heads_at_once(waiting: &[Io], names: &[Option<u32>; 64]) -> [Option<Head>; 64]
    ensures { HeadsOf names.now waiting.now result }
{
    let mut growing = [Growing::Empty; 64];
    for io in waiting {
        meet(&mut growing, names, *io);
    }
    // (Not `map`, which moves the array into an iterator first: that costs more than a short line.)
    array::from_fn(
        |place|
            requires { place < 64 }
            ensures { option_map head_says result ≡ found (slice_index_or growing place Empty) }
        { growing[place].found() },
    )
}
