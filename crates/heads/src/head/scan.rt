ghost use Rattle.std.specs.Prelude.{◌≡◌, Some};
ghost use Rattle.heads.specs.Heads.{alone, joins, with_one, head_of, head_says};
ghost use Rattle.std.specs.Option.{option_map};

use super::Head;
use values::extent::Extent;
use values::io::Io;

impl Head {
    // An I/O as a run of its own.
    pub(super) fn alone(io: Io) -> Head
        ensures { head_says result ≡ alone io }
    {
        Head {
            count: 1,
            direction: io.direction,
            extent: io.extent,
        }
    }

    // Whether an I/O goes on where the run ends, in its direction, with at most 64 sectors together.
    fn adjoins(&self, io: Io) -> bool
        ensures { result ≡ joins (head_says self.now) io }
    {
        self.direction == io.direction
            && io.extent.address == self.extent.end()
            && self.extent.length + io.extent.length <= 64
    }

    // The run with one I/O more; none where the I/O does not join it.
    pub(super) fn longer(self, io: Io) -> Option<Head>
        ensures { option_map head_says result ≡ with_one (Some (head_says self)) io }
    {
        if self.adjoins(io) {
            Some(Head {
                count: self.count + 1,
                direction: self.direction,
                extent: Extent {
                    address: self.extent.address,
                    length: self.extent.length + io.extent.length,
                },
            })
        } else {
            None
        }
    }
}

// A run so far with one I/O more of its session; none where the I/O does not join it.
pub fn joined(head: Option<Head>, io: Io) -> Option<Head>
    ensures { option_map head_says result ≡ with_one (option_map head_says head) io }
{
    match head {
        None => Some(Head::alone(io)),
        Some(head) => head.longer(io),
    }
}

// The session's head run, if anything of it waits.
pub fn head_of(waiting: &[Io], name: u32) -> Option<Head>
    ensures { option_map head_says result ≡ head_of name waiting.now }
{
    let mut head = None;
    for io in waiting {
        if io.session == name {
            let Some(longer) = joined(head, *io) else {
                return head;
            };
            head = Some(longer);
        }
    }
    head
}
