ghost use Rattle.std.specs.Prelude.{◌≡◌, ℕ, ◌≤◌, min, length, IfOk};
ghost use Rattle.seek.specs.Courses.{Filled, Turn, Served};
ghost use Rattle.std.proofs.Common.{rules};

use device::device::Device;
use device::disk::Disk;
use device::policy::Policy;
use std::alloc::{AllocError, Global};
use values::io::Run;

// A device that moves exactly one run if any is at work.
pub trait Steady: Device {
    ghost steady: { (d e : Self) (count : ℕ) → Self.Device.works d count e → count ≡ min 1 (length (Self.Device.means d).working) };
}

impl<P: Policy> Steady for Disk<P> {
    ghost steady = { Prim.search rules };
}

// Puts runs from the first on as long as there is room; how many were put.
fn fill<D: Device>(device: &mut D, runs: &[Run]) -> usize
    ensures { Filled D.means D.puts device.old runs.now result device.new }
{
    for (place, run) in runs.iter().enumerate() {
        if device.put(*run).is_err() {
            return place;
        }
    }
    runs.len()
}

// What one turn did: how many runs were put, and the run that was served, if any.
#[derive(Clone, Copy)]
struct TurnDone {
    put: usize,
    served: Option<Run>,
}

// One turn: puts what fits, works once, and takes one run that is done.
fn turn<D: Device>(device: &mut D, runs: &[Run]) -> TurnDone
    ensures { Turn D.means D.puts D.works D.takes device.old runs.now result.put result.served device.new }
{
    let put = fill(device, runs);
    device.work();
    let served = device.take();
    TurnDone { put, served }
}

// Serves runs through a device that is kept as full as it goes, turn after turn; the runs in the order in which they came back.
pub fn serve<D: Steady>(alloc: Global, device: &mut D, runs: &[Run]) -> Result<Vec<Run>, AllocError>
    ensures { IfOk result (λ v. Served D.Device.means D.Device.puts D.Device.works D.Device.takes device.old runs.now v.items device.new) }
{
    let mut served = Vec::new(alloc);
    let mut rest = runs;
    for _ in runs {
        let done = turn(device, rest);
        rest = rest.split_at(done.put).1;
        if let Some(run) = done.served {
            served.push(run)?;
        }
    }
    Ok(served)
}
