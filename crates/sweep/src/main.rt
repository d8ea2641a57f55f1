#![tactic(auto)]

use device::elevator::Elevator;
use device::store::LineStore;
use seek::serve::{Steady, serve};
use seek::text::{BadLine, read_requests};
use seek::travel::travel;
use std::alloc::{AllocError, Global};
use std::io::Read;
use std::{env, fmt, io};
use values::io::Run;

const USAGE: &str =
    "sweep: reads lines \"ADDRESS LENGTH\" (sectors) from standard input, serves them through an elevator\nand through a line store, and tells the order of service of each and how far the arm travelled.";

// What a device did with the requests: its order of service and its arm's way.
#[derive(Drop)]
struct Course {
    device: &'static str,
    served: Vec<Run>,
    way: u128,
}

impl fmt::Display for Course {
    fn fmt<W: fmt::Write>(&self, f: &mut fmt::Formatter<W>) -> fmt::Result {
        writeln!(f, "{}", self.device)?;
        for run in &self.served {
            writeln!(f, "  {} {}", run.extent.address, run.extent.length)?;
        }
        write!(f, "  travelled {} sectors", self.way)
    }
}

// Serves the requests through a device.
fn course_of<D: Steady>(
    alloc: Global,
    name: &'static str,
    device: &mut D,
    runs: &[Run],
) -> Result<Course, AllocError> {
    let served = serve(alloc, device, runs)?;
    let way = travel(served.as_slice());
    Ok(Course {
        device: name,
        served,
        way,
    })
}

// All of standard input.
fn read_input(rt: &HostRuntime) -> io::Result<Vec<u8>> {
    let mut all = Vec::new(rt.alloc());
    rt.stdin().read_to_end(&mut all)?;
    Ok(all)
}

// A line for each bad line.
fn print_bad(rt: &HostRuntime, bad: &[BadLine]) -> io::Result<()> {
    for line in bad {
        println!(rt; "{line}")?;
    }
    Ok(())
}

// How much shorter the first way is than the second.
fn print_saving(rt: &HostRuntime, elevator: u128, store: u128) -> io::Result<()> {
    let does = if elevator <= store { "saves" } else { "costs" };
    let sectors = elevator.abs_diff(store);
    println!(rt; "the elevator {does} {sectors} sectors")
}

fn run(rt: &HostRuntime) -> anyhow::Result<()> {
    if env::args(rt)?.count() > 1 {
        println!(rt; "{USAGE}")?;
        return Ok(());
    }
    let input = read_input(rt)?;
    let requests = read_requests(rt.alloc(), input.as_slice())?;
    print_bad(rt, requests.bad.as_slice())?;
    let runs = requests.runs.as_slice();
    let swept = course_of(rt.alloc(), "elevator", &mut Elevator::new(), runs)?;
    let stored = course_of(rt.alloc(), "line store", &mut LineStore::new(), runs)?;
    println!(rt; "{swept}")?;
    println!(rt; "{stored}")?;
    print_saving(rt, swept.way, stored.way)?;
    Ok(())
}

fn main(rt: HostRuntime) -> anyhow::Result<()> {
    run(&rt)
}
