ghost use Rattle.std.specs.Prelude.{◌≡◌, ◌%◌, ◌^◌, ◌++◌, map, IfOk, OnOk};
ghost use Rattle.seek.specs.Requests.{requested};
ghost use Rattle.seek.specs.Texts.{lines_of, request_in, fault_in, requests_from, faults_from, run_says, bad_says};

use super::lines::Lines;
use super::request::{LineFault, read_request};
use std::alloc::{AllocError, Global};
use std::fmt;
use values::direction::Direction;
use values::extent::Extent;
use values::io::Run;

// A line that is no request: its number, counted from 0, and why.
#[derive(Clone, Copy, Debug)]
pub struct BadLine {
    pub line: usize,
    pub fault: LineFault,
}

// A bad line as it is told, numbered from 1.
impl fmt::Display for BadLine {
    ghost use Rattle.std.specs.Prelude.{Some};
    ghost use Rattle.seek.specs.Texts.{bad_text};

    ghost output = { λ bad. Some (bad_text bad) };

    fn fmt<W: fmt::Write>(&self, f: &mut fmt::Formatter<W>) -> fmt::Result {
        write!(f, "line {}: {}", self.line as u128 + 1, self.fault)
    }
}

// The requests of a text, in the order of their lines, and the lines that are none.
#[derive(Drop)]
pub struct Requests {
    pub runs: Vec<Run>,
    pub bad: Vec<BadLine>,
}

// A request as a run to read, with its line's number in the place of the first arrival number.
fn run_of(line: usize, extent: Extent) -> Run
    ensures { run_says result ≡ record { session = 0; first = line % 2 ^ 32; count = 1; direction = 0; address = extent.address; length = extent.length } }
{
    Run {
        session: 0,
        first: (line % 4_294_967_296) as u32,
        count: 1,
        direction: Direction::Read,
        extent,
    }
}

// Adds what one line says.
fn add_line(requests: &mut Requests, line: usize, text: &[u8]) -> Result<(), AllocError>
    ensures runs { OnOk result (map run_says requests.new.runs.items ≡ map run_says requests.old.runs.items ++ request_in line (requested text.now)) }
    ensures bad { OnOk result (map bad_says requests.new.bad.items ≡ map bad_says requests.old.bad.items ++ fault_in line (requested text.now)) }
{
    match read_request(text) {
        Ok(extent) => requests.runs.push(run_of(line, extent))?,
        Err(fault) => requests.bad.push(BadLine { line, fault })?,
    }
    Ok(())
}

// Reads a text of requests, a line each: exactly the requests and the bad lines that it has, in their order.
pub fn read_requests(alloc: Global, text: &[u8]) -> Result<Requests, AllocError>
    ensures { IfOk result (λ q. (map run_says q.runs.items ≡ requests_from 0 (lines_of text.now)) × (map bad_says q.bad.items ≡ faults_from 0 (lines_of text.now))) }
{
    let mut requests = Requests {
        runs: Vec::new(alloc),
        bad: Vec::new(alloc),
    };
    for (line, text) in Lines::new(text).enumerate() {
        add_line(&mut requests, line, text)?;
    }
    Ok(requests)
}
