ghost use Rattle.std.specs.Prelude.{◌≡◌, ℕ, ◌+◌, ◌-◌, ◌*◌, ◌^◌, ◌<◌, ◌≤◌, min, if◌then◌else◌, Some, None, Ok, Err, position, ◌==◌, MatchResult};
ghost use Rattle.seek.specs.Numerals.{is_digit, numeral};
ghost use Rattle.seek.specs.Requests.{before_byte, after_byte, judged, requested, fault_text};
ghost use Rattle.std.specs.Option.{option_map};

use std::error::Error;
use std::fmt;
use values::extent::Extent;

// Why a line is no request.
#[derive(Clone, Copy, Debug, PartialEq, Eq)]
pub enum LineFault {
    NotTwoNumbers,
    LengthOutOfRange,
    PastTheEnd,
}

impl LineFault {
    // What is told of the fault.
    pub fn text(self) -> &'static str
        ensures { result.now ≡ fault_text self }
    {
        match self {
            LineFault::NotTwoNumbers =>
                "expected ADDRESS LENGTH, two decimal numbers and one space between them",
            LineFault::LengthOutOfRange => "LENGTH is not 1 to 64",
            LineFault::PastTheEnd => "ADDRESS + LENGTH is above 4294967295",
        }
    }
}

impl fmt::Display for LineFault {
    ghost use Rattle.std.specs.Prelude.{Some};
    ghost use Rattle.seek.specs.Requests.{fault_text};

    ghost output = { λ fault. Some (fault_text fault) };

    fn fmt<W: fmt::Write>(&self, f: &mut fmt::Formatter<W>) -> fmt::Result {
        f.write_str(self.text())
    }
}

impl Error for LineFault {}

// The value of a digit; none where the byte is no digit.
fn digit_value(byte: u8) -> Option<u8>
    ensures { result ≡ (if is_digit byte then Some (byte - 48) else None) }
{
    if byte.is_ascii_digit() {
        Some(byte - b'0')
    } else {
        None
    }
}

// A digit behind a number. Numbers from 4,294,967,296 on are alike, since they are past every address.
fn with_digit(number: u64, digit: u8) -> u64
    ensures { number ≤ 2 ^ 32 → result ≡ min (number * 10 + digit) (2 ^ 32) }
{
    number
        .saturating_mul(10)
        .saturating_add(u64::from(digit))
        .min(4_294_967_296)
}

// The number that a text of digits spells; none where it is no numeral.
fn decimal(text: &[u8]) -> Option<u64>
    ensures { result ≡ option_map (λ n. min n (2 ^ 32)) (numeral text.now) }
{
    if text.is_empty() {
        return None;
    }
    let mut number = 0;
    for byte in text {
        let digit = digit_value(*byte)?;
        number = with_digit(number, digit);
    }
    Some(number)
}

// The place of the first byte of a kind.
fn find(text: &[u8], mark: u8) -> Option<usize>
    ensures { result ≡ position (λ b. b == mark) text.now }
{
    text.iter().position(|byte| *byte == mark)
}

// The parts of a text before and after its first byte of a kind.
pub(crate) fn split(text: &[u8], mark: u8) -> (&[u8], &[u8])
    ensures { (result.0.now ≡ before_byte mark text.now) × (result.1.now ≡ after_byte mark text.now) }
{
    match find(text, mark) {
        Some(at) => (&text[..at], &text[at + 1..]),
        None => (text, &[]),
    }
}

// Two numbers as address and length, or the first fault of theirs.
fn judge(address: Option<u64>, length: Option<u64>) -> Result<Extent, LineFault>
    ensures { MatchResult result (λ e. judged address length ≡ Ok (e.address, e.length)) (λ f. judged address length ≡ Err f) }
{
    let (Some(address), Some(length)) = (address, length) else {
        return Err(LineFault::NotTwoNumbers);
    };
    if !(1..=64).contains(&length) {
        return Err(LineFault::LengthOutOfRange);
    }
    if address > 4_294_967_295 - length {
        return Err(LineFault::PastTheEnd);
    }
    Ok(Extent {
        address: address as u32,
        length: length as u8,
    })
}

// The sectors that a line "ADDRESS LENGTH" asks for.
pub fn read_request(line: &[u8]) -> Result<Extent, LineFault>
    ensures { MatchResult result (λ e. requested line.now ≡ Ok (e.address, e.length)) (λ f. requested line.now ≡ Err f) }
{
    let (address, length) = split(line, b' ');
    judge(decimal(address), decimal(length))
}
