ghost use Rattle.std.specs.Prelude.{◌≡◌, ◌+◌, ◌≤◌, true, length, take, drop, Ok, ◌≢◌, ◌⊎◌};
ghost use Rattle.stream.specs.Events.{limit_in, rates_in, said_by, event_of, placed};
ghost use Rattle.stream.specs.Tags.{length_lawful};

use super::event::{Event, SpelledRates};
use super::fault::{StreamFault, StreamWhy};
use super::field::Field;
use super::tag::Tag;
use sharing::shipped::Rule;

// So many bytes of a value, from a place on.
fn bytes_at<const N: usize>(v: &[u8], place: usize) -> [u8; N]
    requires { place + N ≤ length v.now }
    ensures { result ≡ take N (drop place v.now) }
{
    let mut bytes = [0; N];
    bytes.copy_from_slice(&v[place..place + N]);
    bytes
}

// The limit that four bytes spell; none where there are no bytes.
fn limit_in(bytes: &[u8]) -> Option<u32>
    requires { (length bytes.now ≢ 0) → length bytes.now ≡ 4 }
    ensures { result ≡ limit_in bytes.now }
{
    bytes.first_chunk().map(|limit| u32::from_be_bytes(*limit))
}

// Reserve, burst, and the limit or nothing.
fn rates_in(bytes: &[u8]) -> SpelledRates
    requires { (length bytes.now ≡ 5) ⊎ (length bytes.now ≡ 9) }
    ensures { result ≡ rates_in bytes.now }
{
    SpelledRates {
        reserve: u32::from_be_bytes(bytes_at(bytes, 0)),
        burst: bytes[4],
        limit: limit_in(&bytes[5..]),
    }
}

// A begin: throughput, cap, and the rest the rule's name, which must be that of a rule.
fn begin(v: &[u8]) -> Result<Event, StreamWhy>
    requires { 5 ≤ length v.now }
    ensures { result ≡ said_by Tag.Begin v.now }
{
    Ok(Event::Begin {
        throughput: u32::from_be_bytes(bytes_at(v, 0)),
        cap: v[4],
        rule: Rule::try_from(&v[5..])?,
    })
}

// A pool: instant and rates.
fn pool(v: &[u8]) -> Event
    requires { length_lawful Tag.Pool (length v.now) ≡ true }
    ensures { Ok result ≡ said_by Tag.Pool v.now }
{
    Event::Pool {
        instant: u64::from_be_bytes(bytes_at(v, 0)),
        rates: rates_in(&v[8..]),
    }
}

// An opening: instant, pool and rates.
fn open(v: &[u8]) -> Event
    requires { length_lawful Tag.Open (length v.now) ≡ true }
    ensures { Ok result ≡ said_by Tag.Open v.now }
{
    Event::Open {
        instant: u64::from_be_bytes(bytes_at(v, 0)),
        pool: v[8],
        rates: rates_in(&v[9..]),
    }
}

// An arrival: session, direction, address and length.
fn arrival(v: &[u8]) -> Event
    requires { length_lawful Tag.Arrival (length v.now) ≡ true }
    ensures { Ok result ≡ said_by Tag.Arrival v.now }
{
    Event::Arrival {
        session: u32::from_be_bytes(bytes_at(v, 0)),
        direction: v[4],
        address: u32::from_be_bytes(bytes_at(v, 5)),
        length: v[9],
    }
}

// What a value of a length that its tag allows says.
fn said(tag: Tag, v: &[u8]) -> Result<Event, StreamWhy>
    requires { length_lawful tag (length v.now) ≡ true }
    ensures { result ≡ said_by tag v.now }
{
    match tag {
        Tag::Begin => begin(v),
        Tag::Pool => Ok(pool(v)),
        Tag::Open => Ok(open(v)),
        Tag::Arrival => Ok(arrival(v)),
        Tag::Schedule => Ok(Event::Schedule {
            instant: u64::from_be_bytes(bytes_at(v, 0)),
        }),
        Tag::End => Ok(Event::End {
            session: u32::from_be_bytes(bytes_at(v, 0)),
        }),
        Tag::Close => Ok(Event::Close {
            session: u32::from_be_bytes(bytes_at(v, 0)),
        }),
        Tag::Work => Ok(Event::Work),
        Tag::Collect => Ok(Event::Collect),
    }
}

// What a field says by the number of its tag and its value.
fn event_of(number: u8, value: &[u8]) -> Result<Event, StreamWhy>
    ensures { result ≡ event_of number value.now }
{
    let tag = Tag::try_from(number)?;
    if tag.allows(value.len()) {
        said(tag, value)
    } else {
        Err(StreamWhy::WrongLength)
    }
}

// The event that a field spells, or the first fault that it has.
pub fn decode(field: Field) -> Result<Event, StreamFault>
    ensures { result ≡ placed field.entry.offset (event_of field.entry.tag field.entry.value.now) }
{
    event_of(field.tag, field.value).map_err(|why| StreamFault {
        why,
        offset: field.offset,
    })
}
