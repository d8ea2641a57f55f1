ghost use Rattle.std.specs.Prelude.{◌≡◌, ◌++◌, is_ok, IfOk, if◌then◌else◌, OnOk};
ghost use Rattle.std.specs.List.{flat_map};
ghost use Rattle.stream.specs.Spelling.{rates_bytes, value_in, spelling, NumbersFit, ReadBack};

use super::event::{Event, SpelledRates};
use sharing::shipped::Rule;
use std::alloc::{AllocError, Global};

// The value of a begin.
fn begin(alloc: Global, throughput: u32, cap: u8, rule: Rule) -> Result<Vec<u8>, AllocError>
    ensures { IfOk result (λ v. v.items ≡ value_in (Event.Begin throughput «cap» rule)) }
{
    let mut value = Vec::from_slice(alloc, &throughput.to_be_bytes())?;
    value.push(cap)?;
    value.extend_from_slice(rule.name())?;
    Ok(value)
}

// Writes reserve, burst and limit.
fn write_rates(out: &mut Vec<u8>, rates: SpelledRates) -> Result<(), AllocError>
    ensures { OnOk result (out.new.items ≡ out.old.items ++ rates_bytes rates) }
{
    out.extend_from_slice(&rates.reserve.to_be_bytes())?;
    out.push(rates.burst)?;
    match rates.limit {
        Some(limit) => out.extend_from_slice(&limit.to_be_bytes()),
        None => Ok(()),
    }
}

// The value of a pool.
fn pool(alloc: Global, instant: u64, rates: SpelledRates) -> Result<Vec<u8>, AllocError>
    ensures { IfOk result (λ v. v.items ≡ value_in (Event.Pool instant rates)) }
{
    let mut value = Vec::from_slice(alloc, &instant.to_be_bytes())?;
    write_rates(&mut value, rates)?;
    Ok(value)
}

// The value of an opening.
fn open(alloc: Global, instant: u64, pool: u8, rates: SpelledRates) -> Result<Vec<u8>, AllocError>
    ensures { IfOk result (λ v. v.items ≡ value_in (Event.Open instant pool rates)) }
{
    let mut value = Vec::from_slice(alloc, &instant.to_be_bytes())?;
    value.push(pool)?;
    write_rates(&mut value, rates)?;
    Ok(value)
}

// The value of an arrival. (Its direction is a number here, as the event has it.)
fn arrival(
    alloc: Global,
    session: u32,
    direction: u8,
    address: u32,
    length: u8,
) -> Result<Vec<u8>, AllocError>
    ensures { IfOk result (λ v. v.items ≡ value_in (Event.Arrival session direction address length)) }
{
    let mut value = Vec::from_slice(alloc, &session.to_be_bytes())?;
    value.push(direction)?;
    value.extend_from_slice(&address.to_be_bytes())?;
    value.push(length)?;
    Ok(value)
}

// The value of an event's field.
fn value_of(alloc: Global, event: Event) -> Result<Vec<u8>, AllocError>
    ensures { IfOk result (λ v. v.items ≡ value_in event) }
{
    match event {
        Event::Begin {
            throughput,
            cap,
            rule,
        } => begin(alloc, throughput, cap, rule),
        Event::Pool { instant, rates } => pool(alloc, instant, rates),
        Event::Open {
            instant,
            pool,
            rates,
        } => open(alloc, instant, pool, rates),
        Event::Arrival {
            session,
            direction,
            address,
            length,
        } => arrival(alloc, session, direction, address, length),
        Event::Schedule { instant } => Vec::from_slice(alloc, &instant.to_be_bytes()),
        Event::End { session } | Event::Close { session } => Vec::from_slice(
            alloc,
            &session.to_be_bytes(),
        ),
        Event::Work | Event::Collect => Ok(Vec::new(alloc)),
    }
}

// The bytes of an event's field: the tag, the length of the value in two bytes, and the value.
fn field_of(alloc: Global, event: Event) -> Result<Vec<u8>, AllocError>
    ensures { IfOk result (λ v. v.items ≡ spelling event) }
{
    let value = value_of(alloc, event)?;
    let mut field = Vec::new(alloc);
    field.push(u8::from(event.tag()))?;
    field.extend_from_slice(&(value.len() as u16).to_be_bytes())?;
    field.extend_from_slice(&value)?;
    Ok(field)
}

// Writes an event behind what was written: exactly the bytes of its field, or nothing for want of memory.
pub fn write_event(out: &mut Vec<u8>, event: Event) -> Result<(), AllocError>
    ensures bytes { out.new.items ≡ (if is_ok result then out.old.items ++ spelling event else out.old.items) }
    ensures fits { NumbersFit event }
{
    let field = field_of(*out.allocator(), event)?;
    out.extend_from_slice(&field)
}

// Writes events one after the other.
fn write_all(out: &mut Vec<u8>, events: &[Event]) -> Result<(), AllocError>
    ensures bytes { OnOk result (out.new.items ≡ out.old.items ++ flat_map spelling events.now) }
    ensures back { OnOk result (ReadBack events.now (flat_map spelling events.now)) }
{
    for event in events {
        write_event(out, *event)?;
    }
    Ok(())
}

// Writes a stream of events: reading its bytes gives the same events, with the offsets of their fields, and no fault.
pub fn write_stream(alloc: Global, events: &[Event]) -> Result<Vec<u8>, AllocError>
    ensures bytes { IfOk result (λ v. v.items ≡ flat_map spelling events.now) }
    ensures back { IfOk result (λ v. ReadBack events.now v.items) }
{
    let mut out = Vec::new(alloc);
    write_all(&mut out, events)?;
    Ok(out)
}
