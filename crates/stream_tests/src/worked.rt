use sharing::shipped::Rule;
use std::test::Fail;
use stream::checked::{Checked, check as check_values};
use stream::event::{Event, SpelledRates};
use stream::reader::Reader;
use stream::whole::read_stream;
use stream::write::write_stream;

// A stream of eleven events: a begin, a pool, a session, three I/Os, two schedulings, work, and two collections.
static EXAMPLE: [u8; 123] = [
    1, 0, 9, 0, 0, 0, 100, 2, 101, 118, 101, 110, 2, 0, 17, 0, 0, 0, 0, 0, 0, 0, 0, 0, 0, 0, 10, 1,
    0, 0, 0, 20, 3, 0, 18, 0, 0, 0, 0, 0, 0, 0, 0, 0, 0, 0, 0, 10, 1, 0, 0, 0, 20, 4, 0, 10, 0, 0,
    0, 0, 0, 0, 0, 0, 100, 8, 4, 0, 10, 0, 0, 0, 0, 0, 0, 0, 0, 108, 8, 4, 0, 10, 0, 0, 0, 0, 0, 0,
    0, 1, 244, 8, 5, 0, 8, 0, 0, 0, 0, 0, 0, 0, 0, 5, 0, 8, 0, 0, 0, 0, 0, 0, 195, 80, 8, 0, 0, 9,
    0, 0, 9, 0, 0,
];

static OFFSETS: [usize; 12] = [0, 12, 32, 53, 66, 79, 92, 103, 114, 117, 120, 123];

fn arrival(address: u32) -> Event {
    Event::Arrival {
        session: 0,
        direction: 0,
        address,
        length: 8,
    }
}

// The bytes are those of its eleven events.
#[test]
fn written(rt: HostRuntime) -> Result<(), Fail> {
    let rates = SpelledRates {
        reserve: 10,
        burst: 1,
        limit: Some(20),
    };
    let bytes = write_stream(
        rt.alloc(),
        &[
            Event::Begin {
                throughput: 100,
                cap: 2,
                rule: Rule::Even,
            },
            Event::Pool { instant: 0, rates },
            Event::Open {
                instant: 0,
                pool: 0,
                rates,
            },
            arrival(100),
            arrival(108),
            arrival(500),
            Event::Schedule { instant: 0 },
            Event::Schedule { instant: 50_000 },
            Event::Work,
            Event::Collect,
            Event::Collect,
        ],
    )?;
    assert_eq!(rt; bytes.as_slice(), EXAMPLE.as_slice());
    Ok(())
}

// Read, they are eleven events at their offsets.
#[test]
fn read(rt: HostRuntime) -> Result<(), Fail> {
    let stream = read_stream(rt.alloc(), &EXAMPLE)?;
    assert!(rt; stream.fault.is_none());
    assert_eq!(rt; stream.events.len(), 11);
    for (spelled, offset) in stream.events.iter().zip(&OFFSETS) {
        assert_eq!(rt; spelled.offset, *offset);
    }
    Ok(())
}

// One by one: the begin, in checked values.
#[test]
fn one_by_one(rt: HostRuntime) -> Result<(), Fail> {
    let mut reader = Reader::new(&EXAMPLE);
    let Ok(Some(first)) = reader.next_event() else {
        return Err(Fail::new("no event"));
    };
    let Checked::Begin { settings, .. } = check_values(first.event, first.offset)? else {
        return Err(Fail::new("no begin"));
    };
    assert_eq!(rt; settings.throughput, 100);
    Ok(())
}

// Cut at any byte, it is read to the last whole field, and the next one is cut short.
#[test]
fn cut_anywhere(rt: HostRuntime) -> Result<(), Fail> {
    for n in 0..123 {
        let whole = OFFSETS[1..].iter().filter(|end| **end <= n).count();
        let stream = read_stream(rt.alloc(), &EXAMPLE[0..n])?;
        assert_eq!(rt; stream.events.len(), whole);
        let start = OFFSETS.get(whole).copied().unwrap_or(0);
        match stream.fault {
            None => assert_eq!(rt; start, n),
            Some(fault) => {
                assert_eq!(rt; fault.number(), 1);
                assert_eq!(rt; fault.offset, start);
                assert!(rt; start < n);
            }
        }
    }
    Ok(())
}
