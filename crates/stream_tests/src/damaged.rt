use std::alloc::{AllocError, Global};
use std::test::Fail;
use stream::checked::check as check_values;
use stream::decode::decode;
use stream::field::Field;
use stream::whole::read_stream;

// The number and the offset of the fault that ends a stream.
fn fault(alloc: Global, input: &[u8]) -> Result<Option<(u8, usize)>, AllocError> {
    let stream = read_stream(alloc, input)?;
    Ok(stream.fault.map(|fault| (fault.number(), fault.offset)))
}

#[test]
fn faults_of_fields(rt: HostRuntime) -> Result<(), Fail> {
    assert_eq!(rt; fault(rt.alloc(), b"")?, None);
    assert_eq!(rt; fault(rt.alloc(), &[1])?, Some((1, 0)));
    assert_eq!(rt; fault(rt.alloc(), &[10, 0, 5, 1, 2, 3])?, Some((1, 0)));
    assert_eq!(rt; fault(rt.alloc(), &[10, 0, 0])?, Some((2, 0)));
    assert_eq!(rt; fault(rt.alloc(), &[8, 0, 0, 0, 0, 0])?, Some((2, 3)));
    assert_eq!(rt; fault(rt.alloc(), &[8, 0, 1])?, Some((1, 0)));
    assert_eq!(rt; fault(rt.alloc(), &[8, 0, 1, 120])?, Some((3, 0)));
    Ok(())
}

#[test]
fn rule_names(rt: HostRuntime) -> Result<(), Fail> {
    let alloc = rt.alloc();
    assert_eq!(rt; fault(alloc, b"\x01\x00\x04\0\0\0\x01")?, Some((3, 0)));
    assert_eq!(rt;
        fault(alloc, b"\x01\x00\x09\0\0\0\0\x01Even")?,
        Some((4, 0))
    );
    assert_eq!(rt; fault(alloc, b"\x01\x00\x08\0\0\0\0\x01eve")?, Some((4, 0)));
    assert_eq!(rt;
        fault(alloc, b"\x01\x00\x0a\0\0\0\0\x01evenx")?,
        Some((4, 0))
    );
    assert_eq!(rt;
        fault(alloc, b"\x01\x00\x0a\0\0\0\0\x01water\x08")?,
        Some((1, 13))
    );
    Ok(())
}

// The fault's number by tag and length, where all bytes are zero; none where there is no fault.
fn expected(tag: u8, length: usize) -> Option<u8> {
    match (tag, length) {
        (1, 5..=20) => Some(4),
        (2, 13 | 17) => None,
        (3, 14 | 18) => None,
        (4, 10) => None,
        (5, 8) => None,
        (6 | 7, 4) => None,
        (8 | 9, 0) => None,
        (1..=9, _) => Some(3),
        _ => Some(2),
    }
}

#[test]
fn every_tag_with_every_length(rt: HostRuntime) {
    let zeros = [0u8; 20];
    for tag in 0..=10 {
        for n in 0..=20 {
            let field = Field {
                offset: 7,
                tag,
                value: &zeros[0..n],
            };
            let fault = decode(field).err();
            assert_eq!(rt; fault.map(|fault| fault.number()), expected(tag, n));
        }
    }
}

// A number out of range is refused at the offset of its field, and the stream goes on.
#[test]
fn out_of_range(rt: HostRuntime) -> Result<(), Fail> {
    let stream = read_stream(rt.alloc(), b"\x08\0\0\x01\x00\x09\0\0\0\0\x01even\x08\0\0")?;
    assert!(rt; stream.fault.is_none());
    assert!(rt; stream.events.len() == 3);
    let begin = stream.events[1];
    let Err(fault) = check_values(begin.event, begin.offset) else {
        return Err(Fail::new("throughput 0"));
    };
    assert_eq!(rt; fault.number(), 5);
    assert_eq!(rt; fault.offset, 3);
    Ok(())
}
