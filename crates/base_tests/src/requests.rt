use seek::request::{LineFault, read_request};
use seek::text::read_requests;
use std::test::Fail;

fn fault(line: &[u8]) -> Option<LineFault> {
    read_request(line).err()
}

#[test]
fn one_line(rt: HostRuntime) -> Result<(), Fail> {
    let extent = read_request(b"0100 08")?;
    assert_eq!(rt; extent.address, 100);
    assert_eq!(rt; extent.length, 8);
    assert_eq!(rt; fault(b"4294967231 64"), None);
    assert_eq!(rt; fault(b"4294967232 64"), Some(LineFault::PastTheEnd));
    assert_eq!(rt;
        fault(b"99999999999999999999999 1"),
        Some(LineFault::PastTheEnd)
    );
    assert_eq!(rt; fault(b"1 0"), Some(LineFault::LengthOutOfRange));
    assert_eq!(rt; fault(b"99999999999 65"), Some(LineFault::LengthOutOfRange));
    assert_eq!(rt; fault(b""), Some(LineFault::NotTwoNumbers));
    assert_eq!(rt; fault(b"7"), Some(LineFault::NotTwoNumbers));
    assert_eq!(rt; fault(b"7  8"), Some(LineFault::NotTwoNumbers));
    assert_eq!(rt; fault(b"7 8 "), Some(LineFault::NotTwoNumbers));
    assert_eq!(rt; fault(b"-7 8"), Some(LineFault::NotTwoNumbers));
    Ok(())
}

#[test]
fn a_text(rt: HostRuntime) -> Result<(), Fail> {
    let read = read_requests(rt.alloc(), b"1 1\nx\n\n5 64")?;
    assert_eq!(rt; read.runs.len(), 2);
    assert_eq!(rt; read.bad.len(), 2);
    assert!(rt; read.bad.len() == 2);
    assert_eq!(rt; read.bad[1].line, 2);
    let ended = read_requests(rt.alloc(), b"1 1\n")?;
    assert_eq!(rt; ended.runs.len() + ended.bad.len(), 1);
    Ok(())
}
