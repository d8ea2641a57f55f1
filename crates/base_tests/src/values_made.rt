use std::test::Fail;
use values::direction::Direction;
use values::extent::Extent;
use values::instant::Instant;
use values::io::Io;
use values::rates::Rates;

// The two ends of the address space, and the lengths beside 1 to 64.
#[test]
fn extents(rt: HostRuntime) -> Result<(), Fail> {
    assert_eq!(rt; Extent::new(4_294_967_294, 1)?.end(), 4_294_967_295);
    assert_eq!(rt; Extent::new(4_294_967_231, 64)?.end(), 4_294_967_295);
    assert_eq!(rt; Extent::new(0, 1)?.end(), 1);
    assert!(rt; Extent::new(4_294_967_295, 1).is_err());
    assert!(rt; Extent::new(4_294_967_232, 64).is_err());
    assert!(rt; Extent::new(0, 0).is_err());
    assert!(rt; Extent::new(0, 65).is_err());
    Ok(())
}

#[test]
fn ios(rt: HostRuntime) -> Result<(), Fail> {
    let io = Io::new(9, 1, 100, 8)?;
    assert_eq!(rt; io.direction, Direction::Write);
    assert_eq!(rt; u8::from(io.direction), 1);
    assert!(rt; Io::new(9, 2, 100, 8).is_err());
    match Io::new(9, 0, 100, 65) {
        Ok(_) => Err(Fail::new("65 sectors")),
        Err(fault) => {
            assert_eq!(rt; fault.number(), 5);
            assert_eq!(rt; fault.offset, 0);
            Ok(())
        }
    }
}

#[test]
fn instants_and_rates(rt: HostRuntime) -> Result<(), Fail> {
    assert_eq!(rt; Instant::new(1_099_511_627_775)?.micros, 1_099_511_627_775);
    assert!(rt; Instant::new(1_099_511_627_776).is_err());
    assert_eq!(rt; Rates::new(5, Some(5), 64)?.burst, 64);
    assert!(rt; Rates::new(5, Some(4), 1).is_err());
    assert!(rt; Rates::new(0, Some(0), 1).is_err());
    assert!(rt; Rates::new(100_001, None, 1).is_err());
    assert!(rt; Rates::new(0, None, 0).is_err());
    assert!(rt; Rates::new(0, None, 65).is_err());
    Ok(())
}
