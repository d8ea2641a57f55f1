use super::tools::*;
use std::test::Fail;

// Throughput 112: reserves 60 and 52 pass, 60 and 53 give 11.
#[test]
fn reserves_of_pools(rt: HostRuntime) -> Result<(), Fail> {
    let mut service = service_of(112)?;
    assert_eq!(rt; pool(&mut service, 0, 60)?, Ok(0));
    assert_eq!(rt; pool(&mut service, 0, 53)?, Err(11));
    assert_eq!(rt; pool(&mut service, 0, 52)?, Ok(1));
    assert_eq!(rt; pool(&mut service, 0, 1)?, Err(11));
    Ok(())
}

// A 17th pool gives 10, also where its reserve would give 11; an instant that goes back gives 7 before both.
#[test]
fn sixteen_pools(rt: HostRuntime) -> Result<(), Fail> {
    let mut service = service_of(16)?;
    for i in 0..16u8 {
        assert_eq!(rt; pool(&mut service, 5, 1)?, Ok(i));
    }
    assert_eq!(rt; pool(&mut service, 5, 1)?, Err(10));
    assert_eq!(rt; pool(&mut service, 4, 1)?, Err(7));
    Ok(())
}

// A refused call does not move the latest accepted instant.
#[test]
fn refused_instants(rt: HostRuntime) -> Result<(), Fail> {
    let mut service = service_of(1)?;
    assert_eq!(rt; pool(&mut service, 50, 2)?, Err(11));
    assert_eq!(rt; pool(&mut service, 10, 1)?, Ok(0));
    assert_eq!(rt; open(&mut service, 9, 7, 0)?, Err(7));
    assert_eq!(rt; open(&mut service, 10, 7, 0)?, Err(8));
    Ok(())
}

// Sessions of 6 and 4 share a pool of 10; the reserve is given back at closing, under a new name.
#[test]
fn reserves_of_sessions(rt: HostRuntime) -> Result<(), Fail> {
    let mut service = service_of(10)?;
    assert_eq!(rt; pool(&mut service, 0, 10)?, Ok(0));
    assert_eq!(rt; open(&mut service, 0, 0, 6)?, Ok(0));
    assert_eq!(rt; open(&mut service, 0, 0, 4)?, Ok(1));
    assert_eq!(rt; open(&mut service, 0, 0, 1)?, Err(11));
    assert_eq!(rt; number(service.end(0)), Ok(0));
    assert_eq!(rt; open(&mut service, 0, 0, 1)?, Err(11));
    assert_eq!(rt; number(service.close(0)), Ok(0));
    assert_eq!(rt; open(&mut service, 0, 0, 6)?, Ok(2));
    Ok(())
}

// All 64 places: the next opening gives 10, also where its reserve would give 11, and 8 where its pool does not exist.
#[test]
fn sixty_four_sessions(rt: HostRuntime) -> Result<(), Fail> {
    let mut service = service_of(1)?;
    assert_eq!(rt; pool(&mut service, 0, 1)?, Ok(0));
    for i in 0..64u32 {
        assert_eq!(rt; open(&mut service, 0, 0, 0)?, Ok(i));
    }
    assert_eq!(rt; open(&mut service, 0, 0, 2)?, Err(10));
    assert_eq!(rt; open(&mut service, 0, 1, 2)?, Err(8));
    for i in 0..64u32 {
        assert_eq!(rt; number(service.end(i)), Ok(i));
        assert_eq!(rt; number(service.close(i)), Ok(i));
        assert_eq!(rt; open(&mut service, 0, 0, 0)?, Ok(i + 64));
    }
    assert_eq!(rt; number(service.close(0)), Err(9));
    Ok(())
}
