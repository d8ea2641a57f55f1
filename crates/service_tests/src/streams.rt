use super::tools::*;
use line::Line;
use std::test::Fail;

// Arrivals are counted from 0 for each session; ended, unknown and closed sessions take none; a full line takes none.
#[test]
fn arrivals(rt: HostRuntime) -> Result<(), Fail> {
    let mut service = service_of(1)?;
    assert_eq!(rt; pool(&mut service, 0, 0)?, Ok(0));
    assert_eq!(rt; open(&mut service, 0, 0, 0)?, Ok(0));
    assert_eq!(rt; open(&mut service, 0, 0, 0)?, Ok(1));
    let mut table = [read(0, 0)?; 3];
    let mut waiting = Line::new(&mut table, 0);
    assert_eq!(rt; number(service.arrival(&mut waiting, read(0, 100)?)), Ok(0));
    assert_eq!(rt; number(service.arrival(&mut waiting, read(0, 108)?)), Ok(1));
    assert_eq!(rt; number(service.arrival(&mut waiting, read(1, 100)?)), Ok(0));
    assert_eq!(rt;
        number(service.arrival(&mut waiting, read(1, 108)?)),
        Err(12)
    );
    assert_eq!(rt;
        number(service.arrival(&mut waiting, read(2, 108)?)),
        Err(9)
    );
    assert_eq!(rt; number(service.end(1)), Ok(1));
    assert_eq!(rt;
        number(service.arrival(&mut waiting, read(1, 108)?)),
        Err(9)
    );
    assert_eq!(rt; number(service.close(1)), Err(14));
    assert_eq!(rt; waiting.len(), 3);
    Ok(())
}

// Ending and closing in their order.
#[test]
fn endings_and_closings(rt: HostRuntime) -> Result<(), Fail> {
    let mut service = service_of(1)?;
    assert_eq!(rt; pool(&mut service, 0, 0)?, Ok(0));
    assert_eq!(rt; number(service.end(0)), Err(9));
    assert_eq!(rt; open(&mut service, 0, 0, 0)?, Ok(0));
    assert_eq!(rt; number(service.close(0)), Err(9));
    assert_eq!(rt; number(service.end(0)), Ok(0));
    assert_eq!(rt; number(service.end(0)), Err(9));
    assert_eq!(rt; number(service.close(0)), Ok(0));
    assert_eq!(rt; number(service.close(0)), Err(9));
    Ok(())
}
