use super::tools::*;
use device::device::Device;
use device::store::LineStore;
use line::Line;
use service::rows::HandedBack;
use std::test::Fail;
use values::io::Run;

// A run of a device that no service sent.
fn stray(session: u32, count: u8) -> Result<Run, Fail> {
    let io = read(session, 100)?;
    Ok(Run {
        session,
        first: 0,
        count,
        direction: io.direction,
        extent: io.extent,
    })
}

// A full hand-back line gives 15 before an idle device gives 16; foreign runs are handed back with their mark and alter no count.
#[test]
fn foreign_runs(rt: HostRuntime) -> Result<(), Fail> {
    let mut service = service_of(1)?;
    assert_eq!(rt; pool(&mut service, 0, 0)?, Ok(0));
    assert_eq!(rt; open(&mut service, 0, 0, 0)?, Ok(0));
    let mut store = LineStore::new();
    let none = HandedBack {
        run: stray(0, 0)?,
        foreign: false,
    };
    let mut full = [none; 1];
    let mut back = Line::new(&mut full, 1);
    assert_eq!(rt; refusal(service.collect(&mut store, &mut back)), Some(15));
    let mut table = [none; 4];
    let mut back = Line::new(&mut table, 0);
    assert_eq!(rt; refusal(service.collect(&mut store, &mut back)), Some(16));
    assert!(rt; store.put(stray(9, 1)?).is_ok());
    assert!(rt; store.put(stray(0, 1)?).is_ok());
    assert!(rt; store.put(stray(0, 0)?).is_ok());
    for _ in 0..3 {
        assert_eq!(rt; store.work(), 1);
    }
    assert!(rt; foreign(service.collect(&mut store, &mut back))?);
    assert!(rt; foreign(service.collect(&mut store, &mut back))?);
    assert!(rt; !foreign(service.collect(&mut store, &mut back))?);
    assert_eq!(rt; back.len(), 3);
    assert_eq!(rt; number(service.end(0)), Ok(0));
    assert_eq!(rt; number(service.close(0)), Ok(0));
    Ok(())
}
