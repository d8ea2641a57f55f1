use device::device::{Device, DeviceFull};
use device::elevator::Elevator;
use device::store::LineStore;
use std::test::Fail;
use values::direction::Direction;
use values::extent::Extent;
use values::io::Run;

// A read of one I/O, told apart by its first arrival number.
fn read(first: u32, address: u32, length: u8) -> Result<Run, Fail> {
    Ok(Run {
        session: 0,
        first,
        count: 1,
        direction: Direction::Read,
        extent: Extent::new(address, length)?,
    })
}

// The first arrival number of the run that a device works on and gives next.
fn next<D: Device>(device: &mut D) -> Option<u32> {
    device.work();
    device.take().map(|run| run.first)
}

// Arm 116, runs at 100 and 500: the arm goes to 500.
#[test]
fn arm_goes_up_and_round(rt: HostRuntime) -> Result<(), Fail> {
    let mut disk = Elevator::new();
    assert!(rt; disk.put(read(0, 100, 16)?).is_ok());
    assert_eq!(rt; next(&mut disk), Some(0));
    assert!(rt; disk.put(read(1, 100, 8)?).is_ok());
    assert!(rt; disk.put(read(2, 500, 8)?).is_ok());
    assert_eq!(rt; next(&mut disk), Some(2));
    assert_eq!(rt; next(&mut disk), Some(1));
    Ok(())
}

#[test]
fn equal_addresses_go_by_putting(rt: HostRuntime) -> Result<(), Fail> {
    let mut disk = Elevator::new();
    assert!(rt; disk.put(read(7, 40, 8)?).is_ok());
    assert!(rt; disk.put(read(3, 40, 2)?).is_ok());
    assert!(rt; disk.put(read(5, 40, 4)?).is_ok());
    assert_eq!(rt; next(&mut disk), Some(7));
    assert_eq!(rt; next(&mut disk), Some(3));
    assert_eq!(rt; next(&mut disk), Some(5));
    Ok(())
}

// From the last address the arm comes to address 0 next.
#[test]
fn arm_at_the_end_of_the_disk(rt: HostRuntime) -> Result<(), Fail> {
    let mut disk = Elevator::new();
    assert!(rt; disk.put(read(0, 4_294_967_231, 64)?).is_ok());
    assert_eq!(rt; next(&mut disk), Some(0));
    assert!(rt; disk.put(read(1, 4_294_967_230, 1)?).is_ok());
    assert!(rt; disk.put(read(2, 0, 1)?).is_ok());
    assert_eq!(rt; next(&mut disk), Some(2));
    assert_eq!(rt; next(&mut disk), Some(1));
    Ok(())
}

#[test]
fn line_store_in_order_until_full(rt: HostRuntime) -> Result<(), Fail> {
    let mut store = LineStore::new();
    for i in 0..16u32 {
        assert!(rt; store.put(read(i, 1000 - i, 1)?).is_ok());
    }
    assert_eq!(rt; store.held(), store.depth());
    assert_eq!(rt; store.put(read(16, 0, 1)?), Err(DeviceFull));
    assert_eq!(rt; store.held(), 16);
    assert_eq!(rt; next(&mut store), Some(0));
    assert_eq!(rt; next(&mut store), Some(1));
    assert_eq!(rt; store.held(), 14);
    assert!(rt; store.put(read(16, 0, 1)?).is_ok());
    Ok(())
}

// Runs that are done and not taken count as held.
#[test]
fn elevator_full_of_done_runs(rt: HostRuntime) -> Result<(), Fail> {
    let mut disk = Elevator::new();
    for i in 0..32u32 {
        assert!(rt; disk.put(read(i, i * 8, 8)?).is_ok());
        assert_eq!(rt; disk.work(), 1);
    }
    assert_eq!(rt; disk.work(), 0);
    assert_eq!(rt; disk.held(), 32);
    assert_eq!(rt; disk.put(read(32, 0, 1)?), Err(DeviceFull));
    assert_eq!(rt; next(&mut disk), Some(0));
    assert!(rt; disk.put(read(32, 0, 1)?).is_ok());
    Ok(())
}

#[test]
fn empty_devices(rt: HostRuntime) {
    let mut disk = Elevator::new();
    assert_eq!(rt; disk.work(), 0);
    assert_eq!(rt; next(&mut disk), None);
    assert_eq!(rt; disk.held(), 0);
    assert_eq!(rt; disk.depth(), 32);
    let mut store = LineStore::new();
    assert_eq!(rt; store.work(), 0);
    assert_eq!(rt; next(&mut store), None);
    assert_eq!(rt; store.depth(), 16);
}
