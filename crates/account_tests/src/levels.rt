use sharing::rule::SharingRule;
use sharing::shipped::Rule;
use std::test::Fail;
use usage::ServiceRecord;
use values::instant::Instant;

// The level by a rule of a record that is read at an instant.
fn level_at(rule: Rule, record: ServiceRecord, micros: u64) -> Result<u64, Fail> {
    let mut record = record;
    record.move_on(Instant::new(micros)?);
    Ok(rule.level_of(&record))
}

// A run sent at 249,999 weighs less with each quarter second, and nothing after twenty.
#[test]
fn a_run_grows_old(rt: HostRuntime) -> Result<(), Fail> {
    let mut record = ServiceRecord::new(Instant::new(249_999)?);
    record.count_send(true);
    assert_eq!(rt; level_at(Rule::Water, record, 249_999)?, 1_000_000);
    assert_eq!(rt; level_at(Rule::Water, record, 250_000)?, 900_000);
    assert_eq!(rt; level_at(Rule::Water, record, 4_999_999)?, 135_085);
    assert_eq!(rt; level_at(Rule::Water, record, 5_000_000)?, 0);
    assert_eq!(rt; level_at(Rule::Water, record, 1_099_511_627_775)?, 0);
    Ok(())
}

// One run in each of the twenty quarters.
#[test]
fn twenty_quarters(rt: HostRuntime) -> Result<(), Fail> {
    let mut record = ServiceRecord::new(Instant::new(0)?);
    for quarter in 0..20u64 {
        record.move_on(Instant::new(quarter * 250_000)?);
        record.count_send(false);
    }
    assert_eq!(rt; Rule::Water.level_of(&record), 8_784_227);
    assert_eq!(rt; Rule::Even.level_of(&record), 20);
    Ok(())
}

// A due send raises the level of water and not that of even.
#[test]
fn due_and_not_due(rt: HostRuntime) -> Result<(), Fail> {
    let mut record = ServiceRecord::new(Instant::new(0)?);
    record.count_send(true);
    assert_eq!(rt; Rule::Water.level_of(&record), 1_000_000);
    assert_eq!(rt; Rule::Even.level_of(&record), 0);
    record.count_send(false);
    assert_eq!(rt; Rule::Water.level_of(&record), 2_000_000);
    assert_eq!(rt; Rule::Even.level_of(&record), 1);
    Ok(())
}
