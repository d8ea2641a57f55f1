use account::row::Account;
use bucket::pair::BucketPair;
use std::test::Fail;
use values::instant::Instant;
use values::rates::Rates;

// An account with a limit: its first run goes at once, the next only when the limit bucket holds a run's cost again.
#[test]
fn limit_of_three(rt: HostRuntime) -> Result<(), Fail> {
    let start = Instant::new(0)?;
    let mut account = Account::new(Rates::new(0, Some(3), 1)?, start, 0);
    assert_eq!(rt; account.may_send(start), Some(true));
    assert!(rt; account.send(start, 1, false).is_ok());
    assert_eq!(rt; account.limit_units, Some(0));
    assert_eq!(rt; account.release(start), Some(333_334));
    assert_eq!(rt; account.may_send(Instant::new(333_333)?), Some(false));
    assert_eq!(rt; account.may_send(Instant::new(333_334)?), Some(true));
    assert_eq!(rt; account.mark.at, None);
    Ok(())
}

// The due marks of an empty reserve bucket, and of one that is due again at once.
#[test]
fn due_marks(rt: HostRuntime) -> Result<(), Fail> {
    let start = Instant::new(0)?;
    let mut account = Account::new(Rates::new(10, None, 2)?, start, 7);
    assert_eq!(rt; account.mark.at, Some(100_000));
    assert_eq!(rt; account.mark.number, 7);
    let later = Instant::new(1_000_000)?;
    assert!(rt; account.send(later, 8, true).is_ok());
    assert_eq!(rt; account.reserve_units, 1_000_000);
    assert_eq!(rt; account.mark.at, Some(1_000_000));
    assert!(rt; account.send(later, 9, true).is_ok());
    assert_eq!(rt; account.mark.at, Some(1_100_000));
    assert_eq!(rt;
        Account::new(Rates::new(1, None, 1)?, Instant::new(1_099_511_627_775)?, 0)
            .mark
            .at,
        Some(1_099_512_627_775)
    );
    Ok(())
}

// However late a full bucket is settled, it is no fuller.
#[test]
fn settling_an_hour_on(rt: HostRuntime) -> Result<(), Fail> {
    let mut account = Account::new(Rates::new(5, Some(100_000), 2)?, Instant::new(0)?, 0);
    assert!(rt; account.settle(Instant::new(3_600_000_000)?).is_ok());
    assert_eq!(rt; account.limit_units, Some(2_000_000));
    assert_eq!(rt; account.reserve_units, 2_000_000);
    Ok(())
}

// Numbers that are no pair of buckets make none, and a row of such numbers is left as it is.
#[test]
fn no_pair(rt: HostRuntime) -> Result<(), Fail> {
    let rates = Rates::new(5, Some(5), 1)?;
    assert!(rt; BucketPair::from_units(rates, 1_000_000, Some(1_000_000)).is_some());
    assert!(rt; BucketPair::from_units(rates, 2, Some(1)).is_none());
    assert!(rt; BucketPair::from_units(rates, 0, None).is_none());
    assert!(rt; BucketPair::from_units(rates, 0, Some(1_000_001)).is_none());
    let mut account = Account::new(rates, Instant::new(0)?, 0);
    account.reserve_units = 1_000_001;
    assert!(rt; account.send(Instant::new(5)?, 1, true).is_err());
    assert_eq!(rt; account.mark.number, 0);
    assert_eq!(rt; account.settled_at, 0);
    Ok(())
}
