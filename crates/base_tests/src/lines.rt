use line::Line;
use order::keys::DueMark;
use order::least::{least, least_candidate};

#[test]
fn lines(rt: HostRuntime) {
    let mut table = [0u8; 4];
    let mut line = Line::new(&mut table, 0);
    assert!(rt; line.append(10).is_ok());
    assert!(rt; line.append(11).is_ok());
    assert!(rt; line.append(12).is_ok());
    assert!(rt; line.append(13).is_ok());
    assert!(rt; line.is_full());
    assert!(rt; line.append(14).is_err());
    assert_eq!(rt; line.remove(1), Some(11));
    assert_eq!(rt; line.remove(3), None);
    line.close_up(&[true, false]);
    assert_eq!(rt; line.len(), 2);
    assert_eq!(rt; line.remove(0), Some(12));
    assert_eq!(rt; line.remove(0), Some(13));
    assert_eq!(rt; line.remove(0), None);
}

#[test]
fn a_line_is_cut_at_its_table(rt: HostRuntime) {
    let mut table = [7u8, 8, 9];
    let mut line = Line::new(&mut table, 5);
    assert_eq!(rt; line.len(), 3);
    assert_eq!(rt; line.remove(2), Some(9));
    assert!(rt; line.append(6).is_ok());
    assert_eq!(rt; line.remove(2), Some(6));
}

fn mark(at: Option<u64>, number: u64) -> Option<DueMark> {
    Some(DueMark { at, number })
}

#[test]
fn the_least(rt: HostRuntime) {
    assert_eq!(rt; least::<u64>(&[]), None);
    assert_eq!(rt; least(&[5u64, 3, 4, 3]), Some(1));
    assert_eq!(rt; least_candidate::<DueMark>(&[None, None]), None);
    assert_eq!(rt;
        least_candidate(&[None, mark(Some(40), 9), mark(Some(40), 7), mark(None, 0)]),
        Some(2)
    );
    assert_eq!(rt;
        least_candidate(&[
            mark(None, 5),
            mark(None, 3),
            mark(Some(1_099_512_627_775), 9),
        ]),
        Some(2)
    );
}
