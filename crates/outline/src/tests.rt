use super::call::Call;
use super::outline::Outline;
use super::point::Point;
use super::refusal::Refusal;

// The number of the refusal, or 0.
fn refused(r: Result<(), Refusal>) -> u8 {
    r.map_or_else(|refusal| refusal.number(), |()| 0)
}

fn opened(width: u16, height: u16, col: u16, row: u16) -> Outline {
    let mut o = Outline::new();
    let _ = o.open(width, height, col, row);
    o
}

fn at(col: u16, row: u16) -> Option<Point> {
    Some(Point { col, row })
}

#[test]
fn new_outline_is_one_point(rt: HostRuntime) {
    let mut o = Outline::new();
    assert!(rt; o.width() == 1 && o.height() == 1 && o.len() == 1);
    assert!(rt; o.point(0) == at(0, 0) && o.point(1) != at(0, 0));
    assert!(rt; refused(o.retract()) == 22);
    assert!(rt; refused(o.extend(0)) == 20);
}

#[test]
fn open_refuses_at_the_borders(rt: HostRuntime) {
    let mut o = Outline::new();
    assert!(rt; refused(o.open(0, 1, 0, 0)) == 1);
    assert!(rt; refused(o.open(1025, 1, 0, 0)) == 1);
    assert!(rt; refused(o.open(1, 0, 0, 0)) == 1);
    assert!(rt; refused(o.open(1, 65535, 0, 0)) == 1);
    assert!(rt; refused(o.open(0, 1, 5, 5)) == 1);
    assert!(rt; refused(o.open(7, 9, 7, 8)) == 2);
    assert!(rt; refused(o.open(7, 9, 6, 9)) == 2);
    assert!(rt; o.width() == 1);
    assert!(rt; o.open(1024, 1024, 1023, 1023).is_ok());
    assert!(rt; o.open(7, 9, 6, 8).is_ok());
    assert!(rt; o.width() == 7 && o.height() == 9 && o.point(0) == at(6, 8));
}

#[test]
fn a_step_off_each_side_is_refused(rt: HostRuntime) {
    let mut o = opened(3, 3, 2, 1);
    assert!(rt;
        refused(o.extend(0)) == 20 && refused(o.extend(8)) == 3 && refused(o.extend(255)) == 3
    );
    o = opened(3, 3, 1, 0);
    assert!(rt; refused(o.extend(2)) == 20);
    o = opened(3, 3, 0, 1);
    assert!(rt; refused(o.extend(4)) == 20);
    o = opened(3, 3, 1, 2);
    assert!(rt; refused(o.extend(6)) == 20);
    o = opened(3, 3, 1, 1);
    assert!(rt; o.extend(7).is_ok() && o.point(1) == at(2, 2));
    assert!(rt; refused(o.extend(7)) == 20 && o.len() == 2);
    assert!(rt; o.retract().is_ok() && o.len() == 1);
}

#[test]
fn there_is_room_for_256_points(rt: HostRuntime) {
    let mut o = opened(1024, 1024, 0, 0);
    for _ in 0..255 {
        assert!(rt; o.extend(0).is_ok());
    }
    assert!(rt; o.len() == 256 && o.point(255) == at(255, 0));
    assert!(rt; refused(o.extend(0)) == 21);
    // In a full outline 21 comes before 20, and 3 before both.
    assert!(rt; refused(o.extend(2)) == 21 && refused(o.extend(9)) == 3);
    assert!(rt; o.len() == 256);
}

#[test]
fn a_run_answers_each_call(rt: HostRuntime) {
    let calls = [
        Call::Extend { direction: 0 },
        Call::Open {
            width: 4,
            height: 4,
            col: 1,
            row: 1,
        },
        Call::Extend { direction: 6 },
        Call::Retract,
        Call::Retract,
    ];
    let mut answers = [Ok(()); 5];
    let o = Outline::from_calls(&calls, &mut answers);
    assert!(rt; refused(answers[0]) == 20 && answers[1].is_ok() && answers[2].is_ok());
    assert!(rt; answers[3].is_ok() && refused(answers[4]) == 22);
    assert!(rt; o.len() == 1 && o.width() == 4 && o.point(0) == at(1, 1));
}
