use super::*;

// One timed wait, with no other number.
fn wait(time: u64) -> Measure {
    Measure {
        timed: true,
        wait: time,
        lock: 0,
        errors: 0,
        warnings: 0,
        affected: 0,
        sent: 0,
        examined: 0,
    }
}

#[test]
fn two_great_waits_wrap_the_sum(rt: HostRuntime) {
    let half = of_event(&wait(9_223_372_036_854_775_808));
    let both = half.merge(half);
    assert_eq!(rt; both.count, 2);
    assert_eq!(rt; both.sum, 0);
    assert_eq!(rt; both.avg(), 0);
    assert_eq!(rt; both.min, 9_223_372_036_854_775_808);
    assert_eq!(rt; both.max, 9_223_372_036_854_775_808);
}

#[test]
fn untimed_events_leave_the_times(rt: HostRuntime) {
    let mut untimed = wait(5);
    untimed.timed = false;
    let timed = of_event(&wait(10));
    let both = zero().merge(timed).merge(of_event(&untimed));
    both.tell();
    assert_eq!(rt; both.count, 2);
    assert_eq!(rt; both.sum, 10);
    assert_eq!(rt; both.min, 10);
    assert_eq!(rt; both.max, 10);
    assert_eq!(rt; both.avg(), 5);
    assert!(rt; both.is_timed());
    assert!(rt; !zero().merge(of_event(&untimed)).is_timed());
}

#[test]
fn a_slot_gives_its_numbers_back(rt: HostRuntime) {
    let stat = of_event(&wait(120));
    let words = stat.to_words();
    assert_eq!(rt;
        words,
        [1, 120, 120, 120, 0, 0, 0, 0, 0, 0, 0, 0, 0, 0, 0, 0]
    );
    assert_eq!(rt; Stat::of_words(&words), stat);
}
