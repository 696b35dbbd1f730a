//! A lane that fills up, and one that is served.
use super::number::LaneNumber;
use super::store::{LANE_LENGTH, Lanes};
use super::update::Update;
use book::Part;
use std::test::Fail;

fn update(rule: u8) -> Update {
    Update {
        device: 0,
        rule,
        part: Part::Task,
        count: 1,
        values: [7, 0, 0, 0],
    }
}

#[test]
fn the_seventeenth_is_lost(rt: HostRuntime) {
    let mut lanes = Lanes::new();
    for _ in 0..LANE_LENGTH + 1 {
        lanes.arrive(LaneNumber { number: 3 }, update(0));
    }
    assert_eq!(rt; lanes.waiting(3), 16);
    assert_eq!(rt; lanes.lost(3), 1);
    assert_eq!(rt; lanes.waiting(4), 0);
}

#[test]
fn the_oldest_goes_first(rt: HostRuntime) -> Result<(), Fail> {
    let mut lanes = Lanes::new();
    let last = LaneNumber { number: 15 };
    lanes.arrive(last, update(1));
    lanes.arrive(last, update(2));
    lanes.remove(last);
    assert_eq!(rt; lanes.head(last).ok_or("none waits")?.rule, 2);
    Ok(())
}
