// Both sides of the edges of settings and of the total.
use super::steps::Step::{Add, Bounds, Repeat};
use super::steps::{LARGEST_TOTAL, run, vacant};
use refusal::Refusal;
use settings::Settings;
use std::test::Fail;

// The number of the refusal, by which an operator reads it; none where the settings are accepted.
fn refused_settings(width: u32, share: u32) -> Option<u8> {
    Settings::new(width, share).err().map(Refusal::number)
}

// Ten parts of 100 thousandths each are all of the total, so the share would be no larger than the error.
#[test]
fn a_share_no_larger_than_the_error_is_refused(rt: HostRuntime) {
    assert_eq!(rt; refused_settings(10, 100), Some(3));
    assert_eq!(rt; refused_settings(10, 101), None);
    assert_eq!(rt; refused_settings(1, 1000), Some(1));
}

// 65,536 times the heaviest weight and 65,535 make the largest total. The table is full too: the key is looked at before
// the total, and the total before the slots.
#[test]
fn the_largest_total_is_reached_and_never_passed(rt: HostRuntime) -> Result<(), Fail> {
    run(
        &rt,
        &mut [vacant(); 4],
        &[
            Repeat(([10, 1, 1, 1], 32), u32::MAX, 65_536),
            Add(([10, 1, 1, 1], 32), 65_535, Ok(LARGEST_TOTAL)),
            Add(([10, 1, 1, 1], 32), 1, Err(5)),
            Add(([11, 0, 0, 1], 32), 1, Err(5)),
            Add(([10, 1, 1, 1], 24), 1, Err(4)),
            Add(([10, 1, 1, 1], 32), 0, Ok(LARGEST_TOTAL)),
            Bounds(([0, 0, 0, 0], 0), LARGEST_TOTAL, LARGEST_TOTAL),
            Bounds(([11, 0, 0, 1], 32), 0, 0),
        ],
        &[
            ([10, 0, 0, 0], 8, 0, 0, 0),
            ([10, 1, 0, 0], 16, 0, 0, 0),
            ([10, 1, 1, 0], 24, 0, 0, 0),
            ([10, 1, 1, 1], 32, LARGEST_TOTAL, 0, 0),
        ],
    )
}
