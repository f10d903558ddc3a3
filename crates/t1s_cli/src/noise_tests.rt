use crate::noise_rows::{
    BEFORE_A_BEACON, BEFORE_A_BEACON_REPORT, BEFORE_THE_FAR_NODE, BEFORE_THE_FAR_NODE_REPORT,
    IN_A_FRAME, IN_A_FRAME_REPORT, OVER_A_START, OVER_A_START_REPORT, SHORTER_TIMER,
    SHORTER_TIMER_REPORT, TO_THE_END, TO_THE_END_REPORT, TWO_COORDINATORS, TWO_COORDINATORS_REPORT,
};
use crate::offer_tests::check_reports;
use std::test::Fail;

#[test]
fn a_frame_in_a_noise_is_torn_and_the_ticks_of_the_noise_are_counted(
    rt: HostRuntime,
) -> Result<(), Fail> {
    check_reports(
        &rt,
        rt.alloc(),
        &[
            (IN_A_FRAME, IN_A_FRAME_REPORT),
            (BEFORE_THE_FAR_NODE, BEFORE_THE_FAR_NODE_REPORT),
        ],
    )?;
    Ok(())
}

#[test]
fn a_noise_counts_once_a_tick_from_the_start_of_a_node_to_the_end(
    rt: HostRuntime,
) -> Result<(), Fail> {
    check_reports(
        &rt,
        rt.alloc(),
        &[
            (OVER_A_START, OVER_A_START_REPORT),
            (TO_THE_END, TO_THE_END_REPORT),
        ],
    )?;
    Ok(())
}

#[test]
fn noise_timers_and_ids_move_what_is_sent(rt: HostRuntime) -> Result<(), Fail> {
    check_reports(
        &rt,
        rt.alloc(),
        &[
            (BEFORE_A_BEACON, BEFORE_A_BEACON_REPORT),
            (TWO_COORDINATORS, TWO_COORDINATORS_REPORT),
            (SHORTER_TIMER, SHORTER_TIMER_REPORT),
        ],
    )?;
    Ok(())
}
