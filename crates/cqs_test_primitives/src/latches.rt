//! One latch, call by call.

ghost use Rattle.std.specs.Prelude.{IsTrue};
ghost use Rattle.cqs_rule_laws.specs.CallRule.{IsReady};
ghost use Rattle.cqs_latch.specs.Calls.{IsMine};
ghost use Rattle.cqs_rule.specs.Passes.{pass_view};

use cqs_latch::{Down, Latch, LatchLeft, LatchPass, LatchPolled, LatchWait};
use cqs_rule::{CancelMode, Config, MakeError, MeetError};
use std::test::Fail;

const CONFIG: Config = Config {
    passes: 2,
    limit: 8,
    slots: 8,
};

/// The most that a latch may be made to be counted down.
const MOST_COUNTS: u32 = 1_048_576;

#[test]
fn the_second_count_opens_for_who_waits(rt: HostRuntime) -> Result<(), Fail> {
    let (latch, mut pass) = Latch::new(rt.alloc(), 2, CancelMode::Smart, CONFIG)?;
    let Ok(mut second) = latch.split(&mut pass) else {
        panic!(rt; "two passes may be made");
    };
    let Ok(LatchWait::Later(wait)) = latch.wait(&mut pass) else {
        panic!(rt; "nothing was counted down");
    };
    assert_eq!(rt; wait.number(), 0);
    let Ok(Down::Left(1)) = latch.count_down(&mut second) else {
        panic!(rt; "one is left of two");
    };
    let LatchPolled::Pending(wait) = latch.poll(&mut pass, wait) else {
        panic!(rt; "one is left");
    };
    let Ok(Down::Last) = latch.count_down(&mut second) else {
        panic!(rt; "none is left");
    };
    let LatchPolled::Through = latch.poll(&mut pass, wait) else {
        panic!(rt; "the last one resumed who waits");
    };
    let Ok(Down::Already) = latch.count_down(&mut second) else {
        panic!(rt; "the count was used up");
    };
    let Ok(LatchWait::Passed) = latch.wait(&mut second) else {
        panic!(rt; "the latch is open");
    };
    Ok(())
}

#[test]
fn one_of_two_waits_leaves_a_smart_latch(rt: HostRuntime) -> Result<(), Fail> {
    let (latch, mut pass) = Latch::new(rt.alloc(), 2, CancelMode::Smart, CONFIG)?;
    let Ok(LatchWait::Later(first)) = latch.wait(&mut pass) else {
        panic!(rt; "nothing was counted down");
    };
    let Ok(mut second) = latch.split(&mut pass) else {
        panic!(rt; "two passes may be made");
    };
    let Ok(LatchWait::Later(wait)) = latch.wait(&mut second) else {
        panic!(rt; "nothing was counted down");
    };
    assert_eq!(rt; wait.number(), 1);
    let LatchLeft::Gone = latch.cancel(&mut pass, first) else {
        panic!(rt; "the latch is not open");
    };
    let Ok(Down::Left(1)) = latch.count_down(&mut pass) else {
        panic!(rt; "one is left of two");
    };
    let Ok(Down::Last) = latch.count_down(&mut pass) else {
        panic!(rt; "none is left");
    };
    let LatchPolled::Through = latch.poll(&mut second, wait) else {
        panic!(rt; "the last one resumed who waits");
    };
    let Ok(LatchWait::Passed) = latch.wait(&mut pass) else {
        panic!(rt; "the latch is open");
    };
    let Ok(Down::Already) = latch.count_down(&mut pass) else {
        panic!(rt; "the count was used up");
    };
    Ok(())
}

#[test]
fn one_of_two_waits_leaves_a_simple_latch(rt: HostRuntime) -> Result<(), Fail> {
    let (latch, mut pass) = Latch::new(rt.alloc(), 2, CancelMode::Simple, CONFIG)?;
    let Ok(LatchWait::Later(first)) = latch.wait(&mut pass) else {
        panic!(rt; "nothing was counted down");
    };
    let Ok(mut second) = latch.split(&mut pass) else {
        panic!(rt; "two passes may be made");
    };
    let Ok(LatchWait::Later(wait)) = latch.wait(&mut second) else {
        panic!(rt; "nothing was counted down");
    };
    assert_eq!(rt; wait.number(), 1);
    let LatchLeft::Gone = latch.cancel(&mut pass, first) else {
        panic!(rt; "the latch is not open");
    };
    let Ok(Down::Left(1)) = latch.count_down(&mut pass) else {
        panic!(rt; "one is left of two");
    };
    let Ok(Down::Last) = latch.count_down(&mut pass) else {
        panic!(rt; "none is left");
    };
    let LatchPolled::Through = latch.poll(&mut second, wait) else {
        panic!(rt; "the opener met the hole, and then resumed who waits");
    };
    let Ok(LatchWait::Passed) = latch.wait(&mut pass) else {
        panic!(rt; "the latch is open");
    };
    let Ok(Down::Already) = latch.count_down(&mut pass) else {
        panic!(rt; "the count was used up");
    };
    Ok(())
}

#[test]
fn a_latch_of_none_is_open(rt: HostRuntime) -> Result<(), Fail> {
    for mode in [CancelMode::Smart, CancelMode::Simple] {
        let (latch, mut pass) = Latch::new(rt.alloc(), 0, mode, CONFIG)?;
        let Ok(LatchWait::Passed) = latch.wait(&mut pass) else {
            panic!(rt; "there is nothing to count down");
        };
        let Ok(Down::Already) = latch.count_down(&mut pass) else {
            panic!(rt; "there is nothing to count down");
        };
    }
    Ok(())
}

#[test]
fn who_waits_while_one_pass_opens_a_latch_is_too_late_to_leave(
    rt: HostRuntime,
) -> Result<(), Fail> {
    for mode in [CancelMode::Smart, CancelMode::Simple] {
        let (latch, mut pass) = Latch::new(rt.alloc(), 1, mode, CONFIG)?;
        let Ok(LatchWait::Later(wait)) = latch.wait(&mut pass) else {
            panic!(rt; "nothing was counted down");
        };
        assert_eq!(rt; wait.number(), 0);
        let Ok(Down::Last) = latch.count_down(&mut pass) else {
            panic!(rt; "it was the only one");
        };
        let LatchLeft::TooLate = latch.cancel(&mut pass, wait) else {
            panic!(rt; "the latch was opened before");
        };
    }
    Ok(())
}

#[test]
fn latches_in_and_out_of_range(rt: HostRuntime) -> Result<(), Fail> {
    let (latch, mut pass) = Latch::new(rt.alloc(), MOST_COUNTS, CancelMode::Smart, CONFIG)?;
    let Ok(Down::Left(1_048_575)) = latch.count_down(&mut pass) else {
        panic!(rt; "one was taken from the count");
    };
    let made = Latch::new(rt.alloc(), MOST_COUNTS + 1, CancelMode::Smart, CONFIG);
    assert_eq!(rt; made.err(), Some(MakeError::BadConfig));
    Ok(())
}

/// Waits and leaves again so often, and says whether it did each time.
fn comes_and_goes(latch: &Latch, pass: &mut LatchPass, times: u32) -> bool
    requires belongs { IsMine latch.now pass.old }
    requires ready { IsReady (pass_view pass.old).facts }
    ensures belongs { IsMine latch.now pass.new }
    ensures ready { IsTrue result → IsReady (pass_view pass.new).facts }
{
    for _ in 0..times {
        let Ok(LatchWait::Later(wait)) = latch.wait(pass) else {
            return false;
        };
        let LatchLeft::Gone = latch.cancel(pass, wait) else {
            return false;
        };
    }
    true
}

#[test]
fn an_opening_passes_over_150_who_left(rt: HostRuntime) -> Result<(), Fail> {
    let config = Config {
        passes: 1,
        limit: 256,
        slots: 4,
    };
    let (latch, mut pass) = Latch::new(rt.alloc(), 1, CancelMode::Smart, config)?;
    assert!(rt; comes_and_goes(&latch, &mut pass, 150));
    let Ok(LatchWait::Later(wait)) = latch.wait(&mut pass) else {
        panic!(rt; "nothing was counted down");
    };
    assert_eq!(rt; wait.number(), 150);
    let Ok(Down::Last) = latch.count_down(&mut pass) else {
        panic!(rt; "number 150 waits");
    };
    let LatchPolled::Through = latch.poll(&mut pass, wait) else {
        panic!(rt; "the opening resumed who waits");
    };
    Ok(())
}

#[test]
fn a_pass_that_waits_is_not_taken_in(rt: HostRuntime) -> Result<(), Fail> {
    let (latch, mut pass) = Latch::new(rt.alloc(), 1, CancelMode::Simple, CONFIG)?;
    let Ok(mut second) = latch.split(&mut pass) else {
        panic!(rt; "two passes may be made");
    };
    let Ok(LatchWait::Later(wait)) = latch.wait(&mut second) else {
        panic!(rt; "nothing was counted down");
    };
    let Err((given, MeetError::Busy)) = latch.meet(&mut pass, second) else {
        panic!(rt; "the given pass waits");
    };
    let mut second = given;
    assert!(rt; !latch.sole(&mut pass));
    let LatchLeft::Gone = latch.cancel(&mut second, wait) else {
        panic!(rt; "the latch is not open");
    };
    let Ok(()) = latch.meet(&mut pass, second) else {
        panic!(rt; "the given pass waits no more");
    };
    assert!(rt; latch.sole(&mut pass));
    let Ok(Down::Last) = latch.count_down(&mut pass) else {
        panic!(rt; "the opener met the hole");
    };
    Ok(())
}
