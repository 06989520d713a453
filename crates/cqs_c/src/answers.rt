//! Answers as C gets them.

ghost use Rattle.std.specs.Prelude.{◌≡◌};
ghost use Rattle.cqs_c.specs.Answers.{no_object};
ghost use Rattle.cqs_c.specs.Told.{bare as told_bare, with_count as told_count, with_wait as told_wait, told};

use cqs_c_numbers::Answer;

/// An answer: which it is, by the names of `cqs.h`, and the number that it carries, or -1.
#[repr(C)]
#[derive(Clone, Copy, Drop)]
pub struct CqsAnswer {
    pub answer: u32,
    pub number: i64,
}

/// There is no primitive: the pointer was null.
pub(crate) fn nowhere() -> CqsAnswer
    ensures { result ≡ no_object }
{
    CqsAnswer {
        answer: 1,
        number: -1,
    }
}

// An answer that carries no number.
fn bare(answer: u32) -> CqsAnswer
    ensures { result ≡ told_bare answer }
{
    CqsAnswer { answer, number: -1 }
}

// One with a number that fits.
fn with_count(answer: u32, count: u32) -> CqsAnswer
    ensures { result ≡ told_count answer count }
{
    CqsAnswer {
        answer,
        number: i64::from(count),
    }
}

// One with the number of a wait.
fn with_wait(answer: u32, number: u64) -> CqsAnswer
    ensures { result ≡ told_wait answer number }
{
    CqsAnswer {
        answer,
        number: number.cast_signed(),
    }
}

/// The answer as C gets it.
pub(crate) fn tell(answer: Answer) -> CqsAnswer
    ensures { result ≡ told answer }
{
    match answer {
        Answer::NoPass => bare(2),
        Answer::InUse => bare(3),
        Answer::Owes => bare(4),
        Answer::OwesNothing => bare(5),
        Answer::NoPermit => bare(6),
        Answer::NoParty => bare(6),
        Answer::NoWait => bare(7),
        Answer::Full => bare(8),
        Answer::Worn => bare(9),
        Answer::Crowd => bare(10),
        Answer::Memory => bare(11),
        Answer::Busy => bare(12),
        Answer::NoCall => bare(14),
        Answer::NoElement => bare(15),
        Answer::Now(None) => bare(16),
        Answer::Now(Some(number)) => with_wait(16, number),
        Answer::Later(number) => with_wait(17, number),
        Answer::Got => bare(18),
        Answer::NoneFree => bare(19),
        Answer::Contended { saw: _, found } => CqsAnswer {
            answer: 20,
            number: found,
        },
        Answer::Granted => bare(21),
        Answer::Pending => bare(22),
        Answer::Cancelled => bare(23),
        Answer::CancelledOwing(number) => with_wait(24, number),
        Answer::TooLate => bare(25),
        Answer::Freed => bare(26),
        Answer::Sent(number) => with_wait(27, number),
        Answer::Left(number) => with_wait(28, number),
        Answer::Void(number) => with_wait(29, number),
        Answer::Under(number) => with_wait(30, number),
        Answer::State(state) => CqsAnswer {
            answer: 31,
            number: state,
        },
        Answer::Sole(false) => with_count(32, 0),
        Answer::Sole(true) => with_count(32, 1),
        Answer::Made(number) => with_count(33, number),
        Answer::Met => bare(34),
        Answer::Took(element) => with_count(35, element),
        Answer::LateTook(element) => with_count(25, element),
        Answer::Passed => bare(36),
        Answer::Through => bare(37),
        Answer::Counted(left) => with_count(38, left),
        Answer::Last => bare(39),
        Answer::LastOwing(number) => with_wait(40, number),
        Answer::Already => bare(41),
        Answer::Finished => bare(42),
        Answer::Crowded => bare(44),
        Answer::Broke(number) => with_wait(45, number),
        Answer::Handling(number) => with_wait(46, number),
    }
}
