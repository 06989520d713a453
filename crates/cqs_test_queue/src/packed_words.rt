//! The numbers of packed words.

ghost use Rattle.cqs_words.specs.Cell.{CellFits};
ghost use Rattle.cqs_words.specs.State.{StateFits};
ghost use Rattle.cqs_words.specs.Head.{HeadFits};
ghost use Rattle.cqs_words.specs.Segment.{TailFits, LinkFits};

use cqs_words::{CellState, CellWord, HeadTag, HeadWord, LinkWord, StateWord, TailWord};

// Whether the word of this cell has this number, and the number tells this cell.
fn cell_is(index: u64, state: CellState, payload: u32, number: u64) -> bool
    requires { CellFits (record { index = index; state = state; payload = payload }) }
{
    let cell = CellWord {
        index,
        state,
        payload,
    };
    cell.pack() == number && CellWord::unpack(number) == Some(cell)
}

// Neither number tells a cell.
fn are_no_cells(first: u64, second: u64) -> bool {
    CellWord::unpack(first).is_none() && CellWord::unpack(second).is_none()
}

#[test]
fn cells(rt: HostRuntime) {
    assert!(rt; cell_is(5, CellState::Waiter, 3, 84_934_659));
    assert!(rt; cell_is(0, CellState::Empty, 0, 0));
    assert!(rt; cell_is(0, CellState::Waiter, 0, 1_048_576));
    assert!(rt; cell_is(0, CellState::Resumed, 0, 5_242_880));
    assert!(rt;
        cell_is(
            (1 << 40) - 1,
            CellState::Refused,
            (1 << 20) - 1,
            0xffff_ffff_ff9f_ffff,
        )
    );
    assert!(rt; CellWord::bare(5, CellState::Waiter).low_half() == 0x0510_0000);
}

#[test]
fn codes_of_no_cell(rt: HostRuntime) {
    for code in 10..16 {
        assert!(rt;
            are_no_cells(code << 20, 0xffff_ffff_ff00_0003 | code << 20),
            "code {code}"
        );
    }
}

// Whether the word of this count has this number, and the number tells this count.
fn count_is(value: i64, number: u64) -> bool
    requires { StateFits (record { value = value }) }
{
    let count = StateWord { value };
    count.pack() == number && StateWord::unpack(number) == Some(count)
}

#[test]
fn counts(rt: HostRuntime) {
    assert!(rt; count_is(-1, 4_294_967_295));
    assert!(rt; count_is(0, 4_294_967_296));
    assert!(rt; count_is(-4_294_967_295, 1));
    assert!(rt; count_is(4_294_967_295, 8_589_934_591));
    for number in [0, 8_589_934_592, u64::MAX] {
        assert!(rt; StateWord::unpack(number).is_none(), "at {number}");
    }
}

// Whether the word of this head has this number, and the number tells this head.
fn head_is(id: u64, tag: HeadTag, number: u64) -> bool
    requires { HeadFits (record { id = id; tag = tag }) }
{
    let head = HeadWord { id, tag };
    head.pack() == number && HeadWord::unpack(number) == Some(head)
}

#[test]
fn heads(rt: HostRuntime) {
    assert!(rt; head_is(7, HeadTag::Live, 30));
    assert!(rt; head_is(0, HeadTag::Free, 0));
    assert!(rt; head_is(0, HeadTag::Claimed, 1));
    assert!(rt; head_is((1 << 36) - 1, HeadTag::Live, 274_877_906_942));
    for number in [3, 31, 274_877_906_943, 274_877_906_944, u64::MAX] {
        assert!(rt; HeadWord::unpack(number).is_none(), "at {number}");
    }
}

// Whether the word of this tail has this number, and the number tells this tail.
fn tail_is(id: u64, slot: u32, number: u64) -> bool
    requires { TailFits (record { id = id; slot = slot }) }
{
    let tail = TailWord { id, slot };
    tail.pack() == number && TailWord::unpack(number) == Some(tail)
}

// The same of a link.
fn link_is(id: u64, slot: u32, number: u64) -> bool
    requires { LinkFits (record { id = id; slot = slot }) }
{
    let link = LinkWord { id, slot };
    link.pack() == number && LinkWord::unpack(number) == Some(link)
}

#[test]
fn segments(rt: HostRuntime) {
    assert!(rt; tail_is(2, 3, 131_075));
    assert!(rt; link_is(2, 3, 131_075));
    assert!(rt; tail_is(0, 0, 0));
    assert!(rt; link_is(0, 0, 0));
    assert!(rt; tail_is((1 << 36) - 1, 65_535, 4_503_599_627_370_495));
    assert!(rt; link_is((1 << 36) - 1, 65_535, 4_503_599_627_370_495));
    for number in [4_503_599_627_370_496, u64::MAX] {
        assert!(rt; TailWord::unpack(number).is_none(), "at {number}");
        assert!(rt; LinkWord::unpack(number).is_none(), "at {number}");
    }
}
