//! The calls of a queue, each on its happy path, with the numbers that its words have then.
//!
//! With one pass no value is left in a cell, and so none is taken. A value is left where a resume
//! comes to a number before its suspend. But the conditions let a pass suspend only at the door and
//! resume only what it owes, and it comes to either from rest alone, where each number that was
//! drawn has its waiter. It comes to owe only where somebody waits to whom no permit was sent. So
//! its resume finds a waiter. The calls that leave a value and take one are made here where they
//! miss.

use crate::line::{CONFIG, alone, come, has, owe, send, wait};
use cqs_cancel::{Left, cancel};
use cqs_cell::{install, leave_value, look, serve, take_value, watch};
use cqs_find::{Found, find};
use cqs_rule::{
    CELLS_WORD, CancelMode, Cancels, Config, Draws, MakeError, Place, Polls, Queue, RESUMES_WORD,
    Reaches, SUSPENDS_WORD, Silent,
};
use cqs_semaphore_client::{
    SemClient, TrySwap, give_permit, load_state, next_wait, read_state, try_take,
};
use cqs_words::{CellState, CellWord};
use std::test::Fail;

#[test]
fn tries_on_the_state(rt: HostRuntime) -> Result<(), Fail> {
    let client = SemClient::new(1);
    let (queue, mut pass) = Queue::ample(rt.alloc(), CONFIG, CancelMode::Smart, client)?;
    let saw = load_state(&queue, &mut pass);
    assert!(rt; saw.word == 4_294_967_297);
    assert!(rt; try_take(&queue, &mut pass, saw).word == 4_294_967_297);
    assert!(rt; pass.held() == 1);
    assert!(rt; give_permit(&queue, &mut pass).word == 4_294_967_296);
    assert!(rt; (pass.number(), pass.held()) == (0, 0));
    assert!(rt; next_wait(&queue, &mut pass) == 0);
    Ok(())
}

#[test]
fn single_steps_on_the_state(rt: HostRuntime) -> Result<(), Fail> {
    let client = SemClient::new(1);
    let (queue, mut pass) = Queue::ample(rt.alloc(), CONFIG, CancelMode::Smart, client)?;
    assert!(rt; queue.or_word::<Silent>(&mut pass, 0, 0) == 4_294_967_297);
    let saw = load_state(&queue, &mut pass);
    assert!(rt; saw.word == 4_294_967_297);
    let found = queue.swap_word::<TrySwap>(&mut pass, 0, saw.word, saw.word - 1);
    assert!(rt; found == saw.word);
    assert!(rt; read_state(&queue, &mut pass).word == 4_294_967_296);
    Ok(())
}

#[test]
fn single_steps_of_a_suspend(rt: HostRuntime) -> Result<(), Fail> {
    let (queue, mut pass) = alone(rt.alloc())?;
    come(&rt, &queue, &mut pass);
    let number = queue.add_table::<Draws>(&mut pass, SUSPENDS_WORD, 1);
    assert!(rt; number == 0);
    let Ok(Found::At(at)) = find(&queue, &mut pass, number) else {
        panic!(rt; "each cell has its place");
    };
    assert!(rt; take_value(&queue, &mut pass, at) == Err(CellState::Empty));
    assert!(rt; install(&queue, &mut pass, at) == Ok(()));
    Ok(())
}

#[test]
fn a_wait_and_its_place(rt: HostRuntime) -> Result<(), Fail> {
    let (queue, mut pass) = alone(rt.alloc())?;
    let wait = wait(&rt, &queue, &mut pass);
    let at = queue.spend_wait(&mut pass, wait);
    let first = Place {
        word: CELLS_WORD,
        index: 0,
    };
    assert!(rt; at == first);
    let again = queue.wait_of(&mut pass, at);
    assert!(rt; again.number() == 0);
    Ok(())
}

#[test]
fn looks_at_a_wait(rt: HostRuntime) -> Result<(), Fail> {
    let (queue, mut pass) = alone(rt.alloc())?;
    let wait = wait(&rt, &queue, &mut pass);
    let at = queue.spend_wait(&mut pass, wait);
    let waiter = CellWord::bare(0, CellState::Waiter);
    assert!(rt; waiter.pack() == 1_048_576);
    assert!(rt; watch(&queue, &mut pass, at) == waiter);
    assert!(rt; look::<SemClient, Polls>(&queue, &mut pass, at) == waiter);
    Ok(())
}

#[test]
fn a_permit_goes_to_the_waiter(rt: HostRuntime) -> Result<(), Fail> {
    let (queue, mut pass) = alone(rt.alloc())?;
    let wait = wait(&rt, &queue, &mut pass);
    let wait = send(&rt, &queue, &mut pass, wait);
    let at = queue.spend_wait(&mut pass, wait);
    let cell = look::<SemClient, Polls>(&queue, &mut pass, at);
    assert!(rt; cell == CellWord::bare(0, CellState::Resumed));
    assert!(rt; has(&pass, 1, 0, false));
    Ok(())
}

#[test]
fn a_wait_is_cancelled(rt: HostRuntime) -> Result<(), Fail> {
    let (queue, mut pass) = alone(rt.alloc())?;
    let wait = wait(&rt, &queue, &mut pass);
    let Left::Gone = cancel(&queue, &mut pass, wait) else {
        panic!(rt; "nobody served the wait");
    };
    assert!(rt; has(&pass, 1, 0, false));
    assert!(rt; give_permit(&queue, &mut pass).word == 4_294_967_296);
    Ok(())
}

#[test]
fn a_cancellation_is_too_late(rt: HostRuntime) -> Result<(), Fail> {
    let (queue, mut pass) = alone(rt.alloc())?;
    let wait = wait(&rt, &queue, &mut pass);
    let wait = send(&rt, &queue, &mut pass, wait);
    let at = queue.spend_wait(&mut pass, wait);
    let cell = look::<SemClient, Cancels>(&queue, &mut pass, at);
    assert!(rt; cell == CellWord::bare(0, CellState::Resumed));
    assert!(rt; (pass.held(), pass.waits()) == (1, 0));
    Ok(())
}

#[test]
fn a_resumption_as_a_token(rt: HostRuntime) -> Result<(), Fail> {
    let (queue, mut pass) = alone(rt.alloc())?;
    owe(&rt, &queue, &mut pass);
    let under = queue.under_of(&mut pass, 0, None, 0);
    assert!(rt; under.reached() == 0);
    assert!(rt; queue.spend_under(&mut pass, under) == (0, None));
    Ok(())
}

#[test]
fn single_steps_of_a_resume(rt: HostRuntime) -> Result<(), Fail> {
    let (queue, mut pass) = alone(rt.alloc())?;
    owe(&rt, &queue, &mut pass);
    let number = queue.add_table::<Reaches>(&mut pass, RESUMES_WORD, 1);
    assert!(rt; number == 0);
    assert!(rt; (pass.owes(), pass.spares()) == (true, 0));
    let Ok(Found::At(at)) = find(&queue, &mut pass, number) else {
        panic!(rt; "each cell has its place");
    };
    let Err(found) = leave_value(&queue, &mut pass, at, 0) else {
        panic!(rt; "a waiter stands in the cell");
    };
    assert!(rt; found == CellState::Waiter);
    assert!(rt; serve(&queue, &mut pass, at, 0) == Ok(()));
    assert!(rt; (pass.owes(), pass.waits()) == (false, 1));
    Ok(())
}

#[test]
fn configurations_out_of_range(rt: HostRuntime) {
    let too_many_passes = Config {
        passes: 33,
        limit: 4,
        slots: 68,
    };
    let too_few_slots = Config {
        passes: 1,
        limit: 4,
        slots: 3,
    };
    for config in [too_many_passes, too_few_slots] {
        assert!(rt; !config.is_in_range());
        let made = Queue::new(rt.alloc(), config, CancelMode::Smart, SemClient::new(1));
        assert!(rt; made.err() == Some(MakeError::BadConfig));
    }
}
