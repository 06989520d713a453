//! Letters of two posts through a queue with room for two.

ghost use Rattle.std.specs.Prelude.{◌≡◌, ◌+◌, length};
ghost use Rattle.crossbeam_queue.specs.Passes.{view, IsPassOf};
ghost use Rattle.cqs_mailbox.specs.Mail.{IsDesk, IsPost, sent_in};

use cqs_mailbox::Letter;
use cqs_mailbox::letters::{Letters, LettersPass, hire, join, open, put, take};
use std::process::Abort;
use std::sync::Wait;
use std::test::Fail;

// The post sends its next letter, for which there is room.
fn send(rt: &(impl Abort + Wait), letters: &Letters, post: &mut LettersPass, letter: Letter)
    requires queue { IsPassOf letters.now post.old }
    requires post { IsPost letter.sender (view post.old) }
    requires next { letter.number ≡ length (sent_in (view post.old)) }
    ensures queue { IsPassOf letters.now post.new }
    ensures post { IsPost letter.sender (view post.new) }
    ensures count { length (sent_in (view post.new)) ≡ letter.number + 1 }
{
    let Ok(()) = put(rt, letters, post, letter) else {
        panic!(rt; "there is room for the letter");
    };
}

// There is no room for the next letter of the post, which has it back.
fn send_in_vain(rt: &(impl Abort + Wait), letters: &Letters, post: &mut LettersPass, letter: Letter)
    requires queue { IsPassOf letters.now post.old }
    requires post { IsPost letter.sender (view post.old) }
    requires next { letter.number ≡ length (sent_in (view post.old)) }
    ensures queue { IsPassOf letters.now post.new }
    ensures same { view post.new ≡ view post.old }
{
    let Err(back) = put(rt, letters, post, letter) else {
        panic!(rt; "the queue is full");
    };
    assert!(rt; back == letter);
}

// The desk receives this letter.
fn receive(rt: &(impl Abort + Wait), letters: &Letters, desk: &mut LettersPass, letter: Letter)
    requires queue { IsPassOf letters.now desk.old }
    requires desk { IsDesk (view desk.old) }
    ensures queue { IsPassOf letters.now desk.new }
    ensures desk { IsDesk (view desk.new) }
{
    let Some(received) = take(rt, letters, desk) else {
        panic!(rt; "a letter is there");
    };
    assert!(rt; received == letter);
}

fn letter(sender: u32, number: u64, word: u64) -> Letter
    ensures sender { result.sender ≡ sender }
    ensures number { result.number ≡ number }
{
    Letter {
        sender,
        number,
        word,
    }
}

#[test]
fn letters_of_two_posts(rt: HostRuntime) -> Result<(), Fail> {
    let (letters, mut desk) = open(rt.alloc(), 2)?;
    let mut zero = hire(&letters, &mut desk);
    let mut one = hire(&letters, &mut desk);
    send(&rt, &letters, &mut one, letter(1, 0, 7));
    send(&rt, &letters, &mut zero, letter(0, 0, 8));
    send_in_vain(&rt, &letters, &mut zero, letter(0, 1, 9));
    receive(&rt, &letters, &mut desk, letter(1, 0, 7));
    send(&rt, &letters, &mut zero, letter(0, 1, 9));
    receive(&rt, &letters, &mut desk, letter(0, 0, 8));
    join(&letters, &mut desk, one, 1);
    join(&letters, &mut desk, zero, 0);
    receive(&rt, &letters, &mut desk, letter(0, 1, 9));
    if take(&rt, &letters, &mut desk).is_some() {
        panic!(rt; "all is received");
    }
    Ok(())
}
