//! The queue of letters under its rule.

ghost use Rattle.std.specs.Prelude.{◌≡◌, [], ◌+◌, ◌<◌, length, IfOk, MatchOption, MatchResult, OnOk};
ghost use Rattle.crossbeam_queue.specs.Passes.{view, IsPassOf, ruled_capacity};
ghost use Rattle.cqs_mailbox.specs.declared.known.Known.TheVariants as known;
ghost use Rattle.cqs_mailbox.specs.Mail.{IsPost, IsDesk, IsInOrder, HasReceived, WasEmpty, WasFound, having_sent, having_met, hiring, hired, made_in, sent_in};

use crate::known::Known;
use crate::letter::Letter;
use crossbeam_queue::protocol::{Join, Lesson, Outcome, Protocol, Split};
use crossbeam_queue::{Pass, RuledArrayQueue};
use std::alloc::{AllocError, Global};
use std::sync::Wait;

/// The rule of the letters.
pub struct Mail;

impl Protocol<Letter, Known> for Mail {
    ghost use Rattle.std.specs.Prelude.{[]};
    ghost use Rattle.cqs_mailbox.specs.declared.known.Known.TheVariants as known;
    ghost use Rattle.cqs_mailbox.specs.Mail.{IsMail};

    ghost holds = { IsMail };

    ghost first = { known.Desk 0 [] [] };
}

/// A post is made by the desk.
pub struct Hires;

impl Split<Known> for Hires {
    ghost use Rattle.cqs_mailbox.specs.Mail.{hiring, hired};

    ghost left = { hiring };

    ghost right = { hired };
}

/// A post meets the desk.
pub struct Meets;

impl Join<Known> for Meets {
    ghost use Rattle.cqs_mailbox.specs.Mail.{having_met};
    ghost use Rattle.cqs_mailbox.specs.declared.known.Known.TheVariants as known;

    ghost both = { having_met };

    ghost spent = { known.Gone };
}

/// A post sends one letter more, or learns that the queue is full.
pub struct Sends;

impl Outcome<Letter, Known> for Sends {
    ghost use Rattle.std.specs.Prelude.{◌≡◌};
    ghost use Rattle.cqs_mailbox.specs.Mail.{having_sent};

    ghost then = { λ v x w. w ≡ having_sent v x };
}

impl Lesson<Letter, Known> for Sends {
    ghost use Rattle.std.specs.Prelude.{length};
    ghost use Rattle.cqs_mailbox.specs.Mail.{WasFound};

    ghost fact = { λ v items. WasFound (length items) v };
}

/// The desk receives one letter more, or learns that none is there.
pub struct Receives;

impl Outcome<Letter, Known> for Receives {
    ghost use Rattle.cqs_mailbox.specs.Mail.{HasReceived};

    ghost then = { HasReceived };
}

impl Lesson<Letter, Known> for Receives {
    ghost use Rattle.std.specs.Prelude.{length};
    ghost use Rattle.cqs_mailbox.specs.Mail.{MetSentAll, WasFound};

    ghost fact = { λ v items. WasFound (length items) v × MetSentAll v items };
}

/// The desk learns how what it received goes with what the posts sent that it met.
pub struct Compares;

impl Lesson<Letter, Known> for Compares {
    ghost use Rattle.cqs_mailbox.specs.Mail.{IsInOrder, WereMade};

    ghost fact = { λ v items. IsInOrder v × WereMade v };
}

/// The queue of letters.
pub type Letters = RuledArrayQueue<Letter, Known, Mail>;

/// What the desk and each post make their calls on it with.
pub type LettersPass = Pass<Letter, Known>;

/// A queue with room for so many letters, and the pass of the desk, which has made no post yet.
pub fn open(alloc: Global, room: usize) -> Result<(Letters, LettersPass), AllocError>
    requires { 0 < room }
    ensures room { IfOk result (λ made. ruled_capacity made.0 ≡ room) }
    ensures belongs { IfOk result (λ made. IsPassOf made.0 made.1) }
    ensures knows { IfOk result (λ made. view made.1 ≡ known.Desk 0 [] []) }
{
    Letters::ruled(alloc, room)
}

/// The desk makes one post more.
pub fn hire(letters: &Letters, desk: &mut LettersPass) -> LettersPass
    requires queue { IsPassOf letters.now desk.old }
    requires desk { IsDesk (view desk.old) }
    ensures queue { IsPassOf letters.now desk.new }
    ensures new_queue { IsPassOf letters.now result }
    ensures desk { view desk.new ≡ hiring (view desk.old) }
    ensures post { view result ≡ hired (view desk.old) }
    ensures is_desk { IsDesk (view desk.new) }
    ensures is_post { IsPost (made_in (view desk.old)) (view result) }
    ensures made { made_in (view desk.new) ≡ made_in (view desk.old) + 1 }
{
    letters.another::<Hires>(desk)
}

/// Puts a letter at the back, unless the queue was full at a step of the call.
pub fn put<R: Wait>(
    rt: &R,
    letters: &Letters,
    pass: &mut LettersPass,
    letter: Letter,
) -> Result<(), Letter>
    requires queue { IsPassOf letters.now pass.old }
    requires post { IsPost letter.sender (view pass.old) }
    requires next { letter.number ≡ length (sent_in (view pass.old)) }
    ensures queue { IsPassOf letters.now pass.new }
    ensures put { MatchResult result
        (λ _. view pass.new ≡ having_sent (view pass.old) letter)
        (λ back. (back ≡ letter) × (view pass.new ≡ view pass.old)
        × WasFound (ruled_capacity letters.now) (view pass.old)) }
    ensures is_post { IsPost letter.sender (view pass.new) }
    ensures count { OnOk result
        (length (sent_in (view pass.new)) ≡ length (sent_in (view pass.old)) + 1) }
{
    letters.push_as::<Sends, R>(rt, pass, letter)
}

/// Takes the oldest letter, unless the queue was empty at a step of the call.
pub fn take<R: Wait>(rt: &R, letters: &Letters, pass: &mut LettersPass) -> Option<Letter>
    requires queue { IsPassOf letters.now pass.old }
    requires desk { IsDesk (view pass.old) }
    ensures queue { IsPassOf letters.now pass.new }
    ensures took { MatchOption result
        ((view pass.new ≡ view pass.old) × WasEmpty (view pass.old))
        (λ letter. HasReceived (view pass.old) letter (view pass.new)) }
    ensures is_desk { IsDesk (view pass.new) }
{
    letters.pop_as::<Receives, R>(rt, pass)
}

/// A post meets the desk.
pub fn join(letters: &Letters, desk: &mut LettersPass, post: LettersPass, sender: u32)
    requires queue { IsPassOf letters.now desk.old }
    requires post_queue { IsPassOf letters.now post }
    requires desk { IsDesk (view desk.old) }
    requires post { IsPost sender (view post) }
    ensures queue { IsPassOf letters.now desk.new }
    ensures met { view desk.new ≡ having_met (view desk.old) (view post) }
    ensures in_order { IsInOrder (view desk.new) }
    ensures is_desk { IsDesk (view desk.new) }
    ensures low { sender < made_in (view desk.old) }
{
    letters.absorb::<Meets>(desk, post);
    letters.learn_as::<Compares>(desk);
}
