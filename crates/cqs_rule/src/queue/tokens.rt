//! The tokens of a wait and of a resumption, and the readers of a pass.

ghost use Rattle.std.specs.Prelude.{◌≡◌, length, slice_get};
ghost use Rattle.cqs_rule_laws.specs.Lists.{Has};
ghost use Rattle.cqs_rule.specs.Owed.{OwesWith, HasUnder, under_payload, under_ticket, under_reached};
ghost use Rattle.cqs_rule.specs.Passes.{pass_view, IsOf};
ghost use Rattle.cqs_rule_laws.specs.Placed.{KnowsPlace};
ghost use Rattle.cqs_rule_laws.specs.Spares.{slots_of};
ghost use Rattle.cqs_rule_laws.specs.Facts.{owes_any};
ghost use Rattle.cqs_rule.specs.Waits.{place_of, pass_of, HasWait};

use crate::queue::{Pass, Queue};
use cqs_rule_laws::{ClientWords, Place};

/// A wait in the line, for as long as its pass hasn't had its answer. It is neither copied nor
/// cloned.
#[derive(Drop)]
pub struct Wait {
    pub(super) number: u64,
    pass: u32,
    pub(super) word: u32,
}

impl Wait {
    /// The number of the wait.
    pub fn number(&self) -> u64
        ensures { result ≡ (place_of self.now).index }
    {
        self.number
    }
}

/// A resumption that its pass still owes. It is neither copied nor cloned.
#[derive(Drop)]
pub struct Under {
    payload: u32,
    ticket: Option<u64>,
    reached: u64,
}

impl Under {
    /// The last number that was drawn for the resumption, or 0 where none was. A loop that goes on
    /// with a resumption until it ends can be measured by it.
    pub fn reached(&self) -> u64
        ensures { result ≡ under_reached self.now }
    {
        self.reached
    }
}

impl<C: ClientWords> Queue<C> {
    /// The token of a wait that the pass has. It makes no step.
    pub fn wait_of(&self, pass: &mut Pass<C>, at: Place) -> Wait
        requires belongs { IsOf self.now pass.old }
        requires wait { Has at.index (pass_view pass.old).facts.waits }
        requires place { KnowsPlace (pass_view pass.old) at }
        ensures place { place_of result ≡ at }
        ensures pass { pass_of result ≡ (pass_view pass.old).number }
        ensures has { HasWait (pass_view pass.new) result }
        ensures same { pass.new ≡ pass.old }
    {
        Wait {
            number: at.index,
            pass: pass.number,
            word: at.word,
        }
    }

    /// Takes the token back, and says where its cell stands. It makes no step.
    pub fn spend_wait(&self, pass: &mut Pass<C>, wait: Wait) -> Place
        requires belongs { IsOf self.now pass.old }
        requires has { HasWait (pass_view pass.old) wait }
        ensures place { result ≡ place_of wait }
        ensures same { pass.new ≡ pass.old }
    {
        Place {
            word: wait.word,
            index: wait.number,
        }
    }
}

impl<C: ClientWords> Queue<C> {
    /// The token of a resumption that the pass owes: its payload, its ticket where one is open, and
    /// the last number that was drawn for it. It makes no step.
    pub fn under_of(
        &self,
        pass: &mut Pass<C>,
        payload: u32,
        ticket: Option<u64>,
        reached: u64,
    ) -> Under
        requires belongs { IsOf self.now pass.old }
        requires owes { OwesWith (pass_view pass.old).facts payload ticket }
        requires reached { reached ≡ (pass_view pass.old).facts.reached }
        ensures payload { under_payload result ≡ payload }
        ensures ticket { under_ticket result ≡ ticket }
        ensures reached { under_reached result ≡ reached }
        ensures owes { HasUnder (pass_view pass.new).facts result }
        ensures same { pass.new ≡ pass.old }
    {
        Under {
            payload,
            ticket,
            reached,
        }
    }

    /// Takes the token back, and gives its payload and its open ticket. It makes no step.
    pub fn spend_under(&self, pass: &mut Pass<C>, under: Under) -> (u32, Option<u64>)
        requires belongs { IsOf self.now pass.old }
        requires owes { HasUnder (pass_view pass.old).facts under }
        ensures payload { result.0 ≡ under_payload under }
        ensures ticket { result.1 ≡ under_ticket under }
        ensures same { pass.new ≡ pass.old }
    {
        (under.payload, under.ticket)
    }
}

impl<C: ClientWords> Pass<C> {
    /// The pass's number in its queue.
    pub fn number(&self) -> u32
        ensures { result ≡ (pass_view self.now).number }
    {
        self.number
    }

    /// What it holds: permits of a semaphore, parties of a barrier.
    pub fn held(&self) -> u32
        ensures { result ≡ (pass_view self.now).facts.has.held }
    {
        self.held
    }

    /// How many slots for segments it has spare: 0 to 2. The claims of `Queue` get them.
    pub fn spares(&self) -> u32
        ensures { result ≡ length (pass_view self.now).facts.spare_slots }
    {
        self.spares.count()
    }

    /// The spare slot at this place, in the order in which they were claimed.
    pub fn spare(&self, place: u32) -> Option<u32>
        ensures { result ≡ slice_get (slots_of (pass_view self.now).facts.spare_slots) place }
    {
        self.spares.at(place)
    }

    /// Whether it owes: a resumption, one that it is at or a further one, or the end of a
    /// cancellation that it began.
    pub fn owes(&self) -> bool
        ensures { result ≡ owes_any (pass_view self.now).facts }
    {
        self.owes || self.further > 0
    }

    /// How many waits it has: those that it installed and hasn't closed.
    pub fn waits(&self) -> u32
        ensures { result ≡ length (pass_view self.now).facts.waits }
    {
        self.waits
    }
}
