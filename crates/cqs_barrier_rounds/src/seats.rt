//! How a pass of the rounds makes another, and how two become one.

ghost use Rattle.std.specs.Prelude.{◌≡◌, ◌≤◌, length, vec_len, IsTrue, IsErr, IsErrOf, IfOk, IfErr, OnErr, OnOk};
ghost use mathlib.Core.Logic.{◌↔◌};
ghost use Rattle.cqs_barrier_rounds.specs.Passes.{AreCalled, AreCalledWithin, EachIs};
ghost use Rattle.cqs_barrier_rounds.specs.Rounds.{AreMine, barriers_of};
ghost use Rattle.cqs_barrier_rounds.specs.Seats.{AreAlone, AreBetween, AreFor, AreReady, HasAsked, HasSplit, HasTaken, HaveRoom, HoldEach, IsCrowded, IsFree, IsSomeBusy};

use crate::answers::SplitError;
use crate::rounds::{Rounds, RoundsPass};
use cqs_barrier::BarrierPass;
use cqs_rule::{Crowd, MeetError};
use std::alloc::Global;

impl Rounds {
    /// A new pass, which gets so many parties of each round. It is made in all rounds or in none.
    pub fn split(
        &self,
        alloc: Global,
        pass: &mut RoundsPass,
        gives: u32,
    ) -> Result<RoundsPass, SplitError>
        requires belongs { AreMine (barriers_of self.now) pass.old.passes.items }
        requires ready { AreReady pass.old.passes.items }
        requires enough { HoldEach gives pass.old.passes.items }
        ensures belongs { AreMine (barriers_of self.now) pass.new.passes.items }
        ensures memory { IsErrOf result SplitError.Memory → pass.new ≡ pass.old }
        ensures crowd { IsErrOf result SplitError.Crowd → IsCrowded gives (barriers_of self.now)
            pass.old.passes.items pass.new.passes.items }
        ensures room { OnOk result (HaveRoom (barriers_of self.now) pass.new.passes.items) }
        ensures split { IfOk result (λ made. AreCalled (HasSplit gives made.passes.items)
            pass.old.passes.items pass.new.passes.items) }
        ensures new_belongs { IfOk result
            (λ made. AreMine (barriers_of self.now) made.passes.items) }
    {
        let mut made = Vec::with_capacity(alloc, self.barriers.len())?;
        for round in 0..self.barriers.len() {
            match self.barriers[round].split(&mut pass.passes[round], gives) {
                Ok(new) => made.push_reserved(new),
                Err(Crowd) => {
                    self.take_in(pass, made);
                    return Err(SplitError::Crowd);
                }
            }
        }
        Ok(RoundsPass { passes: made })
    }

    /// The pass takes in the given one, in each round: it has seen what each of them had seen, and
    /// holds what both held.
    pub fn meet(
        &self,
        pass: &mut RoundsPass,
        given: RoundsPass,
    ) -> Result<(), (RoundsPass, MeetError)>
        requires belongs { AreMine (barriers_of self.now) pass.old.passes.items }
        requires given_belongs { AreMine (barriers_of self.now) given.passes.items }
        requires ready { AreReady pass.old.passes.items }
        requires between { AreBetween given.passes.items }
        ensures belongs { AreMine (barriers_of self.now) pass.new.passes.items }
        ensures busy { IsErr result ↔ IsSomeBusy given.passes.items }
        ensures back { IfErr result (λ refused. refused.0 ≡ given) }
        ensures unchanged { OnErr result (pass.new ≡ pass.old) }
        ensures met { OnOk result (AreCalled (HasTaken given.passes.items) pass.old.passes.items
            pass.new.passes.items) }
    {
        if given.is_busy() {
            return Err((given, MeetError::Busy));
        }
        let RoundsPass { passes } = given;
        self.take_in(pass, passes);
        Ok(())
    }

    /// Whether no other pass is left in any round.
    pub fn sole(&self, pass: &mut RoundsPass) -> bool
        requires belongs { AreMine (barriers_of self.now) pass.old.passes.items }
        ensures belongs { AreMine (barriers_of self.now) pass.new.passes.items }
        ensures sole { IsTrue result ↔ AreAlone pass.new.passes.items }
        ensures asked { AreCalled (λ r p q. HasAsked p q) pass.old.passes.items
            pass.new.passes.items }
    {
        let mut sole = true;
        for round in 0..self.barriers.len() {
            if !self.barriers[round].sole(&mut pass.passes[round]) {
                sole = false;
            }
        }
        sole
    }

    // Takes in passes of the first rounds that have no wait and owe nothing.
    fn take_in(&self, pass: &mut RoundsPass, givens: Vec<BarrierPass>)
        requires belongs { AreMine (barriers_of self.now) pass.old.passes.items }
        requires few { vec_len givens ≤ vec_len pass.old.passes }
        requires given_belongs { AreFor (barriers_of self.now) givens.items }
        requires ready { AreReady pass.old.passes.items }
        requires free { EachIs IsFree givens.items }
        ensures belongs { AreMine (barriers_of self.now) pass.new.passes.items }
        ensures taken { AreCalledWithin (HasTaken givens.items) 0 (length givens.items)
            pass.old.passes.items pass.new.passes.items }
    {
        let mut left = givens;
        while let Some(given) = left.pop() {
            let round = left.len();
            match self.barriers[round].meet(&mut pass.passes[round], given) {
                Ok(()) => {}
                Err(_) => unreachable!(),
            }
        }
    }
}
