//! How a pass makes another, and how two become one.

ghost use Rattle.std.specs.Prelude.{◌≡◌, ◌⊎◌, ◌+◌, ◌≤◌, [], true, IsTrue, IsErr, IfOk, IfErr, OnErr, OnOk};
ghost use mathlib.Core.Logic.{◌↔◌};
ghost use Rattle.cqs_rule_laws.specs.Crew.{IsBetween, IsSole, Came, MadeNone, MadeOne};
ghost use Rattle.cqs_rule.specs.Passes.{pass_view, passes_of};
ghost use Rattle.cqs_rule.specs.Seats.{IsBusy, HasMet};
ghost use Rattle.cqs_semaphore_client.specs.Semaphore.{semaphore_object};
ghost use Rattle.cqs_rule_laws.specs.Lists.{IsPrefix};
ghost use Rattle.cqs_rule_laws.specs.Views.{made_in, live_in};
ghost use Rattle.cqs_rule_laws.specs.CallRule.{IsReady};
ghost use Rattle.cqs_semaphore.specs.Calls.{Course};
ghost use Rattle.cqs_semaphore.specs.Seats.{LookedOn, SeesAll};
ghost use Rattle.cqs_sync_semaphore.specs.Calls.{IsMine};

use crate::sync_semaphore::SyncSemaphore;
use cqs_rule::{Carries, Crowd, MeetError};
use cqs_semaphore::SemPass;

impl<T: Carries + Send> SyncSemaphore<T> {
    /// A new pass, which has seen what this one has seen, has done nothing and holds nothing.
    pub fn split(&self, pass: &mut SemPass<T>) -> Result<SemPass<T>, Crowd>
        requires belongs { IsMine self.now pass.old }
        requires ready { IsReady (pass_view pass.old).facts }
        ensures belongs { IsMine self.now pass.new }
        ensures crowd { IsErr result
            ↔ (passes_of self.now.queue ≤ made_in (pass_view pass.new).crew) }
        ensures looked { LookedOn (pass_view pass.old) (pass_view pass.new) }
        ensures ready { IsReady (pass_view pass.new).facts }
        ensures kept { OnErr result ((pass_view pass.old).alone ≡ true
            → (pass_view pass.new).alone ≡ true) }
        ensures made_none { OnErr result (MadeNone (pass_view pass.old) (pass_view pass.new)) }
        ensures made_one { IfOk result
            (λ made. MadeOne (pass_view made).number (pass_view pass.old) (pass_view pass.new)) }
        ensures new_belongs { IfOk result (λ made. IsMine self.now made) }
        ensures came { IfOk result
            (λ made. Came semaphore_object (pass_view pass.new) (pass_view made)) }
        ensures new_ready { IfOk result (λ made. IsReady (pass_view made).facts) }
    {
        self.queue.split(pass, 0)
    }

    /// The pass takes in the given one: it has seen what each of them had seen, and holds what both
    /// held.
    pub fn meet(
        &self,
        pass: &mut SemPass<T>,
        given: SemPass<T>,
    ) -> Result<(), (SemPass<T>, MeetError)>
        requires belongs { IsMine self.now pass.old }
        requires given_belongs { IsMine self.now given }
        requires ready { IsReady (pass_view pass.old).facts }
        requires between { IsBetween (pass_view given).facts }
        ensures belongs { IsMine self.now pass.new }
        ensures busy { IsErr result ↔ IsBusy (pass_view given).facts }
        ensures back { IfErr result (λ refused. refused.0 ≡ given) }
        ensures unchanged { OnErr result (pass.new ≡ pass.old) }
        ensures met { OnOk result (HasMet pass.old given pass.new) }
        ensures course { OnOk result (Course (pass_view pass.old) [] (pass_view pass.new)) }
        ensures held { OnOk result ((pass_view pass.new).facts.has.held
            ≡ (pass_view pass.old).facts.has.held + (pass_view given).facts.has.held) }
        ensures ready { IsReady (pass_view pass.new).facts }
    {
        self.queue.meet(pass, given)
    }

    /// Whether no other pass is there. Then this one has seen the whole history, and all others
    /// rest.
    pub fn sole(&self, pass: &mut SemPass<T>) -> bool
        requires belongs { IsMine self.now pass.old }
        ensures belongs { IsMine self.now pass.new }
        ensures sole { IsTrue result ↔ (live_in (pass_view pass.new).crew ≡ 1) }
        ensures alone { result ≡ (pass_view pass.new).alone }
        ensures kept { (pass_view pass.old).alone ≡ true → (pass_view pass.new).alone ≡ true }
        ensures looked { LookedOn (pass_view pass.old) (pass_view pass.new) }
        ensures ready { IsReady (pass_view pass.old).facts → IsReady (pass_view pass.new).facts }
        ensures made_none { MadeNone (pass_view pass.old) (pass_view pass.new) }
        ensures others { IsTrue result → SeesAll (pass_view pass.new) }
    {
        self.queue.sole(pass)
    }

    /// The pass has then seen all that the other one has seen by now. So what two passes of one
    /// semaphore have seen are beginnings of one history, whether they ever meet or not.
    pub fn catch_up(&self, pass: &mut SemPass<T>, other: &mut SemPass<T>)
        requires belongs { IsMine self.now pass.old }
        requires other_belongs { IsMine self.now other.old }
        ensures belongs { IsMine self.now pass.new }
        ensures other_belongs { IsMine self.now other.new }
        ensures looked { LookedOn (pass_view pass.old) (pass_view pass.new) }
        ensures kept { (pass_view pass.old).alone ≡ true → (pass_view pass.new).alone ≡ true }
        ensures ready { IsReady (pass_view pass.old).facts → IsReady (pass_view pass.new).facts }
        ensures made_none { MadeNone (pass_view pass.old) (pass_view pass.new) }
        ensures other_stays { pass_view other.new ≡ pass_view other.old }
        ensures all { IsPrefix (pass_view other.old).seen (pass_view pass.new).seen }
        ensures one_history { IsPrefix (pass_view pass.old).seen (pass_view other.old).seen
            ⊎ IsPrefix (pass_view other.old).seen (pass_view pass.old).seen }
    {
        self.queue.catch_up(pass, other)
    }
}
