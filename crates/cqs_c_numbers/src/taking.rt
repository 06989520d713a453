//! How a call takes its pass, and puts it back.

ghost use Rattle.std.specs.Prelude.{◌≡◌, ◌≢◌, ◌⊎◌, ◌<◌, ◌≤◌, IfOk, IfErr};
ghost use Rattle.cqs_c_numbers.specs.Callers.{StandsAs};
ghost use Rattle.cqs_c_numbers.specs.Marks.{Suits};
ghost use Rattle.cqs_c_numbers.specs.Numbered.{Holds, IsLaid, IsTaken};
ghost use Rattle.cqs_c_callers.specs.declared.answers.Answer.TheVariants as answer;

use crate::caller::Caller;
use crate::marks::{Claim, Hand, Lay, NOBODY, RESTS, Sit, TAKEN};
use crate::numbered::Numbered;
use cqs_c_callers::Answer;

impl Numbered {
    // Takes what lies in the slot of the pass, where its mark is the one that is expected, and says
    // else which it is.
    #[tactic(auto, using(crate::proofs::MarkSteps::sits, crate::proofs::MarkSteps::claims))]
    pub(crate) fn claim(&self, pass: u32, from: u64) -> Result<(Hand, Option<Caller>), u64>
        requires inside { pass < self.now.passes }
        requires free { from ≢ 1 }
        ensures taken { IfOk result (λ taken. Holds self.now pass taken.0
            × Suits self.now.primitive pass from taken.1) }
        ensures exchanged { IfOk result (λ taken. IsTaken self.now pass from taken.1) }
        ensures other { IfErr result (λ found. found ≢ from) }
    {
        let shared = &self.table.shared;
        let mut hand = shared.load_new_seat::<Sit>(0).1;
        let word = 16 * pass as usize + 16;
        let found = shared.compare_exchange::<Claim>(&mut hand, word, from, TAKEN);
        if found != from {
            return Err(found);
        }
        let lying = shared.exchange(&mut hand, pass as usize, None);
        Ok((hand, lying))
    }

    // Lays something into the slot of a pass, under this mark.
    #[tactic(auto, using(crate::proofs::MarkSteps::lays))]
    pub(crate) fn lay(&self, pass: u32, mut hand: Hand, lying: Option<Caller>, mark: u64)
        requires inside { pass < self.now.passes }
        requires holds { Holds self.now pass hand }
        requires suits { Suits self.now.primitive pass mark lying }
        ensures { IsLaid self.now pass mark lying }
    {
        let shared = &self.table.shared;
        let word = 16 * pass as usize + 16;
        let _nothing = shared.exchange(&mut hand, pass as usize, lying);
        shared.store::<Lay>(&mut hand, word, mark);
    }

    // Takes a pass, for a call.
    pub(crate) fn take(&self, pass: u32) -> Result<(Hand, Caller), Answer>
        ensures refused { IfErr result (λ e. (e ≡ answer.NoPass) ⊎ (e ≡ answer.InUse)) }
        ensures inside { IfOk result (λ _. pass < self.now.passes) }
        ensures holds { IfOk result (λ taken. Holds self.now pass taken.0) }
        ensures stands { IfOk result (λ taken. StandsAs self.now.primitive pass taken.1) }
        ensures taken { IfOk result (λ taken. IsTaken self.now pass 0 (Some taken.1)) }
    {
        if pass >= self.passes {
            return Err(Answer::NoPass);
        }
        match self.claim(pass, RESTS) {
            Ok((hand, lying)) => match lying {
                Some(caller) => Ok((hand, caller)),
                None => unreachable!(),
            },
            Err(mark) => Err(if mark == NOBODY {
                Answer::NoPass
            } else {
                Answer::InUse
            }),
        }
    }

    // Puts a pass back.
    pub(crate) fn put(&self, pass: u32, hand: Hand, caller: Caller)
        requires inside { pass < self.now.passes }
        requires holds { Holds self.now pass hand }
        requires stands { StandsAs self.now.primitive pass caller }
        ensures { IsLaid self.now pass 0 (Some caller) }
    {
        self.lay(pass, hand, Some(caller), RESTS);
    }
}
