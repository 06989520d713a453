//! What the semaphore tells the queue.

use crate::semaphore::SemClient;
use atomic_table::{Shared, TableRule};
use cqs_core::Entry;
use cqs_rule::{Carries, ClientWords};
use cqs_words::StateWord;

impl<T: Carries> ClientWords for SemClient<T> {
    ghost use Rattle.cqs_semaphore_client.specs.Semaphore.{semaphore_object};
    ghost use Rattle.cqs_semaphore_client.specs.SemaphoreClient.{semaphore-client};
    ghost use Rattle.cqs_semaphore_client.specs.SemaphoreMade.{permits_of, sync_of, looks_of, primitive_of};
    ghost use Rattle.cqs_rule_laws.specs.Carried.{slots_when};

    type Slot = T;

    type Entry = Entry;

    ghost object = { semaphore_object };

    ghost primitive = { primitive_of };

    ghost value_slots = { λ x. slots_when T.kept };

    fn words(&self) -> u32 {
        1
    }

    fn opening(&self, _word: u32) -> u64 {
        StateWord {
            value: i64::from(self.permits),
        }
        .pack()
    }

    fn slots(&self) -> u32 {
        T::slots()
    }

    fn values(&self) -> u32 {
        0
    }

    fn held(&self) -> u32 {
        0
    }

    fn held_after_take(held: u32) -> u32 {
        held + 1
    }

    fn wake<S, V, K, P: TableRule<S, V, K>>(words: &Shared<S, V, K, P>, word: usize) {
        T::wake(words, word);
    }

    ghost keeps = { λ x. semaphore-client (sync_of x) (looks_of x) (permits_of x) x.some x.few };
}
