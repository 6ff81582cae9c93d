//! Clones of answers, and when two of them are equal.

ghost use Rattle.std.specs.Prelude.{◌≡◌, IfOk, nat_eq};
ghost use Rattle.std.specs.Cmp.Lexicographic.{pointwise};
ghost use Rattle.foyer_session.specs.Alike.{SameGets, gets_eq};
ghost use Rattle.foyer_session.specs.Tokens.{numbers_of};

use super::{Answers, Gets};
use foyer_core::Waiting;
use foyer_policy::Reason;
use std::alloc::AllocError;

impl Clone for Answers {
    ghost use Rattle.foyer_session.specs.Alike.{SameAnswers};

    ghost is_clone = { SameAnswers };

    /// Clones the answers; a fault is shared. Fails if memory runs out or the fault's count is full.
    fn clone(&self) -> Result<Self, AllocError> {
        let waiters = self.waiters.as_slice().to_vec(*self.waiters.allocator())?;
        let gets = same_gets(&self.gets)?;
        Ok(Answers { waiters, gets })
    }
}

// Clones what the waiters get.
fn same_gets(gets: &Gets) -> Result<Gets, AllocError>
    ensures { IfOk result (λ copy. SameGets gets.now copy) }
{
    match gets {
        Gets::Handles(first) => Ok(Gets::Handles(*first)),
        Gets::Nothing => Ok(Gets::Nothing),
        Gets::Fault(error) => Ok(Gets::Fault(error.clone()?)),
    }
}

impl PartialEq for Answers {
    ghost use Rattle.foyer_policy.specs.contracts.error.ReasonPartialEq.TheImpl.Laws.{laws-law};
    ghost use Rattle.foyer_session.specs.Alike.{answers_eq, answers_eq_per};

    ghost eq = { answers_eq ⟦<Reason as PartialEq>⟧.eq };

    ghost laws = { answers_eq_per laws-law };

    /// Returns whether the same tokens got the same, in the same order.
    fn eq(&self, other: &Self) -> bool {
        same_tokens(&self.waiters, &other.waiters)
            && (self.is_empty() || equal_gets(&self.gets, &other.gets))
    }
}

// Whether these are the same tokens, in the same order.
fn same_tokens(waiters: &[Waiting<()>], others: &[Waiting<()>]) -> bool
    ensures { result ≡ pointwise nat_eq (numbers_of waiters.now) (numbers_of others.now) }
{
    waiters == others
}

// Whether both are the same.
fn equal_gets(gets: &Gets, others: &Gets) -> bool
    ensures { result ≡ gets_eq ⟦<Reason as PartialEq>⟧.eq gets.now others.now }
{
    match (gets, others) {
        (Gets::Handles(first), Gets::Handles(other)) => first == other,
        (Gets::Nothing, Gets::Nothing) => true,
        (Gets::Fault(error), Gets::Fault(other)) => error == other,
        _ => false,
    }
}
