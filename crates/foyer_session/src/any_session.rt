//! A session over a cache of any of the five policies.

ghost use Rattle.std.specs.Prelude.{◌≡◌, true, IfOk, IfErr, OnErr};
ghost use Rattle.foyer_policy.specs.Any.{any};
ghost use Rattle.foyer_policy.specs.declared.error.Reason.TheVariants.{NoMemory};
ghost use Rattle.foyer_session.specs.Ledger.{AreAnswered, IsSettled};
ghost use Rattle.foyer_session.specs.Observed.{IsTold};
ghost use Rattle.foyer_session.specs.Run.{Run};
ghost use Rattle.foyer_session.specs.Sessions.{session_of, terms_of};
ghost use Rattle.foyer_session.specs.Terms.{with_policy};

use crate::command::{Command, Reply};
use crate::predicate::Predicate;
use crate::session::Session;
use foyer_core::{Filter, Weighter};
use foyer_policy::{AnyEviction, EvictionConfig, HashBuilder, Key, Properties, Result, Value};

/// Carries out commands, like `Session::run`, over a cache whose policy was chosen by its configuration.
///
/// What is evicted is what that policy evicts. For a session over one policy type, `Session::run` promises the same.
pub fn run_any<
    K: Key,
    V: Value,
    P: Properties,
    S: HashBuilder,
    W: Weighter<K, V>,
    A: Filter<K, V>,
    Q: Predicate<K, V>,
>(
    session: &mut Session<AnyEviction, K, V, P, S, W, A>,
    commands: Vec<Command<K, V, P, Q, EvictionConfig>>,
) -> Result<Vec<Reply<K, V, P>>>
    requires clones { (k c : K) → K.is_clone k c → K.eq c k ≡ true }
    ensures run { IfOk result (λ replies.
        Run (with_policy any (terms_of session.old)) Q.picks
        (session_of session.old) commands.items replies.items (session_of session.new)) }
    ensures told { IfOk result (λ replies. IsTold (terms_of session.old) (session_of session.old) replies.items (session_of session.new)) }
    ensures settled { IfOk result (λ replies. IsSettled (terms_of session.old) (session_of session.old) commands.items replies.items (session_of session.new)) }
    ensures answered { IfOk result (λ replies. AreAnswered (terms_of session.old)
        (session_of session.old) commands.items replies.items (session_of session.new)) }
    ensures refused { IfErr result (λ e. e ≡ NoMemory) }
    ensures err { OnErr result (session_of session.new ≡ session_of session.old) }
{
    session.run(commands)
}
