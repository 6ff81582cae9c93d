//! What is under the lock of an audited shard.

ghost use Rattle.std.specs.Prelude.{◌≡◌, ◌+◌, ◌++◌, ◌∷◌, [], true, IfErr, IfOk, OnErr, OnOk, length};
ghost use Rattle.foyer_policy.specs.declared.error.Reason.TheVariants.{NoMemory};
ghost use Rattle.foyer_session.specs.Sessions.{session_of, terms_of};
ghost use Rattle.foyer_audit.specs.Accounts.{IsReceived};
ghost use Rattle.foyer_audit.specs.Legal.{Call};

use crate::book::Book;
use crate::compared::Compared;
use crate::receipt::{Receipt, Share};
use foyer_core::{Filter, Finder, Weighter};
use foyer_policy::{Error, Eviction, HashBuilder, Key, Properties, Reason, Result, Value};
use foyer_session::{Command, Predicate, Reply};
use std::sync::ledger;
use std::sync::ledger::Ledger;

// The book, the number of calls that all shares count, and a share without a part, into which the others are merged.
#[derive(Drop)]
pub(super) struct Desk<
    G: Ledger,
    E: Eviction<Config = C>,
    K: Key,
    V: Value + Clone + Eq,
    P: Properties + Clone + Eq,
    S: HashBuilder,
    W: Weighter<K, V>,
    A: Filter<K, V>,
    Q: Predicate<K, V> + Clone + Eq + Compared<K, V, P, C>,
    C: Clone + Drop + Eq,
    I: Finder<K>,
> {
    pub(super) book: Book<E, K, V, P, S, W, A, Q, C, I>,
    pub(super) calls: ledger::Book<G>,
    pub(super) empty: ledger::Share<G>,
    ghost counted: { length book.history.items ≡ calls.total },
    ghost no_parts: { empty.parts ≡ 0 },
    ghost no_calls: { empty.amount ≡ 0 },
}

impl<
    G: Ledger,
    E: Eviction<Config = C>,
    K: Key,
    V: Value + Clone + Eq,
    P: Properties + Clone + Eq,
    S: HashBuilder,
    W: Weighter<K, V>,
    A: Filter<K, V>,
    Q: Predicate<K, V> + Clone + Eq + Compared<K, V, P, C>,
    C: Clone + Drop + Eq,
    I: Finder<K>,
> Desk<G, E, K, V, P, S, W, A, Q, C, I> {
    // The call under the lock. The book records an equal command with its reply; the caller gets the number and a
    // copy of the reply, and the share a receipt with another copy.
    pub(super) fn call(
        &mut self,
        share: &mut Share<G, K, V, P, Q, C>,
        command: Command<K, V, P, Q, C>,
    ) -> Result<(Option<Reply<K, V, P>>, u64)>
        requires keys { (k c : K) → K.is_clone k c → K.eq c k ≡ true }
        requires commands { (k c : Command K V P Q C)
            → ⟦<Command<K, V, P, Q, C> as Clone>⟧.is_clone k c → Q.same c k ≡ true }
        ensures number { IfOk result (λ told. told.1 ≡ length self.old.book.history.items) }
        ensures recorded { IfOk result (λ told. (made : Command K V P Q C) × (reply : Reply K V P)
            × (Q.same made command ≡ true)
            × (self.new.book.history.items ≡ self.old.book.history.items ++ (made, reply) ∷ [])
            × Call (terms_of self.old.book.session) Q.picks Q.same self.old.book.opening.value.shards
            self.old.book.shard (session_of self.old.book.session) made reply (session_of self.new.book.session)
            × IsReceived ⟦<Reply<K, V, P> as Clone>⟧.is_clone share.old.receipts.items command told.1 reply told.0
            share.new.receipts.items) }
        ensures counted { OnOk result (share.new.mine.amount ≡ share.old.mine.amount + 1) }
        ensures parts { share.new.mine.parts ≡ share.old.mine.parts }
        ensures refused { IfErr result (λ e. e ≡ NoMemory) }
        ensures err { OnErr result ((self.new.book.history.items ≡ self.old.book.history.items)
            × (session_of self.new.book.session ≡ session_of self.old.book.session)
            × (share.new.receipts.items ≡ share.old.receipts.items)
            × (share.new.mine.amount ≡ share.old.mine.amount)) }
    {
        let Desk { book, calls, .. } = self;
        let Share { receipts, mine } = share;
        let Ok(()) = receipts.reserve(1) else {
            return Err(Error::new(Reason::NoMemory));
        };
        let Ok(made) = command.clone() else {
            return Err(Error::new(Reason::NoMemory));
        };
        let number = book.apply(made)?;
        calls.add(mine, 1);
        let (told, copy) = book.copies(number);
        receipts.push_reserved(Receipt {
            number,
            command,
            reply: copy,
        });
        Ok((told, number))
    }
}
