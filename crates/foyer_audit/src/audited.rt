//! A shard under a lock whose callers account for their calls.

ghost use Rattle.std.specs.Prelude.{◌≡◌, ◌+◌, ◌<◌, ◌↔◌, [], true, All, IfErr, IfOk, IfSome, IsTrue, None, OnErr, OnOk, Err, length, sum_by};
ghost use Rattle.foyer_policy.specs.declared.error.Reason.TheVariants.{NoMemory};
ghost use Rattle.foyer_core.specs.Core.{core_fault};
ghost use Rattle.foyer_core.specs.State.{coming_in};
ghost use Rattle.foyer_core.specs.Stored.{meaning};
ghost use Rattle.foyer_audit.specs.Accounts.{AccountFor, IsReceived};
ghost use Rattle.foyer_audit.specs.Legal.{IsSomeHistory};

use crate::accounts::account_for;
use crate::book::Book;
use crate::compared::Compared;
use crate::receipt::Share;
use foyer_core::{Filter, Finder, RawCacheConfig, TagFinder, Weighter};
use foyer_policy::{Eviction, HashBuilder, Key, Properties, Result, Value};
use foyer_session::{Command, Predicate, Reply};
use std::alloc::Global;
use std::sync::ledger::{Blank, Ledger};
use std::sync::{Mutex, Wait, ledger};

mod desk;

use desk::Desk;

/// The result of closing an audited shard.
#[derive(Drop)]
pub struct Closed<K, V, P, Q, C> {
    /// Whether the receipts of the shares account for the history.
    pub yes: bool,
    /// The calls, each with its reply, in the order in which they were made.
    pub history: Vec<(Command<K, V, P, Q, C>, Reply<K, V, P>)>,
}

/// One shard of a cache under a lock, which records every command with its reply, and whose callers keep receipts of
/// their calls.
///
/// Whenever the lock is free, the history is one that a single thread could have made. `G` names the shard's ledger,
/// in which each call is counted.
#[derive(Drop)]
pub struct AuditedShard<
    G: Ledger,
    E: Eviction<Config = C>,
    K: Key,
    V: Value + Clone + Eq,
    P: Properties + Clone + Eq,
    S: HashBuilder,
    W: Weighter<K, V>,
    A: Filter<K, V>,
    Q: Predicate<K, V> + Clone + Eq + Compared<K, V, P, C>,
    C: Clone + Drop + Eq,
    I: Finder<K> = TagFinder<K>,
> {
    desk: Mutex<Desk<G, E, K, V, P, S, W, A, Q, C, I>>,
}

impl<
    G: Ledger,
    E: Eviction<Config = C>,
    K: Key,
    V: Value + Clone + Eq,
    P: Properties + Clone + Eq,
    S: HashBuilder,
    W: Weighter<K, V>,
    A: Filter<K, V>,
    Q: Predicate<K, V> + Clone + Eq + Compared<K, V, P, C>,
    C: Clone + Drop + Eq,
    I: Finder<K>,
> AuditedShard<G, E, K, V, P, S, W, A, Q, C, I> {
    /// Makes an audited shard with an empty history, and a share for each thread.
    ///
    /// The shard is that of this number of a cache of this configuration. It requires a blank ledger with a part for
    /// each thread.
    ///
    /// # Errors
    /// F1 if the cache has no shards; F2 to F6 if the policy's configuration has a fault; F7 if memory runs out.
    pub fn new(
        alloc: Global,
        blank: Blank,
        config: RawCacheConfig<C, S, W, A>,
        shard: usize,
        threads: usize,
    ) -> Result<(Self, Vec<Share<G, K, V, P, Q, C>>)>
        requires name { blank.name ≡ G.name }
        requires parts { blank.parts ≡ G.parts }
        requires threads { blank.parts ≡ threads }
        requires some { 0 < threads }
        requires within { 0 < config.shards → shard < config.shards }
        ensures shares { IfOk result (λ made. length made.1.items ≡ threads) }
        ensures parts { IfOk result (λ made. All (λ share. share.mine.parts ≡ 1) made.1.items) }
        ensures receipts { IfOk result (λ made. All (λ share. share.receipts.items ≡ []) made.1.items) }
        ensures accepted { OnOk result (core_fault E.model config ≡ None) }
        ensures refused { IfSome (core_fault E.model config) (λ reason. result ≡ Err reason) }
        ensures memory { IfErr result (λ e. core_fault E.model config ≡ None → e ≡ NoMemory) }
    {
        let book = Book::new(alloc, config, shard)?;
        let (calls, mut rest) = blank.open::<G>();
        let empty = rest.empty();
        let shares = split(alloc, rest, threads)?;
        let desk = Mutex::new(Desk { book, calls, empty });
        Ok((AuditedShard { desk }, shares))
    }

    /// Carries out a command, like a book, and leaves a receipt in the caller's share. Returns the reply, and the
    /// number of the call in the history.
    ///
    /// The receipt and the result have copies of the recorded reply; if memory runs out for one of the copies, both
    /// have none. It requires that clones of keys and of commands equal them.
    ///
    /// # Errors
    /// F7 if memory runs out before the command; nothing was done or recorded, and there is no receipt.
    pub fn call(
        &self,
        rt: &impl Wait,
        share: &mut Share<G, K, V, P, Q, C>,
        command: Command<K, V, P, Q, C>,
    ) -> Result<(Option<Reply<K, V, P>>, u64)>
        requires keys { (k c : K) → K.is_clone k c → K.eq c k ≡ true }
        requires commands { (k c : Command K V P Q C)
            → ⟦<Command<K, V, P, Q, C> as Clone>⟧.is_clone k c → Q.same c k ≡ true }
        ensures received { IfOk result (λ told. (reply : Reply K V P) × IsReceived ⟦<Reply<K, V, P> as Clone>⟧.is_clone
            share.old.receipts.items command told.1 reply told.0 share.new.receipts.items) }
        ensures counted { OnOk result (share.new.mine.amount ≡ share.old.mine.amount + 1) }
        ensures parts { share.new.mine.parts ≡ share.old.mine.parts }
        ensures refused { IfErr result (λ e. e ≡ NoMemory) }
        ensures err { OnErr result ((share.new.receipts.items ≡ share.old.receipts.items)
            × (share.new.mine.amount ≡ share.old.mine.amount)) }
    {
        self.desk.lock(rt).call(share, command)
    }

    /// Ends the shard, and returns its history and whether the receipts of these shares account for it. It allocates
    /// nothing.
    ///
    /// They do if each receipt agrees with the history's call at its number, the numbers of each share rise, and each
    /// call of the history has exactly one receipt.
    pub fn close(self, shares: Vec<Share<G, K, V, P, Q, C>>) -> Closed<K, V, P, Q, C>
        ensures yes { IsTrue result.yes ↔ AccountFor (λ share. share.receipts.items) Q.same Q.alike
            result.history.items shares.items }
        ensures counts { sum_by (λ share. share.mine.parts) shares.items ≡ G.parts
            → length result.history.items ≡ sum_by (λ share. length share.receipts.items) shares.items }
        ensures legal { IsSomeHistory record {
          meaning = meaning K.eq E.model P.hint_of P.phantom_of P.expiry_of;
          hash = λ builder key. S.hash_of builder (K.hash_input key);
          weighs = W.weighs;
          admits = A.admits;
          incoming = coming_in P.location_of P.with_phantom_of;
        } Q.picks Q.same result.history.items }
    {
        let AuditedShard { desk } = self;
        let Desk {
            book,
            mut calls,
            empty,
        } = desk.into_inner();
        let history = book.into_history();
        let yes = account_for(history.as_slice(), shares.as_slice());
        let mut all = gather(empty, shares);
        calls.audit(&mut all);
        Closed { yes, history }
    }
}

// A share for each thread, with one part each. Fails only with F7.
fn split<G: Ledger, K: Drop, V: Drop, P: Drop, Q: Drop, C: Drop>(
    alloc: Global,
    rest: ledger::Share<G>,
    threads: usize,
) -> Result<Vec<Share<G, K, V, P, Q, C>>>
    requires parts { rest.parts ≡ threads }
    requires amount { rest.amount ≡ 0 }
    ensures shares { IfOk result (λ shares. length shares.items ≡ threads) }
    ensures parts { IfOk result (λ shares. All (λ share. share.mine.parts ≡ 1) shares.items) }
    ensures receipts { IfOk result (λ shares. All (λ share. share.receipts.items ≡ []) shares.items) }
    ensures refused { IfErr result (λ e. e ≡ NoMemory) }
{
    let mut rest = rest;
    let mut shares = Vec::new(alloc);
    for _thread in 0..threads {
        shares.push(Share::of(alloc, rest.split_off(1, 0)))?;
    }
    Ok(shares)
}

// Merges all parts and counts of shares into one.
fn gather<G: Ledger, K: Drop, V: Drop, P: Drop, Q: Drop, C: Drop>(
    empty: ledger::Share<G>,
    shares: Vec<Share<G, K, V, P, Q, C>>,
) -> ledger::Share<G>
    requires no_parts { empty.parts ≡ 0 }
    requires no_calls { empty.amount ≡ 0 }
    ensures parts { result.parts ≡ sum_by (λ share. share.mine.parts) shares.items }
    ensures amount { result.amount ≡ sum_by (λ share. length share.receipts.items) shares.items }
{
    let mut all = empty;
    for share in shares {
        let Share { receipts: _, mine } = share;
        all.merge(mine);
    }
    all
}
