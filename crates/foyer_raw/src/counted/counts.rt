//! Counts of what a shard's calls returned and of what left.

ghost use Rattle.std.specs.Prelude.{◌≡◌};
ghost use Rattle.foyer_policy.specs.Properties.{is_phantom};
ghost use Rattle.foyer_core.specs.Looks.{look_of};
ghost use Rattle.foyer_core.specs.NoEntry.{is_found};
ghost use Rattle.foyer_core.specs.Waited.{ending_of, got_of};
ghost use Rattle.foyer_raw.specs.Counts.{ask_counted, ending_counted, entries_counted, first_look_counted, leaves_counted, look_up_counted, made_counted, outcome_counted, put_counted};
ghost use Rattle.foyer_raw.specs.Told.{deleted, removed};

use super::{FIRST, RawEnded, RawInserted};
use foyer_core::{CoreEntry, Counted, Got, Leave, Left, Lookup, Outcome, Stats};
use foyer_policy::{Event, Properties, Result};

// Counts a look-up.
#[inline(always)]
pub(super) fn count_look_up<K, V, P>(stats: &mut Stats, found: &Got<K, V, P>)
    ensures { stats.new ≡ look_up_counted (is_found (look_of found.now)) stats.old }
{
    match found {
        Got::Hit(_) => stats.count(Counted::Hit),
        Got::Miss => stats.count(Counted::Miss),
        Got::Full => {}
        Got::OutOfMemory => {}
    }
}

// Counts a look-up that another one follows if it finds nothing.
pub(super) fn count_first_look<K, V, P>(stats: &mut Stats, found: &Got<K, V, P>)
    ensures { stats.new ≡ first_look_counted (is_found (look_of found.now)) stats.old }
{
    if let Got::Hit(_) = found {
        stats.count(Counted::Hit);
    }
}

// Counts a touch.
pub(super) fn count_touch(stats: &mut Stats, found: &Result<bool>)
    ensures { stats.new ≡ look_up_counted found.now stats.old }
{
    match found {
        Ok(true) => stats.count(Counted::Hit),
        Ok(false) => stats.count(Counted::Miss),
        Err(_) => {}
    }
}

// Counts what a `remove` took out.
#[tactic(auto, using(crate::proofs::CountLemmas::leaves_counted_one))]
pub(super) fn count_removed<K, V, P: Properties>(
    stats: &mut Stats,
    taken: &Result<Option<(CoreEntry<K, V, P>, Left<K, V, P>)>>,
)
    ensures { stats.new ≡ leaves_counted P.phantom_of P.expiry_of FIRST (removed taken.now) stats.old }
{
    if let Ok(Some((_, left))) = taken {
        stats.count_left(FIRST, Event::Remove, left);
    }
}

// Counts what a `delete` took out.
#[tactic(auto, using(crate::proofs::CountLemmas::leaves_counted_one))]
pub(super) fn count_deleted<K, V, P: Properties>(
    stats: &mut Stats,
    taken: &Result<Option<Left<K, V, P>>>,
)
    ensures { stats.new ≡ leaves_counted P.phantom_of P.expiry_of FIRST (deleted taken.now) stats.old }
{
    if let Ok(Some(left)) = taken {
        stats.count_left(FIRST, Event::Remove, left);
    }
}

// Counts a look-up that may begin a fetch.
pub(super) fn count_ask<K, V, P, R>(stats: &mut Stats, look: &Result<Lookup<K, V, P, R>>)
    ensures { stats.new ≡ ask_counted look.now stats.old }
{
    match look {
        Ok(Lookup::Hit(_)) => stats.count(Counted::Hit),
        Ok(Lookup::Lead { .. }) => stats.count(Counted::Fetch),
        Ok(Lookup::Wait { .. }) => stats.count(Counted::Wait),
        Err(_) => {}
    }
}

// Counts what left at a time.
#[inline(always)]
#[tactic(auto, using(crate::proofs::CountLemmas::in_turn_is))]
pub(super) fn count_leaves<K, V, P: Properties>(
    stats: &mut Stats,
    now: u64,
    leaves: &[Leave<K, V, P>],
)
    ensures { stats.new ≡ leaves_counted P.phantom_of P.expiry_of now leaves.now stats.old }
{
    for (event, left) in leaves {
        stats.count_left(now, *event, left);
    }
}

// Counts the end of a fetch at a time: the record that it inserted, or its failure, and what left.
pub(super) fn count_ended<K, V, P: Properties>(
    stats: &mut Stats,
    now: u64,
    ended: &RawEnded<K, V, P>,
)
where
    K: Drop,
    V: Drop,
    ensures { stats.new ≡ ending_counted P.phantom_of P.expiry_of now (ending_of ended.now) stats.old }
{
    if !ended.found {
        return;
    }
    count_outcome(stats, &ended.answers.outcome);
    count_leaves(stats, now, ended.leaves.as_slice());
}

// Counts what those got who waited.
fn count_outcome<K, V, P: Properties>(stats: &mut Stats, outcome: &Outcome<K, V, P>)
where
    K: Drop,
    V: Drop,
    ensures { stats.new ≡ outcome_counted P.phantom_of (got_of outcome.now) stats.old }
{
    match outcome {
        Outcome::Entries(entries) => count_entries(stats, entries.as_slice()),
        Outcome::Fault(_) => stats.count(Counted::Refused),
        Outcome::None => {}
    }
}

// Counts the record of these entries, if there is one.
fn count_entries<K, V, P: Properties>(stats: &mut Stats, entries: &[CoreEntry<K, V, P>])
where
    K: Drop,
    V: Drop,
    ensures { stats.new ≡ entries_counted P.phantom_of entries.now stats.old }
{
    if let Some(entry) = entries.first() {
        stats.count_insert(entry.properties());
    }
}

// Counts an insert that made an entry or failed.
pub(super) fn count_made<K, V, P: Properties>(
    stats: &mut Stats,
    made: &Result<RawInserted<K, V, P>>,
)
where
    K: Drop,
    V: Drop,
    ensures { stats.new ≡ made_counted P.phantom_of made.now stats.old }
{
    match made {
        Ok(made) => stats.count_insert(made.entry.properties()),
        Err(_) => stats.count(Counted::Refused),
    }
}

// Counts an insert that failed or not, of a phantom record or not.
#[inline(always)]
pub(super) fn count_put<T>(stats: &mut Stats, put: &Result<T>, is_phantom: bool)
    ensures { stats.new ≡ put_counted is_phantom put.now stats.old }
{
    match put {
        Ok(_) if is_phantom => {}
        Ok(_) => stats.count(Counted::Insert),
        Err(_) => stats.count(Counted::Refused),
    }
}

// Returns whether a record with these properties is a phantom.
#[inline(always)]
pub(super) fn is_phantom<P: Properties>(properties: &P) -> bool
    ensures { result ≡ is_phantom (P.phantom_of properties.now) }
{
    properties.phantom() == Some(true)
}
