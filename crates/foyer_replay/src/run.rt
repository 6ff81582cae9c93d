//! A replay of requests over a core in one thread's hands.

ghost use Rattle.std.specs.Prelude.{IfOk};
ghost use Rattle.foyer_replay.specs.Cores.{core_of, fetches_of, serves_of};
ghost use Rattle.foyer_replay.specs.Counting.{Counted, listed};
ghost use Rattle.foyer_replay.specs.Idle.{IsIdle};

use crate::cache::ReplayCore;
use crate::counts::Counts;
use crate::request::Requests;
use crate::serving::Departures;
use foyer_policy::{Event, Eviction, HashBuilder, Result};

// How many records were evicted, and how many had expired when they left.
#[derive(Clone, Copy, Debug, Default)]
struct Departed {
    evictions: u64,
    expired: u64,
}

impl Departed {
    // Adds what left at a time.
    #[inline]
    fn add(&mut self, departures: &Departures, time: u64) {
        for (event, left) in departures {
            if *event == Event::Evict {
                self.evictions = self.evictions.saturating_add(1);
            }
            if left
                .properties()
                .expiry()
                .is_some_and(|moment| moment <= time)
            {
                self.expired = self.expired.saturating_add(1);
            }
        }
    }
}

/// Serves the requests in order, and returns what it counted of those after the first `skipped`.
///
/// No entry is left over, and nobody waits. `departures` is scratch space, which is empty again afterwards.
///
/// # Errors
/// F7 if memory runs out: that request and those after it are not served.
pub fn replay<E: Eviction, S: HashBuilder, Q: Requests>(
    core: &mut ReplayCore<E, S>,
    requests: &Q,
    skipped: usize,
    departures: &mut Departures,
) -> Result<Counts>
    ensures counted { IfOk result (λ counts. Counted (serves_of core.old) skipped
        (listed (Q.nth requests.now) 0 (Q.count requests.now)) counts.hits counts.misses
        (core_of core.old) (core_of core.new)) }
    ensures idle { IsIdle (core_of core.new).shards (fetches_of core.new) }
{
    let mut counts = Counts::default();
    let mut departed = Departed::default();
    for place in 0..requests.len() {
        let request = requests.request(place);
        // No `?` here and below: it would copy each answer.
        let outcome = match core.serve(&request, departures) {
            Ok(outcome) => outcome,
            Err(error) => return Err(error),
        };
        if place >= skipped {
            counts.add_outcome(outcome, request.size);
            departed.add(departures, request.time);
        }
        departures.clear();
    }
    Ok(Counts {
        evictions: departed.evictions,
        expired: departed.expired,
        ..counts
    })
}
