//! The calls of a core that hand out more than leaves: a new core and the end of a fetch.

use crate::call::{Op, make};
use crate::calls::victims;
use crate::cores::{Core, FETCHED, Leaves, Look, empty, weighing};
use crate::kept::{WAITED, Wanted, ask_for, begin, prepared};
use crate::word::Shown;
use foyer_core::{CacheProperties, Ended, FetchTarget, InsertedOnto, Outcome};
use foyer_policy::{EvictionConfig, Result, Source};
use std::alloc::Global;

mod asked;

/// Shows the call of this name, where it is one of these.
pub fn shown(alloc: Global, config: &EvictionConfig, name: &str) -> Option<Shown> {
    match name {
        "new_1" => Some(opened(alloc, config, 1)),
        "new_4" => Some(opened(alloc, config, 4)),
        "complete" | "resize_then_insert" | "insert_onto_evicts_10" | "cancel" => {
            Some(changed(alloc, config, name))
        }
        "clone_handle" | "piece" | "owns" | "refs" | "is_outdated" | "sums" => {
            Some(asked::asked(alloc, config, name))
        }
        _ => None,
    }
}

// A full core, with one who waits.
fn waited(alloc: Global, config: &EvictionConfig) -> Result<Core> {
    Ok(prepared(alloc, config, WAITED, Op::Clear, 12)?.0)
}

// The first victims leave, in order.
fn evicting(config: &EvictionConfig) -> Wanted {
    Wanted {
        leaves: victims(config),
        ..Wanted::same(WAITED)
    }
}

fn changed(alloc: Global, config: &EvictionConfig, name: &str) -> Shown {
    let Ok(mut core) = waited(alloc, config) else {
        return Shown::Early;
    };
    let wanted = evicting(config);
    match name {
        "complete" => completed(&mut core, &wanted),
        "cancel" => cancelled(&mut core),
        "insert_onto_evicts_10" => lent(alloc, &mut core, &wanted),
        _ => resized(alloc, &mut core, &wanted),
    }
}

// A new core. Nothing is left of one that was refused.
fn opened(alloc: Global, config: &EvictionConfig, shards: usize) -> Shown {
    let (made, shown) = match empty(alloc, config, 10, shards, 0) {
        Err(error) if error.number() == 7 => (empty(alloc, config, 10, shards, 0), Shown::Kept),
        made => (made, Shown::Done),
    };
    match made {
        Ok(core) if core.shards() == shards && core.capacity() == 10 && core.entries() == 0 => {
            shown
        }
        Ok(_) => Shown::Wrong("the new core"),
        Err(error) if error.number() == 7 => Shown::Wrong("refused twice"),
        Err(_) => Shown::Wrong("another refusal"),
    }
}

// What the end of a fetch told: whether it was open, whom it answered, with what refusal, and what left.
#[derive(Drop)]
struct Ending {
    found: bool,
    token: Option<u64>,
    refused: Option<u8>,
    leaves: Leaves,
}

fn complete(core: &mut Core, fetch: u64) -> Ending {
    let target = FetchTarget::Entry {
        value: weighing(4),
        properties: CacheProperties::default(),
    };
    let Ended {
        found,
        answers,
        leaves,
    } = core.complete(0, &FETCHED, fetch, target, Source::Outer);
    let token = answers.waiters.first().map(|waiting| waiting.token);
    let refused = match &answers.outcome {
        Outcome::Fault(error) => Some(error.number()),
        _ => None,
    };
    core.drop_answers(answers);
    Ending {
        found,
        token,
        refused,
        leaves,
    }
}

// A fetch completes with a value, for which four records leave. Where that is refused its place is closed, who waits is
// told so, and some of them have left; the next fetch then completes.
fn completed(core: &mut Core, wanted: &Wanted) -> Shown {
    let before = Look::of(core);
    let first = complete(core, 0);
    if !first.found || first.token != Some(0) || !begin(&first.leaves, 0, wanted) {
        return Shown::Wrong("who is answered, or what left");
    }
    let mut look = before.without(&first.leaves);
    look.is_open = false;
    match first.refused {
        None if first.leaves.len() == 4 && Look::of(core) == look.with(FETCHED, 4) => Shown::Done,
        Some(7) if Look::of(core) == look => completed_again(
            core,
            look,
            first.leaves.len(),
            wanted,
        ),
        _ => Shown::Wrong("the core after the completion"),
    }
}

// The same of the next fetch, once so many have left.
fn completed_again(core: &mut Core, before: Look, gone: usize, wanted: &Wanted) -> Shown {
    if complete(core, 0).found {
        return Shown::Wrong("a fetch ended twice");
    }
    if ask_for(core).is_err() {
        return Shown::Wrong("the key is not fetched again");
    }
    let second = complete(core, 1);
    let look = before.without(&second.leaves).with(FETCHED, 4);
    let all = gone.saturating_add(second.leaves.len());
    if second.token != Some(1) || second.refused.is_some() || Look::of(core) != look {
        return Shown::Wrong("the next fetch");
    }
    if !begin(&second.leaves, gone, wanted) || all != 4 {
        return Shown::Wrong("what left for the next fetch");
    }
    Shown::Kept
}

// A resize that is refused has set the capacity: an insert evicts the rest, and what gives way to it.
fn resized(alloc: Global, core: &mut Core, wanted: &Wanted) -> Shown {
    let before = Look::of(core);
    let first = make(alloc, core, Op::Resize(3), None);
    if !begin(&first.leaves, 0, wanted) {
        return Shown::Wrong("what left for a lower capacity");
    }
    let mut look = before.without(&first.leaves);
    look.capacity = 3;
    if Look::of(core) != look {
        return Shown::Wrong("the core after a resize");
    }
    match first.refused {
        None if first.leaves.len() == 9 => Shown::Done,
        Some(7) => inserted(alloc, core, first.leaves.len(), wanted),
        _ => Shown::Wrong("a resize"),
    }
}

// The insert behind that, once so many have left.
fn inserted(alloc: Global, core: &mut Core, gone: usize, wanted: &Wanted) -> Shown {
    let told = make(alloc, core, Op::Insert(50, 1), None);
    let all = gone.saturating_add(told.leaves.len());
    if told.refused.is_some() || all != 10 || !begin(&told.leaves, gone, wanted) {
        return Shown::Wrong("what left for the insert behind a resize");
    }
    if core.usage() == 3 && core.entries() == 3 && core.contains(0, &50) {
        return Shown::Kept;
    }
    Shown::Wrong("the core after the insert behind a resize")
}

// An insert that appends what leaves to a list with room for it. Where it is refused, the same insert goes on with the
// list.
fn lent(alloc: Global, core: &mut Core, wanted: &Wanted) -> Shown {
    let Ok(mut leaves) = Vec::with_capacity(alloc, 16) else {
        return Shown::Early;
    };
    let before = Look::of(core);
    match put_onto(core, &mut leaves) {
        None => appended(core, before, &leaves, wanted, Shown::Done),
        Some(7) if begin(&leaves, 0, wanted) && Look::of(core) == before.without(&leaves) => {
            match put_onto(core, &mut leaves) {
                None => appended(core, before, &leaves, wanted, Shown::Kept),
                Some(_) => Shown::Wrong("refused twice"),
            }
        }
        Some(_) => Shown::Wrong("a refused insert onto a list"),
    }
}

// Puts a record of weight 10 in. Answers the number of its refusal.
fn put_onto(core: &mut Core, leaves: &mut Leaves) -> Option<u8> {
    match core.insert_with_properties_onto(
        0,
        50,
        weighing(10),
        CacheProperties::default(),
        leaves,
    ) {
        Ok(InsertedOnto { entry, answers }) => {
            core.drop_answers(answers);
            drop(core.drop_entry(entry));
            None
        }
        Err(error) => Some(error.number()),
    }
}

// What that record made of the core and of the list.
fn appended(core: &Core, before: Look, leaves: &Leaves, wanted: &Wanted, shown: Shown) -> Shown {
    if leaves.len() != 10 || !begin(leaves, 0, wanted) {
        return Shown::Wrong("what is in the list");
    }
    if Look::of(core) != before.without(leaves).with(50, 10) {
        return Shown::Wrong("the core after the insert onto a list");
    }
    shown
}

// The end of a fetch without a value, which takes no memory.
fn cancelled(core: &mut Core) -> Shown {
    let Ended {
        found,
        answers,
        leaves,
    } = core.cancel(&FETCHED, 0);
    let told = found && answers.waiters.len() == 1 && leaves.is_empty();
    core.drop_answers(answers);
    if told {
        return Shown::Done;
    }
    Shown::Wrong("who is answered")
}
