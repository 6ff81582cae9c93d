//! Books, and audited shards, over the commands of a session.

use crate::cores::one_shard;
use crate::locked::Runtime;
use crate::sessions::{Asked, EvenKeys, Inputs, Kind, Step, Wanted, command, inserting, replied};
use crate::word::Shown;
use foyer_audit::{AuditedShard, Book, Closed, Share};
use foyer_core::{AdmitAll, CacheProperties};
use foyer_policy::{AnyEviction, Error, EvictionConfig, ModHasher, Reason, Result};
use foyer_session::{Command, SimValue, SimWeighter};
use std::alloc::Global;
use std::marker::Brand;
use std::sync::Wait;
use std::sync::ledger::{Blank, Ledger};

type Written = Book<
    AnyEviction,
    u64,
    SimValue,
    CacheProperties,
    ModHasher,
    SimWeighter,
    AdmitAll,
    EvenKeys,
    EvictionConfig,
>;

type Shard<G> = AuditedShard<
    G,
    AnyEviction,
    u64,
    SimValue,
    CacheProperties,
    ModHasher,
    SimWeighter,
    AdmitAll,
    EvenKeys,
    EvictionConfig,
>;

type Part<G> = Share<G, u64, SimValue, CacheProperties, EvenKeys, EvictionConfig>;

/// Shows the call of this name, where it is one of these.
pub fn shown<H: Runtime>(rt: &H, config: &EvictionConfig, name: &str) -> Option<Shown> {
    let alloc = rt.alloc();
    let asked = match name {
        "book_new" => return Some(opened(alloc, || book(alloc, config))),
        "audited_new" => {
            return Some(opened(alloc, || two_shares::<Brand>(alloc, Blank::new(2), config)));
        }
        "book_insert" | "audited_insert" => "step_insert",
        "book_get" | "audited_get" => "step_get",
        "book_lead" | "audited_lead" => "step_lead",
        "book_complete" | "audited_complete" => "step_complete",
        "book_clear" | "audited_clear" => "step_clear",
        _ => return None,
    };
    let Ok(inputs) = Inputs::new(alloc, config) else {
        return Some(Shown::Early);
    };
    if name.starts_with("book_") {
        return in_a_book(alloc, &inputs, asked);
    }
    in_a_shard::<Brand, H>(rt, alloc, Blank::new(1), &inputs, asked)
}

// What is opened once more where that is refused.
fn opened<T: Drop, O: Fn() -> Result<T>>(alloc: Global, open: O) -> Shown {
    match open() {
        Ok(_made) => Shown::Done.or_behind(alloc),
        Err(error) if error.number() == 7 && open().is_ok() => Shown::Kept,
        Err(_) => Shown::Wrong("a refusal"),
    }
}

fn book(alloc: Global, config: &EvictionConfig) -> Result<Written> {
    Written::new(alloc, one_shard(config, 4)?, 0)
}

// An audited shard for so many, which have each a share.
fn shard<G: Ledger>(
    alloc: Global,
    blank: Blank,
    config: &EvictionConfig,
    callers: usize,
) -> Result<(Shard<G>, Vec<Part<G>>)> {
    Shard::<G>::new(alloc, blank, one_shard(config, 4)?, 0, callers)
}

fn two_shares<G: Ledger>(alloc: Global, blank: Blank, config: &EvictionConfig) -> Result<Shard<G>> {
    let (shard, shares) = shard::<G>(alloc, blank, config, 2)?;
    if shares.len() == 2 && shares.iter().all(|share| share.receipts().is_empty()) {
        return Ok(shard);
    }
    Err(Error::new(Reason::NoShards))
}

// What records the commands that it carries out.
trait Records {
    // Carries a command out: its number, and what it told, where a copy of that could be had.
    fn make(&mut self, command: Asked) -> Result<(u64, Option<Step>)>;
}

impl Records for Written {
    fn make(&mut self, command: Asked) -> Result<(u64, Option<Step>)> {
        let number = self.apply(command)?;
        Ok((number, self.reply(number).map(replied)))
    }
}

// An audited shard in the hands of one caller.
#[derive(Drop)]
struct Caller<'a, G: Ledger, H: Wait> {
    rt: &'a H,
    shard: &'a Shard<G>,
    share: Part<G>,
}

impl<G: Ledger, H: Wait> Records for Caller<'_, G, H> {
    fn make(&mut self, command: Asked) -> Result<(u64, Option<Step>)> {
        let (reply, number) = self.shard.call(self.rt, &mut self.share, command)?;
        match self.share.receipts().last() {
            Some(receipt)
                if receipt.number == number && receipt.reply.is_some() == reply.is_some() => {
                Ok((number, reply.as_ref().map(replied)))
            }
            _ => Err(Error::new(Reason::NoShards)),
        }
    }
}

// How many commands are recorded before the call. The list of them is full then.
const BEFORE: u64 = 8;

// The keys 0 to 3 are in, with the handles 0 to 3, the piece 0 is of the key 0, and one waits for the key 9.
fn prepare<R: Records>(records: &mut R) -> Result<()> {
    for key in 0..4u64 {
        granted(records.make(inserting(key))?)?;
    }
    granted(records.make(Command::TakePiece(0))?)?;
    granted(records.make(Command::GetOrFetch(0, 9, None))?)?;
    granted(records.make(Command::Contains(0, 0))?)?;
    granted(records.make(Command::Contains(0, 1))?)
}

fn granted(made: (u64, Option<Step>)) -> Result<()> {
    match made {
        (_, Some(step)) if step.refused.is_none() => Ok(()),
        _ => Err(Error::new(Reason::NoMemory)),
    }
}

fn in_a_book(alloc: Global, inputs: &Inputs<'_>, asked: &str) -> Option<Shown> {
    let Ok(mut book) = book(alloc, inputs.config) else {
        return Some(Shown::Early);
    };
    let Ok(()) = prepare(&mut book) else {
        return Some(Shown::Early);
    };
    let shown = compared(&mut book, inputs, asked)?;
    Some(shown.or_behind(alloc))
}

// The receipts account for the history in the end.
fn in_a_shard<G: Ledger, H: Wait>(
    rt: &H,
    alloc: Global,
    blank: Blank,
    inputs: &Inputs<'_>,
    asked: &str,
) -> Option<Shown> {
    let Ok((shard, mut shares)) = shard::<G>(alloc, blank, inputs.config, 1) else {
        return Some(Shown::Early);
    };
    let mut caller = Caller {
        rt,
        shard: &shard,
        share: shares.pop()?,
    };
    let Ok(()) = prepare(&mut caller) else {
        return Some(Shown::Early);
    };
    let shown = compared(&mut caller, inputs, asked)?;
    let shown = shown.or_behind(alloc);
    let Caller { share, .. } = caller;
    let count = share.receipts().len();
    if shares.push(share).is_err() {
        return Some(Shown::Wrong("a list with room"));
    }
    let Closed { yes, history } = shard.close(shares);
    if yes && history.len() == count {
        return Some(shown);
    }
    Some(Shown::Wrong("the receipts"))
}

// Makes the command of a name until it is not refused, and compares what is recorded with what is wanted.
fn compared<R: Records>(records: &mut R, inputs: &Inputs<'_>, name: &str) -> Option<Shown> {
    let (asked, wanted) = command(inputs, name)?;
    let (gone, next) = match records.make(asked) {
        Ok((BEFORE, Some(step))) if step.refused.is_none() => {
            return Some(if is_wanted(step, 0, wanted) {
                Shown::Done
            } else {
                Shown::Wrong("the answer")
            });
        }
        // A copy of the reply was refused, and the command was made.
        Ok((BEFORE, None)) => return Some(stands(records, wanted, wanted.usage)),
        // The end of a fetch was refused, and the fetch is closed.
        Ok((BEFORE, Some(step))) if step.kind == Some(Kind::Answered) => {
            return Some(stands(records, wanted, 4u128.saturating_sub(step.leaves as u128)));
        }
        Ok((BEFORE, Some(step))) if step.refused == Some(7) => (step.leaves, BEFORE + 1),
        Err(error) if error.number() == 7 => (0, BEFORE),
        _ => return Some(Shown::Wrong("another refusal")),
    };
    if !has(records, next, 4u128.saturating_sub(gone as u128)) {
        return Some(Shown::Wrong("the sums after a refused command"));
    }
    let (asked, wanted) = command(inputs, name)?;
    let told = records.make(asked);
    let is_right = matches!(told, Ok((number, Some(step)))
        if number == next + 1 && step.refused.is_none() && is_wanted(step, gone, wanted));
    if is_right && has(records, next + 2, wanted.usage) {
        return Some(Shown::Kept);
    }
    Some(Shown::Wrong("the same command again"))
}

// Whether a command told what is wanted, once so many had left.
fn is_wanted(step: Step, gone: usize, wanted: Wanted) -> bool {
    step.kind == Some(wanted.kind) && gone + step.leaves == wanted.leaves
}

// A command that was made, once, left this usage, and no fetch of the key 9 open where it was the end of one.
fn stands<R: Records>(records: &mut R, wanted: Wanted, usage: u128) -> Shown {
    if !has(records, BEFORE + 1, usage) {
        return Shown::Wrong("the sums after a command that was made");
    }
    let is_open = match records.make(Command::IsOpen(9, 0)) {
        Ok((_, Some(step))) => step.kind == Some(Kind::Yes),
        _ => return Shown::Wrong("whether a fetch is open"),
    };
    if is_open == (wanted.kind == Kind::Answered) {
        return Shown::Wrong("a fetch that ended");
    }
    Shown::Kept
}

// Whether a question for the usage has this number, and this answer.
fn has<R: Records>(records: &mut R, number: u64, usage: u128) -> bool {
    match records.make(Command::Usage) {
        Ok((at, Some(step))) => at == number && step.number == Some(usage),
        _ => false,
    }
}
