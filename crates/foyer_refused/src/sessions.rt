//! The commands of a session, and sessions that run lines.

use crate::cores::{one_shard, weighing};
use crate::word::Shown;
use foyer_core::{AdmitAll, CacheCore, CacheProperties};
use foyer_policy::{AnyEviction, Error, EvictionConfig, Fault, ModHasher, Reason, Result, Source};
use foyer_session::{Answer, Command, End, Predicate, Reply, Session, SimValue, SimWeighter};
use std::alloc::Global;
use std::sync::Arc;

/// A session over the values of a program.
pub type Simulated = Session<
    AnyEviction,
    u64,
    SimValue,
    CacheProperties,
    ModHasher,
    SimWeighter,
    AdmitAll,
>;

/// A command of it.
pub type Asked = Command<u64, SimValue, CacheProperties, EvenKeys, EvictionConfig>;

/// What it answers.
pub type Told = Reply<u64, SimValue, CacheProperties>;

/// What commands are made of: the policy's configuration, and the fault with which a fetch fails.
#[derive(Drop)]
pub struct Inputs<'a> {
    pub config: &'a EvictionConfig,
    fault: Arc<Fault>,
}

impl<'a> Inputs<'a> {
    pub fn new(alloc: Global, config: &'a EvictionConfig) -> Result<Self> {
        let fault = Fault {
            code: 5,
            message: String::new(alloc),
        };
        let fault = Arc::new(alloc, fault).map_err(|_| Error::new(Reason::NoMemory))?;
        Ok(Inputs { config, fault })
    }
}

/// Picks even keys.
#[derive(Clone, Copy, PartialEq, Eq)]
pub struct EvenKeys;

impl Predicate<u64, SimValue> for EvenKeys {
    ghost use Rattle.std.specs.Prelude.{◌≡◌, ◌%◌, ◌==◌};

    ghost picks = { λ _ key _ answer. answer ≡ (key % 2 == 0) };

    fn pick(&self, key: &u64, _value: &SimValue) -> bool {
        *key % 2 == 0
    }
}

/// A session over an empty core of one shard, of capacity 4.
pub fn empty(alloc: Global, config: &EvictionConfig) -> Result<Simulated> {
    let core = CacheCore::new(alloc, one_shard(config, 4)?)?;
    Ok(Session::new(alloc, core))
}

/// What a command answers.
#[derive(Clone, Copy, PartialEq, Eq)]
pub enum Kind {
    Entry,
    Found,
    Piece,
    Token,
    Answered,
    Yes,
    No,
    Done,
    Number,
}

/// What a command answers, how many records leave, and the usage then.
#[derive(Clone, Copy)]
pub struct Wanted {
    pub kind: Kind,
    pub leaves: usize,
    pub usage: u128,
}

/// The command of a name, in a session of capacity 4 whose records are the keys 0 to 3, and what is wanted of it.
pub fn command(inputs: &Inputs<'_>, name: &str) -> Option<(Asked, Wanted)> {
    let (command, kind, leaves, usage) = match name {
        "step_insert" | "run" => (inserting(7), Kind::Entry, 1, 4),
        "step_insert_piece" => (Command::InsertPiece(0, 0), Kind::Entry, 0, 4),
        "step_get" => (Command::Get(0, 2), Kind::Found, 0, 4),
        "step_contains" => (Command::Contains(0, 2), Kind::Yes, 0, 4),
        "step_touch" => (Command::Touch(0, 2), Kind::Yes, 0, 4),
        "step_remove" => (Command::Remove(2), Kind::Found, 1, 3),
        "step_clone" => (Command::Clone(1), Kind::Found, 0, 4),
        "step_drop" => (Command::Drop(1), Kind::Done, 0, 4),
        "step_take_piece" => (Command::TakePiece(1), Kind::Piece, 0, 4),
        "step_refs" => (Command::Refs(1), Kind::Number, 0, 4),
        "step_outdated" => (Command::Outdated(1), Kind::No, 0, 4),
        "step_lead" => (Command::GetOrFetch(0, 8, None), Kind::Token, 0, 4),
        "step_wait" => (Command::GetOrFetch(0, 9, Some(5)), Kind::Token, 0, 4),
        "step_complete" => {
            let end = End::Value(weighing(1), CacheProperties::default(), Source::Outer);
            (Command::Complete(0, 9, 0, end), Kind::Answered, 1, 4)
        }
        "step_fail" => {
            let fault = Arc::try_clone(&inputs.fault).ok()?;
            (Command::Fail(9, 0, fault), Kind::Answered, 0, 4)
        },
        "step_cancel" => (Command::Cancel(9, 0), Kind::Answered, 0, 4),
        "step_fetch_or_take" => (Command::FetchOrTake(9, 0, None), Kind::Answered, 0, 4),
        "step_is_open" => (Command::IsOpen(9, 0), Kind::Yes, 0, 4),
        "step_clear" => (Command::Clear, Kind::Done, 4, 0),
        "step_evict_all" => (Command::EvictAll(0), Kind::Done, 4, 0),
        "step_flush_if" => (Command::FlushIf(EvenKeys), Kind::Done, 2, 2),
        "step_resize" => (Command::Resize(0, 2), Kind::Done, 2, 2),
        "step_reconfigure" => {
            let config = inputs.config.clone().ok()?;
            (Command::Reconfigure(config), Kind::Done, 0, 4)
        }
        "step_capacity" => (Command::Capacity, Kind::Number, 0, 4),
        "step_usage" => (Command::Usage, Kind::Number, 0, 4),
        "step_entries" => (Command::Entries, Kind::Number, 0, 4),
        _ => return None,
    };
    let wanted = Wanted {
        kind,
        leaves,
        usage,
    };
    Some((command, wanted))
}

/// The insert of a key.
pub fn inserting(key: u64) -> Asked {
    Command::Insert(0, key, weighing(1), CacheProperties::default())
}

/// Shows the command of this name, where there is one.
pub fn shown(alloc: Global, config: &EvictionConfig, name: &str) -> Option<Shown> {
    if !name.starts_with("step_") && name != "run" {
        return None;
    }
    let Ok(mut session) = prepared(alloc, config) else {
        return Some(Shown::Early);
    };
    let Ok(inputs) = Inputs::new(alloc, config) else {
        return Some(Shown::Early);
    };
    stepped(alloc, &mut session, &inputs, name)
}

// The keys 0 to 3 are in, with the handles 0 to 3, the piece 0 is of the key 0, and one waits for the key 9.
fn prepared(alloc: Global, config: &EvictionConfig) -> Result<Simulated> {
    let mut session = empty(alloc, config)?;
    for key in 0..4u64 {
        granted(session.step(inserting(key))?)?;
    }
    granted(session.step::<EvenKeys>(Command::TakePiece(0))?)?;
    granted(session.step::<EvenKeys>(Command::GetOrFetch(0, 9, None))?)?;
    Ok(session)
}

/// What a reply refuses.
pub fn granted(reply: Told) -> Result<()> {
    let Reply { answer, leaves: _ } = reply;
    match answer {
        Answer::Refused(error) => Err(error),
        _ => Ok(()),
    }
}

/// What a command told: whether it was made, the refusal's number, what it answered, how many left, and the number that
/// it answered.
#[derive(Clone, Copy)]
pub struct Step {
    pub is_made: bool,
    pub refused: Option<u8>,
    pub kind: Option<Kind>,
    pub leaves: usize,
    pub number: Option<u128>,
}

// Makes a command, or a run of it alone.
fn make(alloc: Global, session: &mut Simulated, command: Asked, runs: bool) -> Step {
    let told = if runs {
        run(alloc, session, command)
    } else {
        session.step(command).map(|reply| replied(&reply))
    };
    told.unwrap_or_else(|error| Step {
        is_made: false,
        refused: Some(error.number()),
        kind: None,
        leaves: 0,
        number: None,
    })
}

fn run(alloc: Global, session: &mut Simulated, command: Asked) -> Result<Step> {
    let mut commands = Vec::new(alloc);
    commands.push(command)?;
    let replies = session.run(commands)?;
    replies
        .first()
        .map(replied)
        .ok_or(Error::new(Reason::NoShards))
}

/// What a reply tells.
pub fn replied(reply: &Told) -> Step {
    let (kind, refused) = answered(&reply.answer);
    Step {
        is_made: true,
        refused,
        kind,
        leaves: reply.leaves.as_slice().len(),
        number: match &reply.answer {
            Answer::Number(number) => Some(*number),
            _ => None,
        },
    }
}

// What an answer is, and the number of its refusal.
fn answered(answer: &Answer<u64, SimValue, CacheProperties>) -> (Option<Kind>, Option<u8>) {
    match answer {
        Answer::Entry { .. } => (Some(Kind::Entry), None),
        Answer::Found { .. } => (Some(Kind::Found), None),
        Answer::PieceNo(_) => (Some(Kind::Piece), None),
        Answer::Lead { .. } | Answer::Wait { .. } => (Some(Kind::Token), None),
        Answer::Answered { answers, .. } => {
            let fault = match answers.fault() {
                Some(error) if error.number() == 7 => Some(7),
                _ => None,
            };
            (Some(Kind::Answered), fault)
        }
        Answer::Yes => (Some(Kind::Yes), None),
        Answer::No => (Some(Kind::No), None),
        Answer::Done => (Some(Kind::Done), None),
        Answer::Number(_) => (Some(Kind::Number), None),
        Answer::Refused(error) => (None, Some(error.number())),
        _ => (None, None),
    }
}

// Makes the command of a name until it is not refused, and compares the sums with those that are wanted.
fn stepped(
    alloc: Global,
    session: &mut Simulated,
    inputs: &Inputs<'_>,
    name: &str,
) -> Option<Shown> {
    let runs = name == "run";
    let (asked, wanted) = command(inputs, name)?;
    let first = make(alloc, session, asked, runs);
    let Some(number) = first.refused else {
        return Some(settled(session, wanted, first, 0));
    };
    if number != 7 {
        return Some(Shown::Wrong("another refusal"));
    }
    let gone = first.leaves as u128;
    if session.usage() != 4u128.saturating_sub(gone) || session.entries() != session.usage() {
        return Some(Shown::Wrong("the sums after a refused command"));
    }
    if first.leaves > 0 && !(first.is_made && wanted.leaves > 0) {
        return Some(Shown::Wrong("what left a refused command"));
    }
    if first.kind == Some(Kind::Answered) {
        return Some(Shown::Kept);
    }
    let (asked, _) = command(inputs, name)?;
    let second = make(alloc, session, asked, runs);
    Some(settled(session, wanted, second, first.leaves).behind_a_refusal())
}

// Whether a command answered what is wanted, once so many had left.
fn settled(session: &Simulated, wanted: Wanted, step: Step, gone: usize) -> Shown {
    if step.refused.is_some() || step.kind != Some(wanted.kind) {
        return Shown::Wrong("the answer");
    }
    if gone.saturating_add(step.leaves) != wanted.leaves {
        return Shown::Wrong("how many left");
    }
    if session.usage() != wanted.usage || session.entries() != wanted.usage {
        return Shown::Wrong("the sums");
    }
    Shown::Done
}
