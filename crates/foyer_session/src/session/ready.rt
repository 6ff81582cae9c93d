//! Commands with the room that they need.

ghost use Rattle.std.specs.Prelude.{◌≡◌, ℕ, ◌<◌, IfOk, IfErr, map, vec_len, vec_capacity};
ghost use Rattle.foyer_policy.specs.declared.error.Reason.TheVariants.{NoMemory};
ghost use Rattle.foyer_session.specs.Step.{leaves_of};
ghost use Rattle.foyer_session.specs.declared.command.Command.TheVariants.{Drop as GiveBack, Remove};

use crate::command::Command;
use foyer_core::Left;
use foyer_policy::{Error, Event, Reason, Result};
use std::alloc::Global;

/// A command, with room for the one removal that it may report: a `Drop` or a `Remove`.
#[derive(Drop)]
pub struct Ready<K: Drop, V: Drop, P: Drop, Q: Drop, C: Drop> {
    pub command: Command<K, V, P, Q, C>,
    pub leaves: Vec<(Event, Left<K, V, P>)>,
    pub ghost empty: { vec_len leaves ≡ 0 },
    pub ghost gives_back: { (number : ℕ) → command ≡ GiveBack number → 0 < vec_capacity leaves },
    pub ghost removes: { (key : K) → command ≡ Remove key → 0 < vec_capacity leaves },
}

impl<K: Drop, V: Drop, P: Drop, Q: Drop, C: Drop> Ready<K, V, P, Q, C> {
    /// Makes the room. Fails only with F7.
    pub fn new(alloc: Global, command: Command<K, V, P, Q, C>) -> Result<Self>
        ensures command { IfOk result (λ ready. ready.command ≡ command) }
        ensures refused { IfErr result (λ e. e ≡ NoMemory) }
    {
        let leaves = room_for(alloc, &command)?;
        Ok(Ready { command, leaves })
    }
}

// An empty list, with room for the removal that the command may report.
fn room_for<K: Drop, V: Drop, P: Drop, Q: Drop, C: Drop>(
    alloc: Global,
    command: &Command<K, V, P, Q, C>,
) -> Result<Vec<(Event, Left<K, V, P>)>>
    ensures empty { IfOk result (λ leaves. vec_len leaves ≡ 0) }
    ensures gives_back { IfOk result (λ leaves. (number : ℕ) → command.now ≡ GiveBack number → 0 < vec_capacity leaves) }
    ensures removes { IfOk result (λ leaves. (key : K) → command.now ≡ Remove key → 0 < vec_capacity leaves) }
    ensures refused { IfErr result (λ e. e ≡ NoMemory) }
{
    match command {
        Command::Drop(_) | Command::Remove(_) => match Vec::with_capacity(alloc, 1) {
            Ok(leaves) => Ok(leaves),
            Err(_) => Err(Error::new(Reason::NoMemory)),
        },
        Command::Insert(_, _, _, _)
        | Command::Get(_, _)
        | Command::Contains(_, _)
        | Command::Touch(_, _)
        | Command::Clone(_)
        | Command::TakePiece(_)
        | Command::InsertPiece(_, _)
        | Command::Refs(_)
        | Command::Outdated(_)
        | Command::GetOrFetch(_, _, _)
        | Command::Complete(_, _, _, _)
        | Command::Fail(_, _, _)
        | Command::Cancel(_, _)
        | Command::FetchOrTake(_, _, _)
        | Command::IsOpen(_, _)
        | Command::Clear
        | Command::EvictAll(_)
        | Command::FlushIf(_)
        | Command::Resize(_, _)
        | Command::Reconfigure(_)
        | Command::Capacity
        | Command::Usage
        | Command::Entries => Ok(Vec::new(alloc)),
    }
}

/// Makes the room for each command. Fails only with F7.
pub fn ready_all<K: Drop, V: Drop, P: Drop, Q: Drop, C: Drop>(
    alloc: Global,
    commands: Vec<Command<K, V, P, Q, C>>,
) -> Result<Vec<Ready<K, V, P, Q, C>>>
    ensures commands { IfOk result (λ all. map (λ ready. ready.command) all.items ≡ commands.items) }
    ensures refused { IfErr result (λ e. e ≡ NoMemory) }
{
    let Ok(mut all) = Vec::with_capacity(alloc, commands.len()) else {
        return Err(Error::new(Reason::NoMemory));
    };
    for command in commands {
        let ready = Ready::new(alloc, command)?;
        let Ok(()) = all.push(ready) else {
            return Err(Error::new(Reason::NoMemory));
        };
    }
    Ok(all)
}

/// Appends the removal, if there is one, to an empty list with room for it.
pub fn with_leave<K: Drop, V: Drop, P: Drop>(
    mut leaves: Vec<(Event, Left<K, V, P>)>,
    leave: Option<(Event, Left<K, V, P>)>,
) -> Vec<(Event, Left<K, V, P>)>
    requires empty { vec_len leaves ≡ 0 }
    requires room { 0 < vec_capacity leaves }
    ensures { result.items ≡ leaves_of leave }
{
    if let Some(leave) = leave {
        leaves.push_reserved(leave);
    }
    leaves
}
