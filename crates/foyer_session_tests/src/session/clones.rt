// Clones of commands and replies.

use super::fetches::two_wait;
use super::*;
use foyer_policy::Source;
use foyer_session::End;

#[test]
fn commands_and_replies_can_be_cloned(rt: HostRuntime) -> Result<(), Fail> {
    let mut session = filled(rt.alloc(), 1)?;
    let command: Plain = insert(1, 11);
    assert!(rt; command.clone()? == command);
    let reply = session.step(command)?;
    assert!(rt; reply.clone()? == reply);
    Ok(())
}

#[test]
fn an_answer_to_all_can_be_cloned(rt: HostRuntime) -> Result<(), Fail> {
    let mut session = session::<Fifo>(rt.alloc(), 4)?;
    two_wait(&rt, &mut session)?;
    let end = End::Value(70, CacheProperties::default(), Source::Outer);
    let reply = session.step(Plain::Complete(0, 7, 0, end))?;
    assert!(rt; reply.clone()? == reply);
    Ok(())
}
