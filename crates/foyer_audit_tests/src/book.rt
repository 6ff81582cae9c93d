//! Books in one thread's hands.

use crate::testing::{Outcome, command, config, insert, is_keyed, next, session};
use foyer_audit::Book;
use foyer_core::{AdmitAll, CacheProperties, UnitWeighter};
use foyer_policy::{Fifo, FifoConfig, ModHasher};
use foyer_session::{Answer, Command, NoPredicate};

type PlainBook = Book<
    Fifo,
    u64,
    u64,
    CacheProperties,
    ModHasher,
    UnitWeighter,
    AdmitAll,
    NoPredicate,
    FifoConfig,
>;

#[test]
fn each_call_has_its_number_and_reply(rt: HostRuntime) -> Outcome {
    let alloc = rt.alloc();
    // Keys 1, 3, 5 and so on live in shard 1 of 2.
    let mut book: PlainBook = Book::new(alloc, config(5, 2), 1)?;
    assert_eq!(rt; book.apply(insert(1, 10))?, 0);
    assert_eq!(rt; book.apply(insert(2, 20))?, 1);
    assert_eq!(rt; book.apply(Command::Get(0, 1))?, 2);
    assert_eq!(rt; book.apply(Command::Contains(0, 2))?, 3);
    assert_eq!(rt; book.apply(Command::Capacity)?, 4);
    assert!(rt;
        matches!(book.reply(0), Some(reply) if matches!(reply.answer, Answer::Entry { handle: 0, .. }))
    );
    assert!(rt; matches!(book.reply(1), Some(reply) if matches!(reply.answer, Answer::NotHeld)));
    assert!(rt;
        matches!(book.reply(2), Some(reply) if matches!(reply.answer, Answer::Found { handle: 1, .. }))
    );
    assert!(rt; matches!(book.reply(3), Some(reply) if matches!(reply.answer, Answer::NotHeld)));
    assert!(rt; matches!(book.reply(4), Some(reply) if matches!(reply.answer, Answer::Number(2))));
    assert!(rt; book.reply(5).is_none());
    Ok(())
}

// A history, made again in a fresh session, gives the same replies.
#[test]
fn a_fresh_session_replies_the_same(rt: HostRuntime) -> Outcome {
    let alloc = rt.alloc();
    let mut book: PlainBook = Book::new(alloc, config(9, 2), 0)?;
    let mut fresh = session(alloc, 9, 2, 0)?;
    let mut number = 1u64;
    let mut elsewhere = 0u64;
    for _ in 0..500 {
        let key = (number >> 40) % 16;
        let asked = command(alloc, number, key)?;
        let at = book.apply(asked.clone()?)?;
        let recorded = book.reply(at).ok_or("no reply")?;
        if key % 2 == 1 && is_keyed(number) {
            assert!(rt; matches!(recorded.answer, Answer::NotHeld));
            elsewhere = elsewhere.saturating_add(1);
        } else {
            let replied = fresh.step(asked)?;
            assert!(rt; replied == *recorded);
        }
        number = next(number);
    }
    // About half of the keyed commands are of the other shard.
    assert!(rt; elsewhere > 100);
    Ok(())
}
