//! Equality of commands and of replies, under names that contracts can use.

use foyer_session::{Command, Reply};

/// Compares commands whose `FlushIf` has this predicate, and replies to them, by `==`. Every predicate with `==`
/// implements it.
pub trait Compared<K, V, P, C>: Sized {
    ghost use Rattle.std.specs.Prelude.{◌≡◌, Bool};
    ghost use Rattle.foyer_session.specs.declared.command.Command.{Command};
    ghost use Rattle.foyer_session.specs.declared.command.Reply.{Reply};

    // whether two commands are equal
    ghost same: { Command K V P Self C → Command K V P Self C → Bool };

    // whether two replies are equal
    ghost alike: { Reply K V P → Reply K V P → Bool };

    /// Returns whether two commands are equal.
    fn are_same(one: &Command<K, V, P, Self, C>, other: &Command<K, V, P, Self, C>) -> bool
        ensures { result ≡ same one.now other.now };

    /// Returns whether two replies are equal.
    fn are_alike(one: &Reply<K, V, P>, other: &Reply<K, V, P>) -> bool
        ensures { result ≡ alike one.now other.now };
}

impl<K: PartialEq, V: PartialEq, P: PartialEq, Q: PartialEq, C: PartialEq> Compared<K, V, P, C>
    for Q {
    ghost same = { ⟦<Command<K, V, P, Q, C> as PartialEq>⟧.eq };

    ghost alike = { ⟦<Reply<K, V, P> as PartialEq>⟧.eq };

    fn are_same(one: &Command<K, V, P, Q, C>, other: &Command<K, V, P, Q, C>) -> bool {
        one == other
    }

    fn are_alike(one: &Reply<K, V, P>, other: &Reply<K, V, P>) -> bool {
        one == other
    }
}
