//! A future that may be polled, with the fact in its type.

ghost use Rattle.std.specs.Prelude.{◌≡◌};

use futures::Future;

/// A future that may be polled.
///
/// A builder keeps one: the fact that it may be polled has to last under a lock, where no clause can follow it.
#[derive(Drop)]
pub struct Pollable<F: Future> {
    future: F,
    ghost can_poll: { ∥ F.can_poll future ∥₁ },
}

impl<F: Future> Pollable<F> {
    /// Keeps a future that may be polled.
    pub fn new(future: F) -> Pollable<F>
        requires { F.can_poll future }
        ensures { result.future ≡ future }
    {
        Pollable { future }
    }

    /// Returns the future, which may be polled.
    pub fn into_inner(self) -> F
        ensures { F.can_poll result }
    {
        let Pollable { future } = self;
        future
    }
}
