//! Pipes, which take what was evicted.

ghost use Rattle.std.specs.Prelude.{◌≡◌, IsSome};

use foyer_core::{CacheProperties, Piece};
use futures::Future;
use futures::future::{Ready, ready};
use std::fmt::{self, Debug};
use std::marker::PhantomData;

/// Takes pieces of evicted records, for example to write them to a disk. Called with no lock held.
pub trait Pipe: Drop + 'static {
    /// The cache's key.
    type Key;

    /// The cache's value.
    type Value;

    /// The cache's properties.
    type Properties;

    /// The future that a flush waits for.
    type Flush: Future<Output = ()>;

    /// Returns whether the pipe takes pieces.
    fn is_enabled(&self) -> bool;

    /// Takes one piece.
    fn send(&self, piece: Piece<Self::Key, Self::Value, Self::Properties>);

    /// Takes many pieces, and returns a future that ends once they are where they go. It may be polled.
    fn flush(&self, pieces: Vec<Piece<Self::Key, Self::Value, Self::Properties>>) -> Self::Flush
        ensures { Self.Flush.can_poll result };
}

/// A pipe that is never enabled and does nothing.
pub struct NoopPipe<K, V, P = CacheProperties>(PhantomData<(K, V, P)>);

impl<K, V, P> Drop for NoopPipe<K, V, P> {
    fn drop(self) {
        let NoopPipe(_) = self;
    }
}

impl<K, V, P> Default for NoopPipe<K, V, P> {
    ghost is_default = { λ _. Unit {0} };

    fn default() -> Self {
        NoopPipe(PhantomData)
    }
}

impl<K, V, P> Debug for NoopPipe<K, V, P> {
    fn fmt<W: fmt::Write>(&self, f: &mut fmt::Formatter<W>) -> fmt::Result {
        f.debug_struct("NoopPipe").finish()
    }
}

impl<K: Drop + 'static, V: Drop + 'static, P: Drop + 'static> Pipe for NoopPipe<K, V, P> {
    type Key = K;

    type Value = V;

    type Properties = P;

    type Flush = Ready<()>;

    fn is_enabled(&self) -> bool {
        false
    }

    fn send(&self, _piece: Piece<K, V, P>) {}

    fn flush(&self, _pieces: Vec<Piece<K, V, P>>) -> Ready<()>
        ensures { IsSome result.0 }
    {
        ready(())
    }
}
