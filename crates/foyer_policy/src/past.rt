//! A value as it was, for contracts only.

ghost use Rattle.std.specs.Prelude.{◌≡◌};
ghost use Rattle.std.specs.Borrow.{ftrue};

use std::marker::{Model, PhantomData, Send, Sync};

/// A value as it was, which only contracts read and which takes no memory.
///
/// It is std's `Snapshot` that is also `Send` and `Sync`, as a struct that holds one needs to be if threads share it.
pub struct Past<T> {
    of: PhantomData<T>,
    pub ghost value: { T },
}

impl<T> Model for Past<T> {
    ghost also_owns = { λ _. ftrue };
}

// It owns nothing.
unsafe impl<T> Send for Past<T> {}

// It lends nothing.
unsafe impl<T> Sync for Past<T> {}

impl<T> Past<T> {
    /// Keeps the value as it is now.
    pub fn of(value: &T) -> Past<T>
        ensures { result.value ≡ value.now }
    {
        let _ = value;
        Past { of: PhantomData }
    }
}

impl<T> Drop for Past<T> {
    fn drop(self) {
        let Past { of: _ } = self;
    }
}
