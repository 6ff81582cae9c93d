//! Listeners, which are told of what leaves.

use crate::pipe::Pipe;
use foyer_core::Left;
use foyer_policy::{Event, EventListener, Key, Properties, Value};
use std::marker::PhantomData;

/// A listener that does nothing.
pub struct NoListener<K, V>(PhantomData<(K, V)>);

impl<K, V> NoListener<K, V> {
    /// Creates a listener that does nothing.
    pub fn new() -> Self {
        NoListener(PhantomData)
    }
}

impl<K, V> Drop for NoListener<K, V> {
    fn drop(self) {
        let NoListener(_) = self;
    }
}

impl<K: 'static, V: 'static> EventListener for NoListener<K, V> {
    type Key = K;

    type Value = V;

    fn on_leave(&self, _event: Event, _key: &K, _value: &V) {}
}

/// Tells the listener of a record that left, and then the pipe, if the record was evicted and there is an enabled one.
pub fn tell<K, V, P, L, Q>(listener: &L, pipe: Option<&Q>, event: Event, left: Left<K, V, P>)
where
    K: Key,
    V: Value,
    P: Properties,
    L: EventListener<Key = K, Value = V>,
    Q: Pipe<Key = K, Value = V, Properties = P>,
{
    listener.on_leave(event, left.key(), left.value());
    if event != Event::Evict {
        return;
    }
    let Some(pipe) = pipe else {
        return;
    };
    if pipe.is_enabled() {
        pipe.send(left.piece());
    }
}
