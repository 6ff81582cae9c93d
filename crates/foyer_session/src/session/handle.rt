//! The handles that a session handed out.

ghost use Rattle.std.specs.Prelude.{◌≡◌, ℕ, ◌<◌, ◌++◌, ◌∷◌, [], Some, None, true, false, IfNone, IfSome, length, slice_set, vec_len, vec_capacity};
ghost use Rattle.foyer_session.specs.Step.{held_at, record_of};

use foyer_core::{CoreEntry, Left};
use std::marker::Model;

/// A handle that was handed out, or the place of one that was dropped.
pub struct Handle<K: Drop, V: Drop, P: Drop> {
    entry: Option<CoreEntry<K, V, P>>,
}

impl<K: Drop, V: Drop, P: Drop> Model for Handle<K, V, P> {
    ghost use Rattle.std.specs.Prelude.{Option};
    ghost use Rattle.foyer_core.specs.Values.{Held};

    ghost Value = { Option (Held K V P) };

    ghost view = { λ h. h.entry };
}

impl<K: Drop, V: Drop, P: Drop> Drop for Handle<K, V, P> {
    fn drop(self) {
        let Handle { entry } = self;
        if let Some(entry) = entry {
            entry.discard();
        }
    }
}

impl<K: Drop, V: Drop, P: Drop> Handle<K, V, P> {
    fn new(entry: CoreEntry<K, V, P>) -> Self
        ensures { result ≡ Some entry }
    {
        Handle { entry: Some(entry) }
    }

    fn entry(&self) -> Option<&CoreEntry<K, V, P>>
        ensures some { IfSome result (λ entry. self.now ≡ Some entry.now) }
        ensures none { IfNone result (self.now ≡ None) }
    {
        self.entry.as_ref()
    }

    fn take(&mut self) -> Option<CoreEntry<K, V, P>>
        ensures entry { result ≡ self.old }
        ensures gone { self.new ≡ None }
    {
        self.entry.take()
    }
}

/// Hands out a new entry, for which there is room, and returns its number and its record.
pub fn hand_out<K: Drop, V: Drop, P: Drop>(
    handles: &mut Vec<Handle<K, V, P>>,
    mut entry: CoreEntry<K, V, P>,
) -> (u64, Left<K, V, P>)
    requires room { vec_len handles.old < vec_capacity handles.old }
    requires untold { entry.left ≡ true }
    ensures number { result.0 ≡ length handles.old.items }
    ensures record { result.1 ≡ record_of entry }
    ensures handles { handles.new.items ≡ handles.old.items ++ Some (record entry { left = false }) ∷ [] }
    ensures capacity { vec_capacity handles.new ≡ vec_capacity handles.old }
{
    let number = handles.len() as u64;
    let Some(told) = entry.left() else {
        unreachable!();
    };
    handles.push_reserved(Handle::new(entry));
    (number, told)
}

/// Takes the entry of a number, if it is held.
pub fn take<K: Drop, V: Drop, P: Drop>(
    handles: &mut Vec<Handle<K, V, P>>,
    number: u64,
) -> Option<CoreEntry<K, V, P>>
    ensures entry { result ≡ held_at handles.old.items number }
    ensures handles { handles.new.items ≡ slice_set handles.old.items number None }
    ensures none { IfNone result (handles.new.items ≡ handles.old.items) }
    ensures capacity { vec_capacity handles.new ≡ vec_capacity handles.old }
{
    let at = number as usize;
    if at >= handles.len() {
        return None;
    }
    handles[at].take()
}

/// Returns the entry of a number, if it is held.
pub fn held<K: Drop, V: Drop, P: Drop>(
    handles: &[Handle<K, V, P>],
    number: u64,
) -> Option<&CoreEntry<K, V, P>>
    ensures some { IfSome result (λ entry. held_at handles.now number ≡ Some entry.now) }
    ensures none { IfNone result (held_at handles.now number ≡ None) }
{
    let at = number as usize;
    if at >= handles.len() {
        return None;
    }
    handles[at].entry()
}
