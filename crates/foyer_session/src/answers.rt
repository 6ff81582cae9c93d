//! What waiters get.

ghost use Rattle.std.specs.Prelude.{◌≡◌, ◌==◌, Err, IfSome, IfNone, All, map, slice_get, length, option_map, option_and_then, vec_len};
ghost use Rattle.foyer_session.specs.Tokens.{Fits, Fits-prop, got_by, handle_in, IsNoFault, numbers_of};

use foyer_core::Waiting;
use foyer_policy::Error;
use std::marker::Model;

mod alike;

/// What the waiters get.
#[derive(Drop)]
pub(crate) enum Gets {
    // A handle each, numbered from this one on.
    Handles(u64),
    // Nothing.
    Nothing,
    // The one error for all.
    Fault(Error),
}

/// The tokens of the waiters, in order, each with what it got: the number of a handle, nothing, or the one error for
/// all. Contracts see a list of pairs.
#[derive(Drop)]
pub struct Answers {
    waiters: Vec<Waiting<()>>,
    gets: Gets,
    // each handle has a number
    ghost fits: { Fits gets (vec_len waiters) } by { Fits-prop gets (vec_len waiters) },
}

impl Model for Answers {
    ghost use Rattle.std.specs.Prelude.{ℕ, List, Option, Result};
    ghost use Rattle.foyer_policy.specs.declared.error.Reason.{Reason};
    ghost use Rattle.foyer_session.specs.Tokens.{got_by, numbers_of};

    ghost Value = { List (ℕ × Result (Option ℕ) Reason) };

    ghost view = { λ a. got_by a.gets (numbers_of a.waiters.items) };
}

impl Answers {
    pub(crate) fn new(waiters: Vec<Waiting<()>>, gets: Gets) -> Self
        requires { Fits gets (vec_len waiters) }
        ensures { result ≡ got_by gets (numbers_of waiters.items) }
    {
        Answers { waiters, gets }
    }

    /// Returns the number of waiters.
    pub fn len(&self) -> usize
        ensures { result ≡ length self.now }
    {
        self.waiters.len()
    }

    /// Returns whether nobody waited.
    pub fn is_empty(&self) -> bool
        ensures { result ≡ (length self.now == 0) }
    {
        self.waiters.is_empty()
    }

    /// Returns the token at a position of the list.
    pub fn token(&self, at: usize) -> Option<u64>
        ensures { result ≡ option_map (λ got. got.0) (slice_get self.now at) }
    {
        let waiting = self.waiters.get(at)?;
        Some(waiting.token)
    }

    /// Returns the number of the handle that the token at a position got, if it got one.
    pub fn handle(&self, at: usize) -> Option<u64>
        ensures { result ≡ option_and_then (λ got. handle_in got.1) (slice_get self.now at) }
    {
        match &self.gets {
            Gets::Handles(first) => {
                if at < self.waiters.len() {
                    Some(*first + at as u64)
                } else {
                    None
                }
            }
            Gets::Nothing => None,
            Gets::Fault(_) => None,
        }
    }

    /// Returns the error that all waiters got, if they got one.
    pub fn fault(&self) -> Option<&Error>
        ensures some { IfSome result (λ error. All (λ got. got.1 ≡ Err error.now) self.now) }
        ensures none { IfNone result (All (λ got. IsNoFault got.1) self.now) }
    {
        match &self.gets {
            Gets::Fault(error) => Some(error),
            Gets::Handles(_) => None,
            Gets::Nothing => None,
        }
    }
}
