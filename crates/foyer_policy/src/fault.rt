//! Errors as faults, so that what fetches a value can use `?`.

ghost use Rattle.std.specs.Prelude.{◌≡◌, ℕ, Result, Ok, IsErrAnd, MatchResult};
ghost use Rattle.foyer_policy.specs.declared.error.Fault.{Fault};

use crate::error::Fault;
use std::alloc::Global;
use std::fmt::Display;

/// Turns the error of a `Result` into a [`Fault`].
///
/// An allocation in a fetch is written `bytes.push(1).or_fault(alloc, 0)?`. A bare `?` can't be: a fault has a
/// `String`, and no `String` is made without an allocator, not even an empty one.
pub trait OrFault<T> {
    // Holds of a result and a code, and of what `or_fault` may return for them.
    ghost or_fault_gives: { Self → ℕ → Result T Fault → Type 0 };

    /// Turns an error into a fault with this code. Its message is the error's text, or empty if memory runs out.
    fn or_fault(self, alloc: Global, code: u64) -> Result<T, Fault>
        ensures { or_fault_gives self code result };
}

impl<T: Drop, E: Display + Drop> OrFault<T> for Result<T, E> {
    ghost or_fault_gives = { λ given code result. MatchResult given (λ value. result ≡ Ok value)
        (λ _. IsErrAnd result (λ fault. fault.code ≡ code)) };

    fn or_fault(self, alloc: Global, code: u64) -> Result<T, Fault> {
        match self {
            Ok(value) => Ok(value),
            Err(error) => {
                let message = match error.to_string(alloc) {
                    Ok(message) => message,
                    Err(_) => String::new(alloc),
                };
                Err(Fault { code, message })
            }
        }
    }
}
