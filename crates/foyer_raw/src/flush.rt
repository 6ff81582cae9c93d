//! The futures of flushes.

ghost use Rattle.std.specs.Prelude.{◌≡◌, IfSome, IsSomeAnd, MatchOption, MatchResult, None, Some, Ok, Err};

use foyer_policy::{Error, Result};
use futures::Future;
use futures::task::{Context, Poll};

/// The future of a flush, which ends once the pipe has taken the pieces.
///
/// The evictions were made before it was returned. It gives the error of the flush, if there was one.
#[derive(Drop)]
pub struct Flush<F: Future<Output = ()>> {
    inner: Option<F>,
    refused: Option<Error>,
}

/// The future of a flush by a predicate.
pub type FlushIf<F> = Flush<F>;

impl<F: Future<Output = ()>> Flush<F> {
    // Makes a flush that waits for this future, which may be polled, and then gives this result.
    pub(crate) fn new(inner: Option<F>, done: Result<()>) -> Self
        requires { IfSome inner F.can_poll }
        ensures inner { result.inner ≡ inner }
        ensures refused { MatchResult done (λ _. result.refused ≡ None) (λ e. result.refused ≡ Some e) }
    {
        Flush {
            inner,
            refused: done.err(),
        }
    }
}

impl<F: Future<Output = ()>> Future for Flush<F> {
    type Output = Result<()>;

    ghost can_poll = { λ flush. IfSome flush.inner F.can_poll };

    ghost needs = { λ flush source. IsSomeAnd flush.inner (λ f. F.needs f source) };

    ghost gives = { λ flush answer. MatchOption flush.refused (answer ≡ Ok tt) (λ e. answer ≡ Err e) };

    fn poll(&mut self, cx: &mut Context<'_>) -> Poll<Result<()>> {
        if let Some(mut inner) = self.inner.take() {
            if let Poll::Pending = inner.poll(cx) {
                self.inner = Some(inner);
                return Poll::Pending;
            }
        }
        match self.refused.take() {
            Some(error) => Poll::Ready(Err(error)),
            None => Poll::Ready(Ok(())),
        }
    }
}
