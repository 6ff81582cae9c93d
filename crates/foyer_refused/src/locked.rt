//! The calls of caches behind locks. Each case is one poll, so that no executor asks for memory meanwhile.

mod caches;
mod call;
mod calls;
mod kept;
mod notes;
mod others;

use crate::calls::victims;
use crate::word::Shown;
use foyer_policy::EvictionConfig;
use futures::Future;
use futures::executor::block_on;
use futures::task::{Context, Poll};
use log::Log;
use std::alloc::Global;
use std::random::RandomSource;
use std::sync::Wait;

/// What these cases need of a runtime.
pub trait Runtime: Wait + Log + RandomSource + Alloc<A = Global> + Copy + Drop {}

impl<H: Wait + Log + RandomSource + Alloc<A = Global> + Copy + Drop> Runtime for H {}

/// The call of a name, over a policy.
#[derive(Clone, Copy)]
struct Case<'a, H: Runtime> {
    rt: H,
    config: &'a EvictionConfig,
    name: &'a str,
}

/// Shows the call of this name over this policy, where it is one of these.
pub fn shown<H: Runtime>(rt: H, config: &EvictionConfig, name: &str) -> Option<Shown> {
    if !name.starts_with("locked_") {
        return None;
    }
    match block_on(&rt, Case { rt, config, name }) {
        Ok(shown) => shown,
        Err(_) => Some(Shown::Early),
    }
}

impl<H: Runtime> Future for Case<'_, H> {
    type Output = Option<Shown>;

    fn poll(&mut self, cx: &mut Context<'_>) -> Poll<Option<Shown>> {
        let Case { rt, config, name } = *self;
        let Some((filled, call)) = calls::row(name) else {
            return Poll::Ready(others::shown(rt, config, name));
        };
        let wanted = calls::wanted(filled, call, victims(config));
        Poll::Ready(Some(match caches::prepared(rt, config, filled, call) {
            Ok(mut locked) => kept::compared(cx, &mut locked, call, &wanted),
            Err(_) => Shown::Early,
        }))
    }
}
