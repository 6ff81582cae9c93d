//! What calls that block ask of the runtime.

use std::alloc::AllocGlobal;
use std::random::RandomSource;
use std::sync::Wait;

/// A runtime on which a thread may block until a value is there. `HostRuntime` is one.
pub trait Runtime: Wait + RandomSource + AllocGlobal + Drop {}

impl<H: Wait + RandomSource + AllocGlobal + Drop> Runtime for H {}
