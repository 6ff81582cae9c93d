//! The bounds of every policy's state and configuration.

use serde::{DeserializeOwned, Serialize};

/// What a policy keeps beside an item. Every fitting type is one.
pub trait State: Default + Drop + 'static {}

impl<T: Default + Drop + 'static> State for T {}

/// A policy's configuration, which has a default and can be serialized. Every fitting type is one.
pub trait Config: Clone + Default + Drop + Serialize + DeserializeOwned + 'static {}

impl<T: Clone + Default + Drop + Serialize + DeserializeOwned + 'static> Config for T {}
