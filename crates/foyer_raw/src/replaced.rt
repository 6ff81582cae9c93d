//! What a conditional insert returns.

/// What `replace_if` returns.
#[derive(Debug, Drop)]
pub enum Replaced<X, Y = X> {
    /// The key still had what was seen, so the record was inserted: its entry.
    Inserted(X),
    /// The key had something else, so nothing was inserted: an entry of what a `get` finds, if it finds a record.
    Changed(Option<Y>),
}
