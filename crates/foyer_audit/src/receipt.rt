//! The receipts that callers keep.

ghost use Rattle.std.specs.Prelude.{◌≡◌, ◌<◌, [], length};

use foyer_session::{Command, Reply};
use std::alloc::Global;
use std::sync::ledger;
use std::sync::ledger::Ledger;

/// The receipt of one call.
#[derive(Drop)]
pub struct Receipt<K, V, P, Q, C> {
    /// The call's number in the history.
    pub number: u64,
    /// The command.
    pub command: Command<K, V, P, Q, C>,
    /// A copy of the reply; none if memory ran out for it, and then the call returned none either.
    pub reply: Option<Reply<K, V, P>>,
}

/// One caller's share of an audited shard: the receipts of its calls, in order, and a part of the shard's ledger, in
/// which they are counted.
///
/// A share can't be copied or made by a caller, and only fits the shard of its ledger.
#[derive(Drop)]
pub struct Share<G: Ledger, K, V, P, Q, C> {
    pub(crate) receipts: Vec<Receipt<K, V, P, Q, C>>,
    pub(crate) mine: ledger::Share<G>,
    ghost backed: { 0 < mine.parts },
    ghost counted: { length receipts.items ≡ mine.amount },
}

impl<G: Ledger, K, V, P, Q, C> Share<G, K, V, P, Q, C> {
    // A share of these parts, with no receipts.
    pub(crate) fn of(alloc: Global, mine: ledger::Share<G>) -> Self
        requires parts { 0 < mine.parts }
        requires amount { mine.amount ≡ 0 }
        ensures receipts { result.receipts.items ≡ [] }
        ensures mine { result.mine ≡ mine }
    {
        Share {
            receipts: Vec::new(alloc),
            mine,
        }
    }

    /// Returns the receipts of the calls that were made with this share, in order.
    pub fn receipts(&self) -> &[Receipt<K, V, P, Q, C>]
        ensures { result.now ≡ self.now.receipts.items }
    {
        self.receipts.as_slice()
    }
}
