//! Whether receipts account for a history.

ghost use Rattle.std.specs.Prelude.{◌≡◌, ◌==◌, ◌<◌, ◌↔◌, if◌then◌else◌, All, IsTrue, IfSome, count_by, length, true};
ghost use Rattle.foyer_audit.specs.Accounts.{AccountFor, Agree, EachOnce, IsCallOf, Rise, Stands, times};

use crate::compared::Compared;
use crate::receipt::{Receipt, Share};
use foyer_session::{Command, Reply};
use std::sync::ledger::Ledger;

// Whether the receipts of these shares account for a history. Each number is looked up in each share by binary
// search.
pub(crate) fn account_for<G: Ledger, K, V, P, Q: Compared<K, V, P, C>, C>(
    history: &[(Command<K, V, P, Q, C>, Reply<K, V, P>)],
    shares: &[Share<G, K, V, P, Q, C>],
) -> bool
    ensures { IsTrue result ↔ AccountFor (λ s. s.receipts.items) Q.same Q.alike
        history.now shares.now }
{
    all_agree(history, shares) && each_once(shares, history.len())
}

// Whether the receipts of each of these shares agree with a history.
fn all_agree<G: Ledger, K, V, P, Q: Compared<K, V, P, C>, C>(
    history: &[(Command<K, V, P, Q, C>, Reply<K, V, P>)],
    shares: &[Share<G, K, V, P, Q, C>],
) -> bool
    ensures { IsTrue result ↔ All (λ s. Agree Q.same Q.alike history.now
        s.receipts.items) shares.now }
{
    for share in shares {
        if !agree(history, share) {
            return false;
        }
    }
    true
}

// Whether the receipts of a share agree with a history.
fn agree<G: Ledger, K, V, P, Q: Compared<K, V, P, C>, C>(
    history: &[(Command<K, V, P, Q, C>, Reply<K, V, P>)],
    share: &Share<G, K, V, P, Q, C>,
) -> bool
    ensures { IsTrue result ↔ Agree Q.same Q.alike history.now share.now.receipts.items }
{
    let receipts = share.receipts();
    each_stands(history, receipts) && numbers_rise(receipts)
}

// Whether each of these receipts agrees with the history's call at its number.
fn each_stands<K, V, P, Q: Compared<K, V, P, C>, C>(
    history: &[(Command<K, V, P, Q, C>, Reply<K, V, P>)],
    receipts: &[Receipt<K, V, P, Q, C>],
) -> bool
    ensures { IsTrue result ↔ All (Stands Q.same Q.alike history.now) receipts.now }
{
    for receipt in receipts {
        if !stands(history, receipt) {
            return false;
        }
    }
    true
}

// Whether a receipt agrees with the history's call at its number.
fn stands<K, V, P, Q: Compared<K, V, P, C>, C>(
    history: &[(Command<K, V, P, Q, C>, Reply<K, V, P>)],
    receipt: &Receipt<K, V, P, Q, C>,
) -> bool
    ensures { IsTrue result ↔ Stands Q.same Q.alike history.now receipt.now }
{
    match history.get(receipt.number as usize) {
        Some(call) => is_call_of(receipt, call),
        None => false,
    }
}

// Whether a receipt agrees with a call: the commands are equal, and so are the replies, if the receipt has one.
fn is_call_of<K, V, P, Q: Compared<K, V, P, C>, C>(
    receipt: &Receipt<K, V, P, Q, C>,
    call: &(Command<K, V, P, Q, C>, Reply<K, V, P>),
) -> bool
    ensures { IsTrue result ↔ IsCallOf Q.same Q.alike receipt.now call.now }
{
    if !Q::are_same(&call.0, &receipt.command) {
        return false;
    }
    match &receipt.reply {
        Some(reply) => Q::are_alike(&call.1, reply),
        None => true,
    }
}

// Whether the numbers of these receipts rise.
fn numbers_rise<K, V, P, Q, C>(receipts: &[Receipt<K, V, P, Q, C>]) -> bool
    ensures { IsTrue result ↔ Rise receipts.now }
{
    receipts.is_sorted_by(|one, next| one.number < next.number)
}

// Whether each number below a length is on exactly one receipt. No receipt has another number.
fn each_once<G: Ledger, K, V, P, Q, C>(shares: &[Share<G, K, V, P, Q, C>], len: usize) -> bool
    requires rise { All (λ s. Rise s.receipts.items) shares.now }
    requires below { All (λ s. All (λ r. r.number < len) s.receipts.items) shares.now }
    ensures { IsTrue result ↔ EachOnce (λ s. s.receipts.items) len shares.now }
{
    for number in 0..len {
        if !is_once(shares, number as u64) {
            return false;
        }
    }
    true
}

// Whether exactly one receipt of these shares has a number.
fn is_once<G: Ledger, K, V, P, Q, C>(shares: &[Share<G, K, V, P, Q, C>], number: u64) -> bool
    requires { All (λ s. Rise s.receipts.items) shares.now }
    ensures { IsTrue result ↔ (times (λ s. s.receipts.items) number shares.now ≡ 1) }
{
    let mut found = false;
    for share in shares {
        if has_number(share.receipts(), number) {
            if found {
                return false;
            }
            found = true;
        }
    }
    found
}

// Whether one of these receipts has a number. Their numbers rise, so at most one has.
fn has_number<K, V, P, Q, C>(receipts: &[Receipt<K, V, P, Q, C>], number: u64) -> bool
    requires { Rise receipts.now }
    ensures { count_by (λ r. r.number == number) receipts.now ≡ (if result then 1 else 0) }
{
    receipts
        .binary_search_by_key(&number, |receipt| receipt.number)
        .is_ok()
}
