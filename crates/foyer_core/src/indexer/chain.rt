// Pairs of hashed keys and numbers in chains, one chain for each of several heads.
//
// This is a hash table with separate chaining. The chain of a hash is found by one multiplication.
// Both methods are in D. E. Knuth, The Art of Computer Programming, volume 3, section 6.4.

ghost use Rattle.std.specs.Prelude.{◌≡◌, ℕ, ◌-◌, ◌^◌, ◌<◌, ◌==◌, ◌&&◌, ◌||◌, not, true, false, Some, None, length, slice_index_or, IfSome, IfNone, IfOk, OnErr, ◌++◌, ◌∷◌, [], vec_len, vec_capacity, map};
ghost use Rattle.std.specs.Map.{lookup};
ghost use Rattle.foyer_core.specs.Indexer.{same_key};
ghost use Rattle.foyer_core.specs.Chains.{home, entry_of, entries_of, hashes_of, nexts_of, chain_of, is_in, before_in, HasKeyAt, Takes, AreChains, AllInChains};

use foyer_policy::Link;
use std::alloc::{AllocError, Global};

// 2^64 divided by the golden ratio, and odd: its multiples spread evenly in their upper bits.
const GOLDEN: u64 = 0x9e37_79b9_7f4a_7c15;

/// A hashed key with its number.
#[derive(Drop)]
pub(crate) struct Pair<K> {
    pub(crate) hash: u64,
    pub(crate) key: K,
    pub(crate) number: u64,
    /// The next pair of its chain.
    pub(crate) next: Link,
}

// The number of the chain of a hash.
#[inline(always)]
fn home_of(hash: u64, shift: u32) -> usize
    requires { shift < 64 }
    ensures value { result ≡ home shift hash }
    ensures within { result < 2 ^ (64 - shift) }
{
    (hash.wrapping_mul(GOLDEN) >> shift) as usize
}

// The link to the first pair of the chain of a hash.
#[inline(always)]
fn head_of(heads: &[Link], shift: u32, hash: u64) -> Link
    requires { shift < 64 }
    ensures { result ≡ slice_index_or heads.now (home shift hash) None }
{
    match heads.get(home_of(hash, shift)) {
        Some(link) => *link,
        None => Link::end(),
    }
}

// The place of the pair of a key.
#[inline]
pub(crate) fn find<K: Eq>(
    heads: &[Link],
    shift: u32,
    pairs: &[Pair<K>],
    hash: u64,
    key: &K,
) -> Option<usize>
    requires shift { shift < 64 }
    requires linked { AllInChains shift heads.now (hashes_of pairs.now) (nexts_of pairs.now) }
    ensures found { IfSome result (λ i. HasKeyAt K.eq (hash, key.now) (entries_of pairs.now) i) }
    ensures absent { IfNone result
        (lookup (same_key K.eq (hash, key.now)) (entries_of pairs.now) ≡ None) }
{
    let mut link = head_of(heads, shift, hash);
    while let Some(place) = link.place() {
        let pair = &pairs[place];
        if pair.hash == hash && *key == pair.key {
            return Some(place);
        }
        link = pair.next;
    }
    None
}

// The place of the pair whose link leads to the pair of a place, or `None` if the head of the chain leads there.
fn place_before<K>(heads: &[Link], shift: u32, pairs: &[Pair<K>], place: usize) -> Option<usize>
    requires shift { shift < 64 }
    requires within { place < length pairs.now }
    requires chains { AreChains shift heads.now (hashes_of pairs.now) (nexts_of pairs.now) }
    ensures place { result ≡ before_in None place (chain_of heads.now (nexts_of pairs.now)
        (home shift (slice_index_or (hashes_of pairs.now) place 0))) }
    ensures within { IfSome result (λ b. b < length pairs.now) }
{
    let mut before = None;
    let mut link = head_of(heads, shift, pairs[place].hash);
    while let Some(at) = link.place() {
        if at == place {
            break;
        }
        before = Some(at);
        link = pairs[at].next;
    }
    before
}

// Links the pair of a place, which is in no chain, into the chain of its hash.
pub(crate) fn put_in<K>(heads: &mut [Link], shift: u32, pairs: &mut [Pair<K>], place: usize)
    requires shift { shift < 64 }
    requires heads { length heads.old ≡ 2 ^ (64 - shift) }
    requires within { place < length pairs.old }
    requires chains { AreChains shift heads.old (hashes_of pairs.old) (nexts_of pairs.old) }
    requires apart { is_in shift heads.old (hashes_of pairs.old) (nexts_of pairs.old) place ≡ false }
    ensures chains { AreChains shift heads.new (hashes_of pairs.new) (nexts_of pairs.new) }
    ensures linked { (i : ℕ) → is_in shift heads.new (hashes_of pairs.new) (nexts_of pairs.new) i
        ≡ ((i == place) || is_in shift heads.old (hashes_of pairs.old) (nexts_of pairs.old) i) }
    ensures hashes { hashes_of pairs.new ≡ hashes_of pairs.old }
    ensures entries { entries_of pairs.new ≡ entries_of pairs.old }
{
    let pair = &mut pairs[place];
    let home = home_of(pair.hash, shift);
    let first = heads[home];
    pair.next = first;
    heads[home] = Link::to(place);
}

// Takes the pair of a place out of its chain.
pub(crate) fn take_out<K>(heads: &mut [Link], shift: u32, pairs: &mut [Pair<K>], place: usize)
    requires shift { shift < 64 }
    requires heads { length heads.old ≡ 2 ^ (64 - shift) }
    requires within { place < length pairs.old }
    requires chains { AreChains shift heads.old (hashes_of pairs.old) (nexts_of pairs.old) }
    requires linked { is_in shift heads.old (hashes_of pairs.old) (nexts_of pairs.old) place ≡ true }
    ensures chains { AreChains shift heads.new (hashes_of pairs.new) (nexts_of pairs.new) }
    ensures linked { (i : ℕ) → is_in shift heads.new (hashes_of pairs.new) (nexts_of pairs.new) i
        ≡ (not (i == place) && is_in shift heads.old (hashes_of pairs.old) (nexts_of pairs.old) i) }
    ensures hashes { hashes_of pairs.new ≡ hashes_of pairs.old }
    ensures entries { entries_of pairs.new ≡ entries_of pairs.old }
{
    let after = pairs[place].next;
    match place_before(heads, shift, pairs, place) {
        Some(before) => pairs[before].next = after,
        None => heads[home_of(pairs[place].hash, shift)] = after,
    }
}

// Appends a pair of a key that no pair has, and puts it into its chain. There is room for it.
pub(crate) fn push<K>(heads: &mut [Link], shift: u32, pairs: &mut Vec<Pair<K>>, pair: Pair<K>)
    requires shift { shift < 64 }
    requires heads { length heads.old ≡ 2 ^ (64 - shift) }
    requires room { vec_len pairs.old < vec_capacity pairs.old }
    requires linked { AllInChains shift heads.old (hashes_of pairs.old.items) (nexts_of pairs.old.items) }
    ensures linked { AllInChains shift heads.new (hashes_of pairs.new.items) (nexts_of pairs.new.items) }
    ensures entries { entries_of pairs.new.items ≡ entries_of pairs.old.items ++ entry_of pair ∷ [] }
{
    let place = pairs.len();
    pairs.push_reserved(pair);
    put_in(heads, shift, pairs, place);
}

// Removes the pair of a place, and returns its number. The last pair takes its place.
pub(crate) fn swap_remove<K: Drop>(
    heads: &mut [Link],
    shift: u32,
    pairs: &mut Vec<Pair<K>>,
    place: usize,
) -> u64
    requires shift { shift < 64 }
    requires heads { length heads.old ≡ 2 ^ (64 - shift) }
    requires within { place < vec_len pairs.old }
    requires linked { AllInChains shift heads.old (hashes_of pairs.old.items) (nexts_of pairs.old.items) }
    ensures linked { AllInChains shift heads.new (hashes_of pairs.new.items) (nexts_of pairs.new.items) }
    ensures taken { Takes (entries_of pairs.old.items) place result (entries_of pairs.new.items) }
{
    let last = pairs.len() - 1;
    take_out(heads, shift, pairs, place);
    if place == last {
        return pairs.swap_remove(place).number;
    }
    take_out(heads, shift, pairs, last);
    let taken = pairs.swap_remove(place);
    put_in(heads, shift, pairs, place);
    taken.number
}

// The numbers of all pairs, in their order.
pub(crate) fn numbers<K>(alloc: Global, pairs: &[Pair<K>]) -> Result<Vec<u64>, AllocError>
    ensures { IfOk result (λ ids. ids.items ≡ map (λ pair. pair.number) pairs.now) }
{
    pairs.iter().map(|pair| pair.number).collect(alloc)
}

// Returns the heads of new chains, with all pairs linked into them. If memory runs out, nothing has changed.
#[cold]
#[inline(never)]
pub(crate) fn spread<K>(
    alloc: Global,
    shift: u32,
    pairs: &mut [Pair<K>],
) -> Result<Vec<Link>, AllocError>
    requires many { 0 < shift }
    requires shift { shift < 64 }
    ensures heads { IfOk result (λ heads. length heads.items ≡ 2 ^ (64 - shift)) }
    ensures linked { IfOk result (λ heads.
        AllInChains shift heads.items (hashes_of pairs.new) (nexts_of pairs.new)) }
    ensures entries { entries_of pairs.new ≡ entries_of pairs.old }
    ensures err { OnErr result (pairs.new ≡ pairs.old) }
{
    let mut heads = vec![in alloc; Link::end(); 1 << (64 - shift)]?;
    for place in 0..pairs.len() {
        put_in(&mut heads, shift, pairs, place);
    }
    Ok(heads)
}
