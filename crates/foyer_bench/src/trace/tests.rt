use super::*;
use std::test::Fail;

// FNV-1a of 64 bits, one number on.
fn with_number(sum: u64, number: u64) -> u64 {
    let mut sum = sum;
    for byte in number.to_le_bytes() {
        sum = (sum ^ byte as u64).wrapping_mul(0x100000001b3);
    }
    sum
}

const START: u64 = 0xcbf29ce484222325;

// Ten thousand ranks by their checksum, and the sum of all weights, as another program finds them.
#[test]
fn ranks(rt: HostRuntime) -> Result<(), Fail> {
    for (keyspace, num, den, seed, whole, want) in [
        (1_000, 9, 10, 1, 11_570_717_885_657, 0xd7fabf8ff6d32cbe),
        (1_000_000, 9, 10, 1, 33_403_827_990_444, 0xf94e529cbfefac64),
        (1_000, 125, 100, 7, 4_270_381_069_431, 0xd3284b4e8b0baa84),
        (1_000, 0, 1, 42, 1_000, 0xca342ea53ac5e914),
    ] {
        let Ok(ranks) = Ranks::new(rt.alloc(), keyspace, Skew { num, den }) else {
            panic!(rt; "refused");
        };
        let all = match &ranks {
            Ranks::Uniform(count) => *count,
            Ranks::Weighed(sums) => sums.last().copied().unwrap_or(0),
        };
        assert_eq!(rt; all, whole, "of {keyspace}");
        let mut random = Random::new(seed);
        let mut sum = START;
        for _ in 0..10_000 {
            sum = with_number(sum, ranks.rank(random.next_number()));
        }
        assert_eq!(rt; sum, want, "of {keyspace}");
    }
    Ok(())
}

// Keys, as another program finds them.
#[test]
fn keys(rt: HostRuntime) -> Result<(), Fail> {
    let Ok(ranks) = Ranks::new(rt.alloc(), 100_000, Skew { num: 9, den: 10 }) else {
        panic!(rt; "refused");
    };
    let keys = keys_of(rt.alloc(), &ranks, 1, 10_000)?;
    assert_eq!(rt; keys.len(), 10_000);
    let mut sum = START;
    for key in &keys {
        sum = with_number(sum, *key);
    }
    assert_eq!(rt; sum, 0x604349fd88706f55);
    for (key, want) in keys.iter().zip([
        3207101912732842601,
        13131055470365606062,
        189816162443339841,
        12058926934050108962,
    ]) {
        assert_eq!(rt; *key, want);
    }
    Ok(())
}
