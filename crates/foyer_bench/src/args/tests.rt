use super::*;
use std::alloc::Global;
use std::test::Fail;

// What these words, parted by spaces, ask for.
fn asked(alloc: Global, text: &str) -> Result<Option<BenchArgs>, Fail> {
    let mut words = Vec::new(alloc);
    for word in text.split_whitespace() {
        words.push(word.to_string(alloc)?)?;
    }
    Ok(bench_args(words.as_slice()))
}

#[test]
fn all_arguments(rt: HostRuntime) -> Result<(), Fail> {
    let core = BenchArgs {
        threads: None,
        calls: Calls::Get,
        policy: Policy::S3Fifo,
        capacity: 10,
        shards: 2,
        ops: 100,
        keyspace: 50,
        skew: Skew { num: 9, den: 10 },
        seed: 7,
        hasher: Hasher::Mod,
        reps: 3,
        life: Life::For(20),
        hits_alone: true,
    };
    let text = "s3fifo 10 2 100 50 0.9 7 --hasher mod --hits --ttl 20 --reps 3";
    assert_eq!(rt; asked(rt.alloc(), text)?, Some(core));
    let plain = BenchArgs {
        threads: Some(4),
        hasher: Hasher::Default,
        reps: 1,
        life: Life::Ever,
        hits_alone: false,
        ..core
    };
    let text = "--locked 4 s3fifo 10 2 100 50 0.9 7";
    assert_eq!(rt; asked(rt.alloc(), text)?, Some(plain));
    let reading = BenchArgs {
        calls: Calls::Read,
        ..plain
    };
    let text = "--locked 4 s3fifo 10 2 100 50 0.9 7 --read";
    assert_eq!(rt; asked(rt.alloc(), text)?, Some(reading));
    Ok(())
}

#[test]
fn lives(rt: HostRuntime) -> Result<(), Fail> {
    for (option, life) in [
        ("", Life::Ever),
        ("--ttl 5", Life::For(5)),
        ("--ttl-few 5", Life::Few(5)),
        ("--ttl-spread 5", Life::Spread(5)),
        ("--ttl-batch 5", Life::Batch(5)),
        ("--ttl 5 --ttl-batch 7", Life::Batch(7)),
    ] {
        let text = format!(in rt.alloc(); "fifo 10 1 100 50 0.9 1 {option}")?;
        let args = asked(rt.alloc(), text.as_str())?;
        assert_eq!(rt; args.map(|args| args.life), Some(life), "{option}");
    }
    Ok(())
}

#[test]
fn bad_arguments(rt: HostRuntime) -> Result<(), Fail> {
    for text in [
        "",
        "fifo 10 1 100 50 0.9",
        "mru 10 1 100 50 0.9 1",
        "fifo -1 1 100 50 0.9 1",
        "fifo 10 0 100 50 0.9 1",
        "fifo 10 1 0 50 0.9 1",
        "fifo 10 1 100 0 0.9 1",
        "fifo 10 1 100 50 x 1",
        "fifo 10 1 100 50 0.9 18446744073709551616",
        "fifo 10 1 100 50 0.9 1 --reps",
        "fifo 10 1 100 50 0.9 1 --reps 0",
        "fifo 10 1 100 50 0.9 1 --ttl",
        "fifo 10 1 100 50 0.9 1 --ttl -1",
        "fifo 10 1 100 50 0.9 1 --ttl 18446744073709551616",
        "fifo 10 1 100 50 0.9 1 --hasher sip",
        "fifo 10 1 100 50 0.9 1 --ttl-few",
        "fifo 10 1 100 50 0.9 1 --ttl-few x",
        "fifo 10 1 100 50 0.9 1 --fast 1",
        "fifo 10 1 100 50 0.9 1 --fast",
        "fifo 10 1 100 50 0.9 1 --read",
        "--locked",
        "--locked 0 fifo 10 1 100 50 0.9 1",
        "--locked fifo 10 1 100 50 0.9 1",
    ] {
        assert_eq!(rt; asked(rt.alloc(), text)?, None, "{text}");
    }
    Ok(())
}

#[test]
fn exponents(rt: HostRuntime) {
    for (text, num, den) in [
        ("0", 0, 1),
        ("1", 1, 1),
        ("0.9", 9, 10),
        ("1.25", 125, 100),
        ("2.", 2, 1),
        ("0.000001", 1, 1_000_000),
    ] {
        assert_eq!(rt; skew_of(text), Some(Skew { num, den }), "{text}");
    }
    for text in [
        "",
        ".9",
        "0.1234567",
        "-1",
        "0.+5",
        "1e3",
        "0.9.9",
        "5000000000",
        "18446744073709551615.5",
    ] {
        assert_eq!(rt; skew_of(text), None, "{text}");
    }
}
