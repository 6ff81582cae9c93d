use foyer_policy::{Error, EvictionConfig, Fault, Field, OrFault, Reason, Result};
use std::alloc::Global;
use std::sync::Arc;
use std::test::Fail;

fn no_route(alloc: Global) -> std::result::Result<Reason, Fail> {
    let message = String::from_str(alloc, "no route")?;
    let fault = Arc::new(alloc, Fault { code: 7, message })?;
    Ok(Reason::Fetch(fault))
}

#[test]
fn each_reason_has_its_text(rt: HostRuntime) -> std::result::Result<(), Fail> {
    let alloc = rt.alloc();
    let range = Reason::RatioRange(Field::Window);
    let sum = "the ratios of window and protected leave nothing to probation";
    let fetch = "the fetch failed: Fault { code: 7, message: \"no route\" }";
    for (reason, text) in [
        (Reason::NoShards, "the cache has no shards"),
        (Reason::ZeroDenominator, "a ratio has the denominator 0"),
        (range, "a ratio is out of its range: Window"),
        (Reason::RatioSum, sum),
        (Reason::NoRows, "the sketch has no rows"),
        (Reason::NoBuckets, "the sketch has no buckets"),
        (Reason::NoMemory, "out of memory"),
        (Reason::Weight, "the usage would pass the greatest number"),
        (Reason::Handles, "the handle count would pass its limit"),
        (Reason::Ids, "no number is left"),
        (no_route(alloc)?, fetch),
        (Reason::WrongKey, "a fetched piece has another key"),
        (Reason::NoValue, "the fetch gave no value"),
        (Reason::ChannelClosed, "the sender went without an answer"),
        (Reason::TaskCancelled, "the fetch task was dropped"),
        (Reason::Spent, "the answer was taken before"),
        (
            Reason::WrongPolicy,
            "the configuration is of another policy",
        ),
    ] {
        assert_eq!(rt; Error::new(reason).to_string(alloc)?.as_str(), text);
    }
    Ok(())
}

#[test]
fn each_field_has_its_name(rt: HostRuntime) -> std::result::Result<(), Fail> {
    for (field, name) in [
        (Field::HighPriorityPool, "HighPriorityPool"),
        (Field::Window, "Window"),
        (Field::Protected, "Protected"),
        (Field::SmallQueue, "SmallQueue"),
    ] {
        assert_eq!(rt; format!(in rt.alloc(); "{field:?}")?.as_str(), name);
    }
    Ok(())
}

#[test]
fn a_refusal_is_shown_with_its_kind(rt: HostRuntime) -> std::result::Result<(), Fail> {
    let error = Error::new(Reason::Handles);
    assert_eq!(rt;
        format!(in rt.alloc(); "{error:?}")?.as_str(),
        "Error { kind: Limit, reason: Handles }"
    );
    Ok(())
}

// It shares the fault, and another fault with the same content is as good.
#[test]
fn a_fetch_refusal_can_be_cloned(rt: HostRuntime) -> std::result::Result<(), Fail> {
    let error = Error::new(no_route(rt.alloc())?);
    assert!(rt; error.clone()? == error);
    assert!(rt; error.clone()? == Error::new(no_route(rt.alloc())?));
    assert!(rt; error != Error::new(Reason::NoValue));
    Ok(())
}

fn reserve(bytes: &mut Vec<u8>, more: usize) -> Result<()> {
    bytes.reserve(more)?;
    Ok(())
}

#[test]
fn a_refused_growth_becomes_a_refusal(rt: HostRuntime) {
    let mut bytes = Vec::new(rt.alloc());
    assert!(rt; reserve(&mut bytes, 1).is_ok());
    let refused = reserve(&mut bytes, usize::MAX);
    assert!(rt; refused == Err(Error::new(Reason::NoMemory)));
}

// Bytes of a number, and as many more as are asked for.
fn fetched(alloc: Global, text: &str, more: usize) -> std::result::Result<Vec<u64>, Fault> {
    let mut numbers = Vec::new(alloc);
    let number: u64 = text.parse().or_fault(alloc, 3)?;
    numbers.push(number).or_fault(alloc, 4)?;
    numbers.reserve(more).or_fault(alloc, 5)?;
    Ok(numbers)
}

#[test]
fn errors_become_faults(rt: HostRuntime) -> std::result::Result<(), Fail> {
    let alloc = rt.alloc();
    assert_eq!(rt;
        fetched(alloc, "7", 1).expect(&rt, "a number").as_slice(),
        [7].as_slice()
    );
    let refused = fetched(alloc, "7", usize::MAX).expect_err(&rt, "no room");
    assert_eq!(rt;
        (refused.code, refused.message.as_str()),
        (5, "memory allocation failed")
    );
    let refused = fetched(alloc, "x", 1).expect_err(&rt, "no number");
    assert_eq!(rt;
        (refused.code, refused.message.as_str()),
        (3, "invalid digit found in string")
    );
    let named: std::result::Result<EvictionConfig, Fault> = "x".parse().or_fault(alloc, 6);
    assert!(rt;
        named
            == Err(Fault::with_text(
                alloc,
                6,
                "the policies are fifo, lru, lfu, s3fifo and sieve"
            ))
    );
    let message = String::from_str(alloc, "no route")?;
    assert!(rt; Fault::new(7, message) == Fault::with_text(alloc, 7, "no route"));
    Ok(())
}
