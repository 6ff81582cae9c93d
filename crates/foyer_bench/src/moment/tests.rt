use super::*;

#[test]
fn an_operation_has_its_number_as_moment(rt: HostRuntime) {
    let third = Moment::first(Life::For(5)).next().next();
    assert_eq!(rt; (third.now(), third.expiry()), (2, Some(7)));
    let longest = Moment::first(Life::For(u64::MAX)).next();
    assert_eq!(rt; (longest.now(), longest.expiry()), (1, Some(u64::MAX)));
}

#[test]
fn without_an_end_there_is_one_moment(rt: HostRuntime) {
    let third = Moment::first(Life::Ever).next().next();
    assert_eq!(rt; (third.now(), third.expiry()), (0, None));
}

// How many of the first thousand operations put in what expires, and the sum of when.
fn expiries(life: Life) -> (u64, u64) {
    let (mut count, mut sum) = (0u64, 0u64);
    let mut moment = Moment::first(life);
    for _operation in 0..1_000 {
        if let Some(expiry) = moment.expiry() {
            count = count.wrapping_add(1);
            sum = sum.wrapping_add(expiry);
        }
        moment = moment.next();
    }
    (count, sum)
}

#[test]
fn some_expire(rt: HostRuntime) {
    // 0, 100, .., 900, each 7 later.
    assert_eq!(rt; expiries(Life::Few(7)), (10, 4_570));
    // Ten each at 100, 200, .., 1000.
    assert_eq!(rt; expiries(Life::Batch(100)), (100, 55_000));
    assert_eq!(rt; expiries(Life::Batch(0)), (0, 0));
}

#[test]
fn lives_are_spread(rt: HostRuntime) {
    for (random, life) in [
        (0, 20),
        (1, 200),
        (17_998, 199),
        (17_999, 1_999),
        (18_000, 20),
    ] {
        assert_eq!(rt; spread(20, random), life, "{random}");
    }
    assert_eq!(rt; expiries(Life::Spread(20)).0, 1_000);
}
