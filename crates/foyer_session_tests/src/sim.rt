//! Texts that a script of the program can't bring about, or that no contract makes sure of.

use crate::streams::Parts;
use foyer_core::{AdmitAll, CacheCore, CacheProperties, Limits, RawCacheConfig, Stats};
use foyer_policy::{EvictionConfig, ModHasher};
use foyer_session::sim::write_answer;
use foyer_session::{
    Answer, Command, NoPredicate, Session, SimPolicy, SimSession, SimValue, SimWeighter, simulate,
};
use std::alloc::Global;
use std::io::BufRead;
use std::process::Abort;
use std::test::Fail;

// A session over an empty core of so many shards, with this policy.
fn session_under(
    alloc: Global,
    policy: SimPolicy,
    capacity: usize,
    shards: usize,
    limits: Limits,
) -> Result<SimSession<ModHasher>, Fail> {
    let config = RawCacheConfig {
        capacity,
        shards,
        eviction_config: policy.config(),
        hash_builder: ModHasher::default(),
        weighter: SimWeighter,
        filter: AdmitAll,
        number: 0,
        limits,
    };
    Ok(Session::new(alloc, CacheCore::new(alloc, config)?))
}

/// A session over an empty core of one shard, in which two records have room, and the first in leaves first.
pub fn session_of_two(alloc: Global) -> Result<SimSession<ModHasher>, Fail> {
    session_under(alloc, SimPolicy::Fifo, 2, 1, Limits::default())
}

// A session prints this for these lines.
fn assert_prints<R: BufRead + Drop>(
    rt: &impl Abort,
    alloc: Global,
    mut session: SimSession<ModHasher>,
    mut lines: R,
    wanted: &[u8],
) -> Result<(), Fail> {
    let mut written = Vec::new(alloc);
    simulate(
        &mut lines,
        &mut written,
        &mut session,
        &mut Stats::default(),
    )?;
    assert_eq!(rt; written.as_slice(), wanted);
    Ok(())
}

/// Lines for `session_of_two`.
pub const SCRIPT: &[u8] =
    b"insert 1 10\ninsert 2 20\ninsert 2 21\nget 2\n\nphantom 1 100\ndrop 4\ndrop 4\nsteal 1\n";

/// What is printed for them.
pub const PRINTED: &[u8] = b"h0 | - | usage 1 entries 1
h1 | - | usage 2 entries 2
h2 | evict 1=10, replace 2=20 | usage 1 entries 1
h3 21 | - | usage 1 entries 1
h4 | remove 1=100 | usage 1 entries 1
ok | evict 1=100 | usage 1 entries 1
not held | - | usage 1 entries 1
bad line | - | usage 1 entries 1
";

// Two records have room in the order of arrival. At 9 the record of the key 3, which came in last and expires at 9,
// is evicted first.
#[test]
fn lines_are_counted(rt: HostRuntime) -> Result<(), Fail> {
    let mut lines =
        b"insert 1 10\ninsert 2 20\ninsert 2 21\nget 2\nget 1\ntouch 2\ntouch 7\ncontains 2\nphantom 5 50\n\
insert 3 30 1 9\nat 9\nget 3\ninsert 4 40\nfetch 4\nfetch 6\nfetch 6\nfetch 6\ndone 6 0 60\nremove 6\ninsert 8 80\nclear\n\
fetch 9\ncancel 9 1\ndone 9 1 90\ndrop 0\nsteal 1\n"
            .as_slice();
    let mut session = session_of_two(rt.alloc())?;
    let mut stats = Stats::default();
    let mut written = Vec::new(rt.alloc());
    simulate(&mut lines, &mut written, &mut session, &mut stats)?;
    let counts = Stats {
        hits: 3,
        misses: 7,
        inserts: 7,
        evictions: 3,
        expired: 1,
        replaced: 1,
        removed: 1,
        cleared: 2,
        fetches: 2,
        waits: 2,
        refused: 0,
    };
    assert!(rt; stats == counts, "{stats:?}");
    Ok(())
}

// The third handle would pass the limit of two, and the fourth id that of three.
#[test]
fn refused_inserts_are_counted(rt: HostRuntime) -> Result<(), Fail> {
    let limits = Limits { handles: 2, ids: 3 };
    let mut lines =
        b"insert 1 10\nget 1\nget 1\nfetch 2\nfetch 2\nfetch 2\ndone 2 0 20\ninsert 3 30\ninsert 4 40\ninsert 5 50\n".as_slice();
    let mut session = session_under(rt.alloc(), SimPolicy::Fifo, 9, 1, limits)?;
    let mut stats = Stats::default();
    let mut written = Vec::new(rt.alloc());
    simulate(&mut lines, &mut written, &mut session, &mut stats)?;
    let counts = Stats {
        hits: 1,
        misses: 3,
        inserts: 3,
        fetches: 1,
        waits: 2,
        refused: 2,
        ..Stats::default()
    };
    assert!(rt; stats == counts, "{stats:?}");
    Ok(())
}

#[test]
fn lines_may_come_in_parts_of_any_length(rt: HostRuntime) -> Result<(), Fail> {
    for part in 1..SCRIPT.len() + 1 {
        let session = session_of_two(rt.alloc())?;
        assert_prints(&rt, rt.alloc(), session, Parts::new(SCRIPT, part), PRINTED)?;
    }
    Ok(())
}

#[test]
fn a_long_line_is_one_line(rt: HostRuntime) -> Result<(), Fail> {
    const LENGTH: usize = 1 << 17;
    let mut script = vec![in rt.alloc(); b'7'; LENGTH]?;
    script.extend_from_slice(b"\ninsert 1 ")?;
    for _ in 0..LENGTH {
        script.push(b' ')?;
    }
    script.extend_from_slice(b"2\nget 1")?;
    let wanted = b"bad line | - | usage 0 entries 0
h0 | - | usage 1 entries 1
h1 2 | - | usage 1 entries 1
";
    let lines = Parts::new(script.as_slice(), 8192);
    assert_prints(&rt, rt.alloc(), session_of_two(rt.alloc())?, lines, wanted)
}

#[test]
fn a_usage_may_pass_64_bits(rt: HostRuntime) -> Result<(), Fail> {
    let session = session_under(
        rt.alloc(),
        SimPolicy::Fifo,
        usize::MAX,
        2,
        Limits::default(),
    )?;
    let script: &[u8] = b"insert 0 5 18446744073709551615\ninsert 1 5 18446744073709551615\n";
    let wanted = b"h0 | - | usage 18446744073709551615 entries 1
h1 | - | usage 36893488147419103230 entries 2
";
    assert_prints(&rt, rt.alloc(), session, script, wanted)
}

#[test]
fn a_command_past_a_limit_is_refused(rt: HostRuntime) -> Result<(), Fail> {
    let session = session_under(
        rt.alloc(),
        SimPolicy::Fifo,
        2,
        1,
        Limits { handles: 1, ids: 2 },
    )?;
    let script: &[u8] = b"insert 1 10\nget 1\ntouch 1\nfetch 7\nfetch 7\nfetch 7\ndone 7 0 70\n";
    let wanted = b"h0 | - | usage 1 entries 1
F9 | - | usage 1 entries 1
F9 | - | usage 1 entries 1
lead t0 f0 | - | usage 1 entries 1
wait t1 | - | usage 1 entries 1
F10 | - | usage 1 entries 1
t0=F9 t1=F9 | - | usage 1 entries 1
";
    assert_prints(&rt, rt.alloc(), session, script, wanted)
}

#[test]
fn lru_takes_a_share_for_its_pool(rt: HostRuntime) -> Result<(), Fail> {
    let session = session_under(rt.alloc(), SimPolicy::Lru, 2, 1, Limits::default())?;
    let script: &[u8] = b"high 0 1\nhigh 3 2\nhigh 1 0\nhigh 4294967296 1\nhigh 1\n";
    let wanted = b"ok | - | usage 0 entries 0
F3 | - | usage 0 entries 0
F2 | - | usage 0 entries 0
bad line | - | usage 0 entries 0
bad line | - | usage 0 entries 0
";
    assert_prints(&rt, rt.alloc(), session, script, wanted)
}

// F17 comes before F2 and F3.
#[test]
fn another_policy_takes_no_share(rt: HostRuntime) -> Result<(), Fail> {
    let script: &[u8] = b"high 1 2\nhigh 1 0\nhigh 3 2\n";
    let wanted = b"F17 | - | usage 0 entries 0
F17 | - | usage 0 entries 0
F17 | - | usage 0 entries 0
";
    for policy in [
        SimPolicy::Fifo,
        SimPolicy::Lfu,
        SimPolicy::S3Fifo,
        SimPolicy::Sieve,
    ] {
        let session = session_under(rt.alloc(), policy, 2, 3, Limits::default())?;
        assert_prints(&rt, rt.alloc(), session, script, wanted)?;
    }
    Ok(())
}

#[test]
fn answers_that_no_line_gives_have_texts(rt: HostRuntime) -> Result<(), Fail> {
    type Plain = Command<u64, SimValue, CacheProperties, NoPredicate, EvictionConfig>;
    let mut session = session_of_two(rt.alloc())?;
    let commands: Vec<Plain> = vec![in rt.alloc();
        Command::GetOrFetch(0, 7, None),
        Command::GetOrFetch(0, 7, Some(30)),
        Command::FetchOrTake(7, 0, None),
        Command::FetchOrTake(7, 0, None),
        Command::Capacity,
    ]?;
    let mut written = Vec::new(rt.alloc());
    for reply in session.run(commands)? {
        write_answer(&mut written, &reply.answer)?;
        written.push(b'\n')?;
    }
    write_answer(
        &mut written,
        &Answer::<u64, SimValue, CacheProperties>::PieceNo(30),
    )?;
    let wanted: &[u8] = b"lead t0 f0\nwait t1\nlater 30\nt0=none t1=none\n2\np30";
    assert_eq!(rt; written.as_slice(), wanted);
    Ok(())
}
