//! The ends of all moments, and moments that go back.

use super::*;

const LAST: u64 = u64::MAX;

// What expires at 0 always is, and what expires at the last moment is then alone.
#[test]
fn moments_have_ends(rt: HostRuntime) -> Done {
    let mut core = core(rt.alloc(), 4, 1)?;
    let keys = [(1, None), (2, None), (3, Some(LAST)), (4, Some(0))];
    fill(&rt, &mut core, &keys);
    for (now, third) in [(0, true), (LAST - 1, true), (LAST, false)] {
        assert_eq!(rt;
            (core.contains(now, &3), core.touch(now, &3)?),
            (third, third)
        );
        assert!(rt; !core.contains(now, &4) && !core.touch(now, &4)?);
        assert!(rt; core.contains(now, &1));
    }
    assert_evicted(&rt, &put_at(&rt, &mut core, 0, 5, None), &[4]);
    assert_evicted(&rt, &put_at(&rt, &mut core, LAST - 1, 6, None), &[1]);
    assert_evicted(&rt, &put_at(&rt, &mut core, LAST, 7, None), &[3]);
    assert_all_evicted(&rt, &mut core, LAST, &[2, 5, 6, 7]);
    Ok(())
}

#[test]
fn a_moment_that_goes_back_finds_the_record_again(rt: HostRuntime) -> Done {
    let mut core = core(rt.alloc(), 2, 1)?;
    fill(&rt, &mut core, &[(1, Some(5))]);
    for (now, is_in) in [(4, true), (5, false), (LAST, false), (4, true), (0, true)] {
        assert_eq!(rt;
            (core.contains(now, &1), core.touch(now, &1)?),
            (is_in, is_in)
        );
        assert_eq!(rt; finds(&rt, &mut core, now, 1), is_in);
    }
    Ok(())
}

// An eviction goes by its own moment, whatever the one before it was.
#[test]
fn an_eviction_at_an_earlier_moment_pops(rt: HostRuntime) -> Done {
    let mut core = core(rt.alloc(), 4, 1)?;
    let keys = [(1, None), (2, Some(5)), (3, None), (4, Some(5))];
    fill(&rt, &mut core, &keys);
    assert_evicted(&rt, &put_at(&rt, &mut core, 9, 5, None), &[2]);
    assert_evicted(&rt, &put_at(&rt, &mut core, 4, 6, None), &[1]);
    assert_evicted(&rt, &put_at(&rt, &mut core, 5, 7, None), &[4]);
    assert_all_evicted(&rt, &mut core, 0, &[3, 5, 6, 7]);
    Ok(())
}
