use super::*;
use std::test::Fail;

#[test]
fn texts(rt: HostRuntime) -> Result<(), Fail> {
    for (usage, ops, hits, nanos, want) in [
        (
            100_000,
            5_000_000,
            2_982_872,
            735_000_000,
            "usage=100000 hits=2982872 hit_ratio=0.596574 ns_per_op=147.0",
        ),
        (
            0,
            3,
            3,
            29,
            "usage=0 hits=3 hit_ratio=1.000000 ns_per_op=9.7",
        ),
        (
            1,
            1_000_000,
            7,
            0,
            "usage=1 hits=7 hit_ratio=0.000007 ns_per_op=0.0",
        ),
    ] {
        let report = Report {
            usage,
            ops,
            hits,
            nanos,
        };
        let text = report.to_string(rt.alloc())?;
        assert_eq!(rt; text.as_str(), want);
    }
    Ok(())
}
