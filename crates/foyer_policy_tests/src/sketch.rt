use foyer_policy::Sketch;
use foyer_policy::sketch::estimates_are_bounded;
use std::test::Fail;

#[test]
fn a_sketch_counts_hashes_and_halves_at_its_last_step(rt: HostRuntime) -> Result<(), Fail> {
    estimates_are_bounded();
    let mut sketch = Sketch::new(rt.alloc(), 1, 4)?;
    for (step, estimate) in [(1, 1), (2, 2), (3, 3), (2, 2), (3, 3)] {
        sketch.update(1);
        assert_eq!(rt; (sketch.step(), sketch.estimate(1)), (step, estimate));
    }
    sketch.halve();
    assert_eq!(rt; (sketch.step(), sketch.estimate(1)), (3, 1));
    Ok(())
}
