use foyer_policy::{GhostQueue, longest_tails_are_kept};
use std::test::Fail;

#[test]
fn a_ghost_queue_keeps_the_last_hashes(rt: HostRuntime) -> Result<(), Fail> {
    longest_tails_are_kept();
    let mut queue = GhostQueue::new(rt.alloc(), 3);
    queue.reserve(2)?;
    queue.push_reserved(5, 1);
    queue.push_reserved(6, 1);
    queue.push(7, 1)?;
    queue.push(8, 1)?;
    assert_eq!(rt; (queue.weight(), queue.capacity()), (3, 3));
    assert!(rt; !queue.contains(5) && queue.contains(6) && queue.contains(8));
    queue.update(1);
    assert_eq!(rt; (queue.weight(), queue.capacity()), (1, 1));
    assert!(rt; !queue.contains(7) && queue.contains(8));
    Ok(())
}
