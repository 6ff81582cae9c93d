use foyer_policy::{Link, Lists, Place};
use std::test::Fail;

#[test]
fn values_keep_their_places(rt: HostRuntime) -> Result<(), Fail> {
    let mut lists: Lists<u32, 2> = Lists::new(rt.alloc());
    lists.reserve(3)?;
    let one = lists.push_back(0, 10);
    let two = lists.push_back(0, 20);
    let three = lists.push_back(1, 30);
    assert_eq!(rt; lists.front(0), Some(one));
    assert_eq!(rt; lists.next(one), Some(two));

    lists.move_back(one, 1);
    assert_eq!(rt; lists.list_of(one), 1);
    assert_eq!(rt; lists.front(0), Some(two));
    assert_eq!(rt; lists.next(three), Some(one));
    assert_eq!(rt; lists.next(one), None);

    *lists.get_mut(one) += 1;
    assert_eq!(rt; *lists.get(one), 11);
    assert_eq!(rt; lists.remove(three), 30);
    assert_eq!(rt; lists.pop_front_at(1), Some((one, 11)));
    assert_eq!(rt; lists.pop_front_at(1), None);
    assert_eq!(rt; lists.pop_front(0), Some(20));
    assert_eq!(rt; lists.pop_front(0), None);
    Ok(())
}

#[test]
fn the_caller_chooses_places(rt: HostRuntime) -> Result<(), Fail> {
    let mut lists: Lists<u64, 2> = Lists::new(rt.alloc());
    assert_eq!(rt; lists.span(), 0);
    lists.reserve_to(5)?;
    assert!(rt; lists.span() >= 5);
    lists.push_back_at(0, Place::at(3), 30);
    lists.push_back_at(0, Place::at(0), 10);
    let free = lists.next_place();
    lists.push_back_at(1, free, 40);
    assert!(rt; free.number() < lists.span());
    assert_eq!(rt; lists.front(0), Some(Place::at(3)));
    assert_eq!(rt; lists.next(Place::at(3)), Some(Place::at(0)));
    assert_eq!(rt; lists.remove(Place::at(3)), 30);
    assert_eq!(rt; lists.pop_front_at(0), Some((Place::at(0), 10)));
    assert_eq!(rt; lists.pop_front_at(1), Some((free, 40)));
    Ok(())
}

#[test]
fn a_link_leads_to_a_place_or_ends(rt: HostRuntime) {
    assert_eq!(rt; Link::to(7).place(), Some(7));
    assert_eq!(rt; Link::end().place(), None);
}

// No list, values of no size, and values that are aligned to 16 bytes.
#[test]
fn values_may_have_any_size(rt: HostRuntime) -> Result<(), Fail> {
    let mut none: Lists<u64, 0> = Lists::new(rt.alloc());
    none.reserve(3)?;
    drop(none);
    let mut marks: Lists<(), 1> = Lists::new(rt.alloc());
    let mut wide: Lists<u128, 2> = Lists::new(rt.alloc());
    for number in 0..20u64 {
        marks.reserve(1)?;
        marks.push_back(0, ());
        wide.reserve(1)?;
        wide.push_back(1, u128::from(number) << 64);
    }
    for number in 0..20u64 {
        assert_eq!(rt; marks.pop_front(0), Some(()));
        assert_eq!(rt; wide.pop_front(1), Some(u128::from(number) << 64));
    }
    Ok(())
}
