use super::*;

// The first numbers of seed 1.
#[test]
fn numbers(rt: HostRuntime) {
    let mut random = Random::new(1);
    for want in [
        0x4b46a55df3611b9b,
        0xd7e1f1410e763ef4,
        0x5f14ec66975f9b06,
        0x3b2c74fad44d6cdb,
    ] {
        assert_eq!(rt; random.next_number(), want);
    }
}

#[test]
fn mixed_numbers(rt: HostRuntime) {
    assert_eq!(rt; mix(0), 0);
    assert_eq!(rt; mix(1), 6238072747940578789);
    assert_eq!(rt; mix(106), 3207101912732842601);
}
