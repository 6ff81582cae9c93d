use foyer_policy::hash::{mod_hash, mod_hash_of_u64};
use foyer_policy::{DefaultHasher, HashBuilder, ModHasher};
use std::test::Fail;

#[test]
fn bytes_are_digits(rt: HostRuntime) -> Result<(), Fail> {
    assert_eq!(rt; mod_hash_of_u64(u64::MAX), u64::MAX);
    assert_eq!(rt; mod_hash(&258u16), 258);
    assert_eq!(rt; mod_hash(&-1i8), 255);
    // The second number counts 2^32, and the third nothing.
    assert_eq!(rt; mod_hash(&(1u32, 2u32, 3u64)), 0x0000_0002_0000_0001);
    // A text ends with the byte 255.
    let text = String::from_str(rt.alloc(), "ab")?;
    assert_eq!(rt; mod_hash(&text), 0x00ff_6261);
    Ok(())
}

#[test]
fn builders_hash_keys(rt: HostRuntime) {
    assert_eq!(rt; HashBuilder::hash_one(&ModHasher::default(), &12u64), 12);
    let (one, two) = (DefaultHasher::default(), DefaultHasher::default());
    for key in 0..5u64 {
        let number = HashBuilder::hash_one(&one, &key);
        assert_eq!(rt; number, HashBuilder::hash_one(&two, &key));
        assert!(rt; number != HashBuilder::hash_one(&one, &(key + 1)));
    }
}
