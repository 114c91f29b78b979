// The limits of a description, and stores at their edges.
use crate::description::*;
use crate::errors::*;
use crate::joined_store::*;
use crate::number_store::*;
use crate::store::*;
use std::process::Abort;
use std::test::Fail;

#[test]
fn a_description_has_limits(rt: HostRuntime) {
    for (depth, vectors, is_in) in [
        (1, [1, 2, 3], true),
        (16, [65_535, 2, 1], true),
        (0, [1, 2, 3], false),
        (17, [1, 2, 3], false),
        (3, [0, 2, 3], false),
        (3, [1, 0, 3], false),
        (3, [1, 2, 0], false),
        (3, [2, 2, 3], false),
        (3, [3, 2, 3], false),
        (3, [1, 3, 3], false),
    ] {
        let description = CoreDescription { depth, vectors };
        assert_eq!(rt; description.is_in_limits(), is_in, "{description:?}");
    }
}

#[test]
fn words_make_a_store(rt: HostRuntime) -> Result<(), Fail> {
    let most = vec![in rt.alloc(); 0u32; 8192]?;
    let too_many = vec![in rt.alloc(); 0u32; 8193]?;
    let wide = [0x3F_FFFF, 0x40_0000, 0xFFFF_FFFF];
    assert_eq!(rt; WordStore::test(&[]), Err(StoreError::Size));
    assert_eq!(rt; WordStore::test(&[0x3F_FFFF]), Ok(()));
    assert_eq!(rt; WordStore::test(most.as_slice()), Ok(()));
    assert_eq!(rt; WordStore::test(too_many.as_slice()), Err(StoreError::Size));
    assert_eq!(rt; WordStore::test(&wide), Err(StoreError::WideWord(1)));
    assert_eq!(rt; WordStore::new(most.as_slice()).word_count(), 8192);
    let refused = WordStore::new(&wide);
    assert_eq!(rt; refused.word_count(), 1);
    assert_eq!(rt; refused.fetch(0), 0);
    assert_eq!(rt; StoreError::Size.number(), 29);
    assert_eq!(rt; StoreError::Size.place(), 0);
    assert_eq!(rt; StoreError::WideWord(8).number(), 30);
    assert_eq!(rt; StoreError::WideWord(8).place(), 8);
    Ok(())
}

#[test]
fn bytes_make_a_store(rt: HostRuntime) -> Result<(), Fail> {
    let most = vec![in rt.alloc(); 0u8; 3 * 8192]?;
    let too_many = vec![in rt.alloc(); 0u8; 3 * 8193]?;
    assert_eq!(rt; ByteStore::test(&[]), Err(StoreError::Size));
    assert_eq!(rt; ByteStore::test(&[0x40, 0, 0, 0]), Err(StoreError::Size));
    assert_eq!(rt; ByteStore::test(&[0x3F, 0xFF, 0xFF]), Ok(()));
    assert_eq!(rt; ByteStore::test(most.as_slice()), Ok(()));
    assert_eq!(rt; ByteStore::test(too_many.as_slice()), Err(StoreError::Size));
    assert_eq!(rt;
        ByteStore::test(&[0, 0, 0, 0x40, 0, 0]),
        Err(StoreError::WideWord(1))
    );
    let store = ByteStore::new(&[0, 0, 0, 0x18, 0xAE, 0x05]);
    assert_eq!(rt; store.word_count(), 2);
    assert_eq!(rt; store.fetch(1), 0x18_AE05);
    assert_eq!(rt; store.fetch(2), 0);
    let refused = ByteStore::new(&[1, 2, 3, 4]);
    assert_eq!(rt; refused.word_count(), 1);
    assert_eq!(rt; refused.fetch(0), 0);
    Ok(())
}

fn check_joined<A: Store + Drop, B: Store + Drop>(
    rt: &impl Abort,
    first: A,
    second: B,
    answer: Result<(), StoreError>,
    words: &[u32],
) {
    assert_eq!(rt; JoinedStore::test(&first, &second), answer);
    let joined = JoinedStore::new(first, second);
    assert_eq!(rt; usize::from(joined.word_count()), words.len());
    for (address, word) in (0..8).zip(words) {
        assert_eq!(rt; joined.fetch(address), *word);
    }
    for address in [joined.word_count(), 8192, 65_535] {
        assert_eq!(rt; joined.fetch(address), 0);
    }
}

#[test]
fn stores_are_joined(rt: HostRuntime) -> Result<(), Fail> {
    let most = vec![in rt.alloc(); 7u32; 8192]?;
    let words = WordStore::new(&[1, 2]);
    let bytes = ByteStore::new(&[0, 0, 3, 0, 0, 4]);
    let full = WordStore::new(most.as_slice());
    check_joined(&rt, words, bytes, Ok(()), &[1, 2, 3, 4]);
    check_joined(&rt, bytes, words, Ok(()), &[3, 4, 1, 2]);
    check_joined(&rt, full, bytes, Err(StoreError::Size), &[0]);
    Ok(())
}
