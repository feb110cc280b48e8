//! Reads among many versions.

use pc_base::{Key, Timestamp, TxnId, Version};
use pc_mvcc::Versions;
use std::alloc::Global;
use std::test::Fail;

const DIGITS: [u8; 10] = *b"0123456789";

fn version(alloc: Global, key: &[u8], wall: u64) -> Result<Version, Fail> {
    let id = TxnId {
        session: 1,
        number: 1,
    };
    let key = Key::new(alloc, key)?;
    let ts = Timestamp::new(wall, 0);
    Ok(Version {
        key,
        ts,
        id,
        value: None,
    })
}

/// 100 versions of each of 500 keys, at the timestamps 1.0 to 100.0.
fn many(alloc: Global) -> Result<Versions, Fail> {
    let mut versions = Versions::new(alloc);
    for wall in 1..101 {
        for hundreds in b'0'..b'5' {
            for tens in DIGITS.as_slice() {
                for units in DIGITS.as_slice() {
                    let key = [hundreds, *tens, *units];
                    versions.add(version(alloc, key.as_slice(), wall)?)?;
                }
            }
        }
    }
    Ok(versions)
}

#[test]
fn a_hundred_thousand_reads_in_the_middle_find_their_version(rt: HostRuntime) -> Result<(), Fail> {
    let alloc = rt.alloc();
    let versions = many(alloc)?;
    let middle = Timestamp::new(50, 0);
    for _ in 0..200 {
        for hundreds in b'0'..b'5' {
            for tens in DIGITS.as_slice() {
                for units in DIGITS.as_slice() {
                    let key = Key::new(alloc, [hundreds, *tens, *units].as_slice())?;
                    let seen = versions.visible(&key, middle);
                    assert!(rt; seen.is_some_and(|version| version.ts == middle));
                }
            }
        }
    }
    Ok(())
}
