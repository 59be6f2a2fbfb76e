//! The bytes of a shop's first sale.

use ind_base::NoMemory;
use op_records::decode_items;
use std::alloc::Global;
use std::test::Fail;

/// Whether the bytes spell a batch.
fn is_batch(alloc: Global, bytes: &[u8]) -> Result<bool, NoMemory> {
    Ok(decode_items(alloc, bytes)?.is_some())
}

/// Whether some of the bytes, from the first on, but not all of them, spell a batch.
fn has_shorter(alloc: Global, bytes: &[u8]) -> Result<bool, NoMemory> {
    for length in 0..bytes.len() {
        let (front, _) = bytes.split_at(length);
        if is_batch(alloc, front)? {
            return Ok(true);
        }
    }
    Ok(false)
}

#[test]
fn a_first_sale_has_twenty_bytes(rt: HostRuntime) -> Result<(), Fail> {
    let alloc = rt.alloc();
    // One item, of two replicas: item 0 of replica 0, with nothing in its past, does operation 0.
    let sale = [0, 1, 2, 0, 0, 0, 0, 0, 0, 0, 0, 0, 0, 0, 0, 0, 1, 0, 0, 0];
    let longer = [
        0, 1, 2, 0, 0, 0, 0, 0, 0, 0, 0, 0, 0, 0, 0, 0, 1, 0, 0, 0, 0,
    ];
    assert!(rt; is_batch(alloc, &sale)?);
    assert!(rt; !has_shorter(alloc, &sale)?);
    assert!(rt; !is_batch(alloc, &longer)?);
    Ok(())
}
