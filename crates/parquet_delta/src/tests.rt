//! One list in each encoding, its bytes worked out by hand.
use crate::{Deltas, Fronts, Lengths, Word};
use std::alloc::Global;
use std::test::Fail;

/// Whether the bytes open as a list of these whole numbers, of so many bytes.
fn are_values(bytes: &[u8], values: &[i64], used: usize) -> bool {
    let Ok(mut deltas) = Deltas::open(bytes, values.len() as u64, Word::Bits32) else {
        return false;
    };
    for value in values {
        if deltas.next() != Some(*value) {
            return false;
        }
    }
    deltas.used() == used && deltas.next().is_none()
}

/// Whether the bytes open as a list of two byte arrays behind their lengths.
fn are_two_arrays(bytes: &[u8], first: &[u8], second: &[u8]) -> bool {
    let Ok(mut values) = Lengths::open(bytes, 2) else {
        return false;
    };
    values.next() == Some(first) && values.next() == Some(second) && values.next().is_none()
}

/// Whether the bytes open as a list of two byte arrays that share a front.
fn are_two_fronts(alloc: Global, bytes: &[u8], first: &[u8], second: &[u8]) -> bool {
    let Ok(mut values) = Fronts::open(alloc, bytes, 2) else {
        return false;
    };
    values.next() == Some(first) && values.next() == Some(second) && values.next().is_none()
}

#[test]
fn lists_are_read(rt: HostRuntime) -> Result<(), Fail> {
    // 128 values a block, 4 miniblocks, 5 values from 1 on, least delta 1, widths 0
    let rising = [0x80, 0x01, 4, 5, 2, 2, 0, 0, 0, 0];
    assert!(rt; are_values(&rising, &[1, 2, 3, 4, 5], 10));

    // 8 values from 7 on, least delta -2, the packed numbers 0 0 0 3 3 3 3 of 2 bits
    let falling = [
        0x80, 0x01, 4, 8, 14, 3, 2, 0, 0, 0, 0xC0, 0x3F, 0, 0, 0, 0, 0, 0,
    ];
    assert!(rt; are_values(&falling, &[7, 5, 3, 1, 2, 3, 4, 5], 18));
    assert!(rt; Deltas::open(&falling, 7, Word::Bits64).is_err());

    // the lengths 2 and 1
    let arrays = [0x80, 0x01, 4, 2, 4, 1, 0, 0, 0, 0, b'a', b'b', b'c'];
    assert!(rt; are_two_arrays(&arrays, b"ab", b"c"));

    // the prefixes 0 and 1, and the suffixes `ab` and `c`
    let fronts = [
        0x80, 0x01, 4, 2, 0, 2, 0, 0, 0, 0, 0x80, 0x01, 4, 2, 4, 1, 0, 0, 0, 0, b'a', b'b', b'c',
    ];
    assert!(rt; are_two_fronts(rt.alloc(), &fronts, b"ab", b"ac"));
    Ok(())
}
