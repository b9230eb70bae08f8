//! The positions of a text's characters, from 1.
ghost use Rattle.std.specs.Prelude.{◌≡◌, ◌-◌, max, ◌+ℤ◌};
ghost use Rattle.sql_functions.specs.Positions.{least};

/// How many characters stand before the position `start`.
#[inline]
pub(crate) fn characters_before(start: i64) -> u64
    ensures { result ≡ least start - 1 }
{
    if start > 1 {
        return (start - 1) as u64;
    }
    0
}

/// How many positions there are from `start` on and from 1 on, of `count` from `start` on.
#[inline]
pub(crate) fn positions_within(start: i64, count: i64) -> u64
    ensures { result ≡ least (start +ℤ count) - max (least start) 1 }
{
    if count <= 0 {
        return 0;
    }
    if start >= 1 {
        return count as u64;
    }
    let end = start + count;
    if end > 1 {
        return (end - 1) as u64;
    }
    0
}
