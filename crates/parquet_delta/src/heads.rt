//! The head of a list.
ghost use Rattle.std.specs.Prelude.{◌≡◌, None, Some, MatchOption, true};
ghost use Rattle.parquet_delta.specs.Lists.{head_at};

use crate::blocks::{Blocks, Shape};
use crate::numbers::{number, zigzag};

/// What the head tells.
#[derive(Drop)]
pub(crate) struct Head<'r> {
    /// The bits of the first value.
    pub(crate) first: u64,
    pub(crate) start: Blocks<'r>,
}

/// The head of a list of so many values.
#[tactic(auto, unfolding(crate::specs::Lists::head_at))]
pub(crate) fn read_head(bytes: &[u8], count: u64) -> Option<Head<'_>>
    ensures { MatchOption result (head_at count bytes.now ≡ None)
        (λ h. head_at count bytes.now ≡ Some (record { first = h.first; place = h.start })) }
{
    let (size, rest) = number(bytes)?;
    let (minis, rest) = number(rest)?;
    let (total, rest) = number(rest)?;
    let (first, rest) = number(rest)?;
    let shape = Shape::of(size, minis)?;
    if total != count {
        return None;
    }
    Some(Head {
        first: zigzag(first),
        start: Blocks::new(shape, rest),
    })
}
