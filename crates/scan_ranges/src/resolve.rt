//! A scan range, cut to an object.
ghost use Rattle.std.specs.Prelude.{◌≡◌, ◌<◌, IfSome};
ghost use Rattle.scan_ranges.specs.Resolved.{bounds, cut_to, resolved};

use select_ports::Range;
use select_request::ScanRange;

/// The bytes that a scan range means in an object of `size` bytes, all bytes where none is given (Amazon S3 API Reference,
/// `ScanRange`). `None` exactly where the object has no such byte.
#[tactic(auto, unfolding(crate::specs::Resolved::resolved))]
pub fn resolve_range(range: Option<ScanRange>, size: u64) -> Option<Range>
    ensures bounds { bounds result ≡ resolved range size }
    ensures within { IfSome result (λ range. range.last < size) }
{
    let last = size.saturating_sub(1);
    match range {
        None => cut(0, last, size),
        Some(ScanRange::Between { start, end }) => cut(start, end, size),
        Some(ScanRange::From { start }) => cut(start, last, size),
        Some(ScanRange::Last { count }) => cut(size.saturating_sub(count), last, size),
    }
}

// The bytes from `first` to `last` that an object of `size` bytes has.
fn cut(first: u64, last: u64, size: u64) -> Option<Range>
    ensures bounds { bounds result ≡ cut_to first last size }
    ensures within { IfSome result (λ range. range.last < size) }
{
    if first < size && first <= last {
        Some(Range {
            first,
            last: last.min(size - 1),
        })
    } else {
        None
    }
}
