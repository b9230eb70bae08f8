//! The cuts of a printed number or timestamp, which is printed for them.
ghost use Rattle.std.specs.Prelude.{◌≡◌, take, drop};
ghost use Rattle.std.specs.Str.{chars};
ghost use Rattle.sql_decimal.specs.Printing.{printed};
ghost use Rattle.sql_timestamp.specs.Printing.{printed_timestamp};
ghost use Rattle.text_view.specs.Trimmed.{trimmed};
ghost use Rattle.value_text.specs.Cuts.{cut_of};

use crate::cut::Cut;
use arrayvec::ArrayString;
use sql_decimal::Dec;
use sql_timestamp::Stamp;
use text_view::{Side, Text};

/// The room in which a printed text is written when it is read.
pub type Room = ArrayString<48>;

/// `count` characters from place `from` on of those that are left of a number's text.
#[inline(never)]
pub(crate) fn sub_number(cut: Cut, dec: Dec, from: u64, count: u64) -> Cut
    ensures { cut_of result (chars (printed dec)) ≡ take count (drop from (cut_of cut (chars (printed dec)))) }
{
    cut.sub(dec.print().as_str(), from, count)
}

/// The same of a timestamp's text.
#[inline(never)]
pub(crate) fn sub_moment(cut: Cut, stamp: Stamp, from: u64, count: u64) -> Cut
    ensures { cut_of result (chars (printed_timestamp stamp))
        ≡ take count (drop from (cut_of cut (chars (printed_timestamp stamp)))) }
{
    cut.sub(stamp.print().as_str(), from, count)
}

/// What is left of a number's text without the characters of `set` at the side.
#[inline(never)]
pub(crate) fn trim_number(cut: Cut, dec: Dec, side: Side, set: &Text<'_>) -> Cut
    ensures { cut_of result (chars (printed dec)) ≡ trimmed side set.now (cut_of cut (chars (printed dec))) }
{
    cut.trim(dec.print().as_str(), side, set)
}

/// The same of a timestamp's text.
#[inline(never)]
pub(crate) fn trim_moment(cut: Cut, stamp: Stamp, side: Side, set: &Text<'_>) -> Cut
    ensures { cut_of result (chars (printed_timestamp stamp))
        ≡ trimmed side set.now (cut_of cut (chars (printed_timestamp stamp))) }
{
    cut.trim(stamp.print().as_str(), side, set)
}
