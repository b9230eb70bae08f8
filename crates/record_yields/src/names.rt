//! The names under which a row's cells are output.
ghost use Rattle.std.specs.Prelude.{◌≡◌, ◌<◌, ◌-◌, ◌^◌, ◌++◌, ◌∷◌, [], map, suc, slice_get, None};
ghost use Rattle.std.specs.Option.{option_copied};
ghost use Rattle.std.specs.Prelude.{decimal};
ghost use Rattle.scan_plan.specs.Plans.{name_or_number};
ghost use Rattle.record_yields.specs.Names.{column_names};

use arrayvec::ArrayString;
use itoa::Buffer;
use scan_plan::{Column, Columns};

/// Room for `_` and a number of 64 bits.
pub(crate) type Numbered = ArrayString<48>;

/// The name that the input gives the column at a place, if it gives one.
pub(crate) fn column_name(columns: &Columns, k: usize) -> Option<&str>
    ensures { option_copied result ≡ slice_get (column_names columns.now) k }
{
    match columns {
        Columns::Names(names) => match names.get(k) {
            Some(name) => Some(name.text()),
            None => None,
        },
        Columns::Parquet(columns) => file_name(columns.as_slice(), k),
        _ => None,
    }
}

/// The name of a Parquet file's column at a place.
fn file_name(columns: &[Column], k: usize) -> Option<&str>
    ensures { option_copied result ≡ slice_get (map (λ column. column.name) columns.now) k }
{
    match columns.get(k) {
        Some(column) => Some(column.name.text()),
        None => None,
    }
}

/// `_` and the number of a place, from 1.
#[tactic(auto, using(crate::proofs::Numbers::short_decimal))]
pub(crate) fn numbered(k: usize) -> Numbered
    requires { k < 2 ^ 64 - 1 }
    ensures { result.bytes ≡ name_or_number (suc k) None }
{
    let mut digits = Buffer::new();
    let mut name = Numbered::new();
    name.push('_');
    name.push_str(digits.format(k + 1));
    name
}
