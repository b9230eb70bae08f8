//! What the operators of a query make of values: settled, compared, calculated with and cast, each exactly by its rule, or its fault.
#![tactic(auto)]

mod arithmetic;
mod casting;
mod comparing;
mod nulls;
mod numbers;
mod operation;
mod settling;
mod target;
mod value;

pub use crate::arithmetic::{arith, arith_into};
pub use crate::casting::{cast, cast_into};
pub use crate::comparing::{Order, compare};
pub use crate::nulls::{is_missing, is_null};
pub use crate::operation::Arith;
pub use crate::settling::{settle, settle_in_place};
pub use crate::target::Target;
pub use crate::value::Value;
pub use sql_timestamp::{Part, Stamp, ValueFault};
