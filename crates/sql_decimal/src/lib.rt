//! Decimal numbers of up to 38 digits, whose results are exactly the stated fractions.
#![tactic(auto)]

mod arithmetic;
mod compare;
mod decimal;
mod number;
mod pair;
mod powers;
mod print;
mod read;
mod reader;
mod short;

pub use crate::decimal::{Dec, NumFault};
pub use crate::number::Num;
