//! Tables of cases in data files, for the programs of worked examples: a line of the output for each row of a table.
#![tactic(auto)]

mod shown;
mod table;
mod telling;

pub use shown::{part, show};
pub use table::{Row, rows};
pub use telling::{Tell, tell_tables};
