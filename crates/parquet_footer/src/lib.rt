//! The footer of a Parquet file: its columns and groups of rows, exactly as the file's bytes tell them, or the
//! first check that the file fails.
#![tactic(auto)]

mod bounds;
mod column;
mod footer;
mod group;
mod laws;
mod leaves;
mod places;
mod schema;
mod text_buf;

pub use crate::bounds::Bounds;
pub use crate::column::Column;
pub use crate::footer::Footer;
pub use crate::group::{Chunk, Group};
pub use crate::laws::{file_has_a_footer, footers_are_one, schemas_are_trees};
pub use crate::text_buf::TextBuf;
pub use parquet_metadata::{ColumnKind, FooterError, Form, Width};
