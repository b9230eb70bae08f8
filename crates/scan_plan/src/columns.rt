//! What an input's columns are.
use sql_tokens::TextBuf;
use sqlite_items::Items;

/// The columns that the paths of a query may name.
#[derive(Drop)]
pub enum Columns {
    /// JSON Lines: a path leads into the record.
    Json,
    /// A JSON document, which alone may have a path in FROM. A path of an expression leads into the record.
    Document,
    /// CSV without a header, or with one that is ignored: `_1`, `_2` and so on.
    Positions,
    /// CSV with a used header, by its names.
    Names(Items<TextBuf>),
    /// CSV with a used header, of an object without any byte.
    Absent,
    /// The columns of a Parquet file.
    Parquet(Items<Column>),
}

/// A column of a Parquet file.
#[derive(Drop)]
pub struct Column {
    pub name: TextBuf,
    pub readable: Readable,
}

/// Whether a column of a Parquet file can be read.
#[derive(Clone, Copy, Debug, PartialEq, Eq)]
pub enum Readable {
    Yes,
    /// No: its type isn't supported, whatever its codec is.
    UnsupportedType,
    /// No: its pages are compressed.
    Compressed,
}
