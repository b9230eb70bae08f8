//! Tests of what no clause says of the libraries that aren't rows of a table yet: each public call on its happy path, with values
//! that were made elsewhere.
#![tactic(auto)]

#[cfg(test)]
mod csv;
#[cfg(test)]
mod json;
#[cfg(test)]
mod printed_queries;
#[cfg(test)]
mod timestamps;
#[cfg(test)]
mod value_texts;
#[cfg(test)]
mod values;
