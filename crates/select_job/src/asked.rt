//! What a body asks: a query over an object, or the refusal of the body or of its expression.
ghost use Rattle.std.specs.Prelude.{◌≡◌, IfOk, true};
ghost use Rattle.select_request.specs.Printable.{is_input};
ghost use Rattle.sql_grammar.specs.Faults.{Spells};
ghost use Rattle.sql_lawful.specs.Lawful.{IsLawful};
ghost use Rattle.select_job.specs.Prepared.{Prepares, AsksQuery, IsParsed, RefusesOf};
ghost use Rattle.select_job.specs.Built.{is_built, is_built_input};

use crate::codes::{request_code, sql_code};
use crate::job::Job;
use select_reply::Code;
use select_request::{Input, ReadError, SelectRequest};
use select_sql::{ParseError, Query, parse};
use sqlite_items::Boxed;
use std::alloc::{AllocError, Global};

/// What a body asks.
#[derive(Drop)]
pub enum Asked {
    /// Nothing: it is refused with a code, at a place in the body, or in its expression for a code of SQL.
    Refused { code: Code, at: u64 },
    Asks(Job),
}

/// Reads a body and its expression: the body's refusal comes first, then the expression's, then that of an object over which queries aren't built.
#[tactic(auto, using(crate::proofs::Asking::valid_input))]
pub fn prepare(alloc: Global, body: &[u8]) -> Result<Asked, AllocError>
    ensures { IfOk result (Prepares body.now) }
{
    match select_request::read(alloc, body) {
        Ok(request) => prepare_request(alloc, request),
        Err(ReadError::Refused(fault)) => Ok(Asked::Refused {
            code: request_code(fault.code),
            at: fault.at,
        }),
        Err(ReadError::OutOfMemory) => Err(AllocError),
    }
}

// What a request that was read asks.
fn prepare_request(alloc: Global, request: SelectRequest) -> Result<Asked, AllocError>
    requires valid { is_input request.input ≡ true }
    ensures { IfOk result (AsksQuery request) }
{
    match parse_boxed(alloc, request.expression.text()) {
        Ok(query) => Ok(unless_unbuilt(request, query)),
        Err(error) => refuse_query(&request, error),
    }
}

// The refusal of a request's expression.
fn refuse_query(request: &SelectRequest, error: ParseError) -> Result<Asked, AllocError>
    requires { RefusesOf request.now.expression error }
    ensures { IfOk result (AsksQuery request.now) }
{
    match error {
        ParseError::Refused(error) => Ok(Asked::Refused {
            code: sql_code(error.code),
            at: error.at,
        }),
        ParseError::OutOfMemory => Err(AllocError),
    }
}

// The query that a text spells, or its fault.
fn parse_boxed(alloc: Global, text: &str) -> Result<Boxed<Query>, ParseError>
    ensures { IsParsed text.now result }
{
    match parse(alloc, text) {
        Ok(query) => match Boxed::new(alloc, query) {
            Ok(query) => Ok(query),
            Err(_) => Err(ParseError::OutOfMemory),
        },
        Err(error) => Err(error),
    }
}

fn unless_unbuilt(request: SelectRequest, query: Boxed<Query>) -> Asked
    requires valid { is_input request.input ≡ true }
    requires spelled { Spells request.expression query }
    requires lawful { IsLawful query }
    ensures { AsksQuery request result }
{
    if is_built(&request) {
        Asked::Asks(Job::of(request, query))
    } else {
        Asked::Refused {
            code: Code::NotBuilt,
            at: 0,
        }
    }
}

// Whether what is asked is built so far.
fn is_built(request: &SelectRequest) -> bool
    ensures { result ≡ is_built request.now }
{
    is_built_input(request.input)
}

// Whether the records of the object are read: CSV, and JSON Lines.
fn is_built_input(input: Input) -> bool
    ensures { result ≡ is_built_input input }
{
    match input {
        Input::Csv(_) => true,
        Input::JsonLines => true,
        Input::JsonDocument => false,
        Input::Parquet => false,
    }
}
