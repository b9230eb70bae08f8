//! The query that a text spells.
ghost use Rattle.std.specs.Prelude.{◌≡◌, ◌≢◌, ◌≤◌, ◌<◌, ℕ, length, IfOk, Err, None};
ghost use Rattle.sql_tokens.specs.Cutting.{place_or, symbols_of, lexer_fault};
ghost use Rattle.sql_grammar.specs.declared.error.SqlError.{SqlError as SqlErrorOf};
ghost use Rattle.sql_grammar.specs.declared.error.ParseError.TheVariants as error;
ghost use Rattle.sql_grammar.specs.Faults.{Spells, FaultOf, IsCut, IsWritten, is_same_name, names_source, selection_of, query_of, place_of};
ghost use Rattle.sql_grammar.specs.QueryReaders.{read_whole_query};
ghost use Rattle.sql_lawful.specs.Lawful.{IsLawful};
ghost use Rattle.sql_lawful.specs.Depths.{IsShallow};
ghost use Rattle.sql_leaves.specs.declared.stop.Stop.TheVariants as stop;
ghost use Rattle.select_sql.specs.Written.{GivesAs, NoneIsEnd, at_end, listed, written, refused_code, stop_code, error_of};

use crate::query::{Listed, Parts, whole};
use crate::totals::is_agg;
use sql_grammar::{Name, ParseError, Query, Selection, SqlCode, SqlError};
use sql_lawful::spelled_queries_are_lawful;
use sql_leaves::stop::Stop;
use sql_tokens::{Class, Tokens};
use std::alloc::Global;

/// The longest text, in bytes.
const MAX_BYTES: usize = 262_144;

/// How many primaries a query may have.
const MAX_PRIMARIES: u32 = 4_096;

/// The query that a text spells by the grammar of the S3 Select reference, or the first fault of the text.
///
/// The text may be longer than 262,144 bytes; a place may begin no token; a token may be none that can stand there; and the name
/// before `.*` may be another than the source's. The faults are looked for in this order, and places count bytes from 0. The
/// memory taken is that of the tree.
pub fn parse(alloc: Global, text: &str) -> Result<Query, ParseError>
    ensures parsed { IfOk result (λ query. Spells text.now query) }
    // What is parsed can be bound and evaluated with no further test, by walks that call themselves no deeper than 520 times.
    ensures lawful { IfOk result (λ query. IsLawful query) }
    ensures shallow { IfOk result (λ query. IsShallow query) }
    // A refusal tells the fault that the grammar says the text has, at its place; else memory was wanting.
    ensures refused { (fault : SqlErrorOf) → result ≡ Err (error.Refused fault) → FaultOf text.now fault }
{
    spelled_queries_are_lawful();
    if text.len() > MAX_BYTES {
        return Err(refusal(SqlCode::TooLong, MAX_BYTES as u64));
    }
    let mut tokens = match Tokens::new(text) {
        Ok(tokens) => tokens,
        Err(at) => return Err(refusal(SqlCode::Lexer, at)),
    };
    let mut ahead = tokens.again();
    let mut primaries = MAX_PRIMARIES;
    let outcome = whole(alloc, &mut tokens, &mut ahead, &mut primaries);
    answer(text, &tokens, outcome)
}

fn refusal(code: SqlCode, at: u64) -> ParseError
    ensures { result ≡ error.Refused (record { code = code; at = at }) }
{
    ParseError::Refused(SqlError { code, at })
}

/// Whether no token is in sight.
fn is_at_end(tokens: &Tokens<'_>) -> bool
    ensures { result ≡ at_end tokens.now.symbols }
{
    tokens.sees(Class::NoToken) && tokens.word().is_none()
}

/// The place of the token in sight, or the end of the text.
#[tactic(auto, using(crate::proofs::AnswerSteps::place_anywhere))]
fn place(text: &str, tokens: &Tokens<'_>) -> u64
    requires { NoneIsEnd tokens.now.symbols }
    ensures { result ≡ place_or (length text.now) tokens.now.symbols }
{
    if is_at_end(tokens) {
        return text.len() as u64;
    }
    tokens.place()
}

/// The code of a token that is refused.
fn refused_code(tokens: &Tokens<'_>) -> SqlCode
    ensures { result ≡ refused_code tokens.now.symbols }
{
    if is_agg(tokens.class()) {
        return SqlCode::AggregateMixed;
    }
    SqlCode::Syntax
}

/// The code of a stop at the token in sight, but for want of memory.
fn stop_code(tokens: &Tokens<'_>, reason: Stop) -> Option<SqlCode>
    ensures { result ≡ stop_code reason tokens.now.symbols }
{
    match reason {
        Stop::Refused => Some(refused_code(tokens)),
        Stop::UnknownFunction => Some(SqlCode::UnknownFunction),
        Stop::AggregateMixed => Some(SqlCode::AggregateMixed),
        Stop::UnsupportedType => Some(SqlCode::UnsupportedType),
        Stop::BadEscape => Some(SqlCode::BadEscape),
        Stop::WrongNumber => Some(SqlCode::Syntax),
        Stop::TooDeep => Some(SqlCode::TooDeep),
        Stop::TooMany => Some(SqlCode::TooMany),
        Stop::Memory => None,
    }
}

/// The error that a stop at the token in sight is.
fn stopped(text: &str, tokens: &Tokens<'_>, reason: Stop) -> ParseError
    requires { reason ≢ stop.Memory → NoneIsEnd tokens.now.symbols }
    ensures { result ≡ error_of text.now reason tokens.now.symbols }
{
    match stop_code(tokens, reason) {
        Some(code) => refusal(code, place(text, tokens)),
        None => ParseError::OutOfMemory,
    }
}

/// Whether two names, which may have had quotes, are the same.
fn is_same(name: &Name, own: &str, own_quoted: bool) -> bool
    ensures { result ≡ is_same_name name.now (record { text = own.now; quoted = own_quoted }) }
{
    if name.quoted && own_quoted {
        return name.text.text() == own;
    }
    name.text.text().eq_ignore_ascii_case(own)
}

/// Whether the name before `.*` is the source's.
fn names_source(parts: &Parts) -> bool
    ensures { result ≡ names_source (written parts.now) }
{
    match &parts.list {
        Listed::EverythingOf(name) => match &parts.alias {
            Some(own) => is_same(name, own.text.text(), own.quoted),
            None => is_same(name, "S3Object", false),
        },
        _ => true,
    }
}

/// What is selected.
fn selection(list: Listed) -> Selection
    ensures { result ≡ selection_of (listed list) }
{
    match list {
        Listed::Everything => Selection::All,
        Listed::EverythingOf(_name) => Selection::All,
        Listed::Rows(items) => Selection::Rows(items),
        Listed::Totals(totals) => Selection::Totals(totals),
    }
}

/// The query of these parts.
fn query(parts: Parts) -> Query
    ensures { result ≡ query_of (written parts) }
{
    let Parts {
        list,
        steps,
        alias,
        filter,
        limit,
    } = parts;
    let items = selection(list);
    match filter {
        Some(condition) => Query {
            items,
            alias,
            source: steps,
            filter: Some(condition.into_inner()),
            limit,
        },
        None => Query {
            items,
            alias,
            source: steps,
            filter: None,
            limit,
        },
    }
}

/// The place of the second token.
fn second_place(text: &str) -> u64
    requires short { length text.now < 9223372036854775807 }
    requires cut { lexer_fault text.now ≡ None }
    ensures { result ≡ place_of text.now 1 }
{
    match Tokens::new(text) {
        Ok(tokens) => {
            let mut second = tokens;
            second.skip();
            second.place()
        }
        Err(at) => at,
    }
}

/// The answer where the whole text is read.
fn finished(text: &str, parts: Parts) -> Result<Query, ParseError>
    requires { IsWritten text.now (written parts) }
    ensures parsed { IfOk result (λ query. Spells text.now query) }
    ensures refused { (fault : SqlErrorOf) → result ≡ Err (error.Refused fault) → FaultOf text.now fault }
{
    if names_source(&parts) {
        return Ok(query(parts));
    }
    Err(refusal(SqlCode::Syntax, second_place(text)))
}

/// The answer where these tokens are left.
fn answer(
    text: &str,
    tokens: &Tokens<'_>,
    outcome: Result<Parts, Stop>,
) -> Result<Query, ParseError>
    requires cut { IsCut text.now }
    requires read { (n : ℕ) × GivesAs written (read_whole_query 4096 (symbols_of text.now)) outcome n tokens.now.symbols }
    ensures parsed { IfOk result (λ query. Spells text.now query) }
    ensures refused { (fault : SqlErrorOf) → result ≡ Err (error.Refused fault) → FaultOf text.now fault }
{
    match outcome {
        Ok(parts) => {
            if is_at_end(tokens) {
                return finished(text, parts);
            }
            Err(refusal(refused_code(tokens), place(text, tokens)))
        }
        Err(reason) => Err(stopped(text, tokens, reason)),
    }
}
