//! The codes of refusals.
ghost use Rattle.std.specs.Prelude.{◌≡◌};
ghost use Rattle.select_job.specs.Codes.{request_code, sql_code};

use select_reply::Code;
use select_request::RequestFaultCode;
use sql_grammar::SqlCode;

/// The code of the same name.
pub(crate) fn request_code(code: RequestFaultCode) -> Code
    ensures { result ≡ request_code code }
{
    match code {
        RequestFaultCode::MalformedXML => Code::MalformedXML,
        RequestFaultCode::MissingRequiredParameter => Code::MissingRequiredParameter,
        RequestFaultCode::InvalidExpressionType => Code::InvalidExpressionType,
        RequestFaultCode::InvalidRequestParameter => Code::InvalidRequestParameter,
        RequestFaultCode::InvalidCompressionFormat => Code::InvalidCompressionFormat,
        RequestFaultCode::InvalidScanRange => Code::InvalidScanRange,
        RequestFaultCode::UnsupportedScanRangeInput => Code::UnsupportedScanRangeInput,
    }
}

/// The code of the same name.
pub(crate) fn sql_code(code: SqlCode) -> Code
    ensures { result ≡ sql_code code }
{
    match code {
        SqlCode::Lexer => Code::Lexer,
        SqlCode::Syntax => Code::Syntax,
        SqlCode::UnknownFunction => Code::UnknownFunction,
        SqlCode::UnsupportedType => Code::UnsupportedType,
        SqlCode::AggregateMixed => Code::AggregateMixed,
        SqlCode::BadEscape => Code::BadEscape,
        SqlCode::TooLong => Code::TooLong,
        SqlCode::TooDeep => Code::TooDeep,
        SqlCode::TooMany => Code::TooMany,
    }
}
