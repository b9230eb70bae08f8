//! The code of a value's fault.
ghost use Rattle.std.specs.Prelude.{◌≡◌};
ghost use Rattle.record_yields.specs.Codes.{value_code};

use select_reply::Code;
use sql_timestamp::ValueFault;

/// The code of the same name.
pub(crate) fn value_code(fault: ValueFault) -> Code
    ensures { result ≡ value_code fault }
{
    match fault {
        ValueFault::CastFailed => Code::CastFailed,
        ValueFault::IntegerOverflow => Code::IntegerOverflow,
        ValueFault::NumberOverflow => Code::NumberOverflow,
        ValueFault::DivideByZero => Code::DivideByZero,
        ValueFault::TimestampOutOfRange => Code::TimestampOutOfRange,
        ValueFault::InvalidOperands => Code::InvalidOperands,
        ValueFault::InvalidTextEncoding => Code::InvalidTextEncoding,
    }
}
