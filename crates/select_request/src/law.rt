//! What is printed is read, and each body is read in one way.
ghost use Rattle.std.specs.Prelude.{◌≡◌, ℕ, List, Result, Ok, IsTrue, IsUtf8};
ghost use Rattle.select_request.specs.Printable.{is_printable};
ghost use Rattle.select_request.specs.Printed.{printed};
ghost use Rattle.select_request.specs.Reading.{SpellsRequest, HasReading, SomeReading};
ghost use Rattle.select_request.specs.declared.fault.RequestFault.{RequestFault};
ghost use Rattle.select_request.specs.declared.request.SelectRequest.{SelectRequest};

/// Each body spells one request, or has one fault, and not both.
pub fn body_has_one_reading()
    ensures some { (body : List ℕ) → SomeReading body }
    ensures one { (body : List ℕ) (reading other : Result SelectRequest RequestFault)
        → HasReading body reading → HasReading body other → reading ≡ other }
{}

/// What [`print`](crate::print) writes for a printable request is a body that spells it, and is read as nothing else.
pub fn printed_request_is_read()
    ensures spells { (request : SelectRequest) → IsUtf8 request.expression → IsTrue (is_printable request)
        → SpellsRequest (printed request) request }
    ensures only { (request : SelectRequest) (reading : Result SelectRequest RequestFault)
        → IsUtf8 request.expression → IsTrue (is_printable request)
        → HasReading (printed request) reading → reading ≡ Ok request }
{}
