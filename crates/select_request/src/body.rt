//! A request body is read.
ghost use Rattle.std.specs.Prelude.{◌≡◌, ◌≤◌, length, IfOk, IsTrue};
ghost use Rattle.select_request.specs.declared.fault.RequestFaultCode.TheVariants.{MalformedXML};
ghost use Rattle.select_request.specs.declared.fault.RequestFault.{RequestFault};
ghost use Rattle.select_request.specs.declared.request.SelectRequest.{SelectRequest};
ghost use Rattle.select_request.specs.declared.fault.ReadError.TheVariants.{Refused};
ghost use Rattle.select_request.specs.Printable.{longest_expression, is_valid, is_printable};
ghost use Rattle.select_request.specs.Reading.{longest_body, SpellsRequest, HasFault, Reads, Gives, Refuses};

use crate::fault::{ReadError, RequestFault, RequestFaultCode};
use crate::request::SelectRequest;
use crate::settings::request_of;
use request_elements::{ElementsError, read_elements};
use std::alloc::Global;

/// The longest body that is read, in bytes: a limit of this crate.
pub const LONGEST_BODY: usize = 2_097_152;

/// The body is none by its grammar, at this place.
fn malformed(at: usize) -> RequestFault
    ensures { result ≡ record { code = MalformedXML; at = at } }
{
    RequestFault {
        code: RequestFaultCode::MalformedXML,
        at: at as u64,
    }
}

/// Reads a request body, the XML of Amazon S3's `SelectObjectContentRequest`. A body that is refused has its first fault,
/// with its place in bytes from the body's front. One over [`LONGEST_BODY`] bytes is `MalformedXML` at that place.
pub fn read(alloc: Global, body: &[u8]) -> Result<SelectRequest, ReadError>
    ensures reads { Reads body.now result }
    ensures valid { IfOk result (λ request. IsTrue (is_valid request)) }
    // And where its expression has at most 262,144 bytes, it can be printed.
    ensures printable { IfOk result (λ request. length request.expression ≤ longest_expression → IsTrue (is_printable request)) }

    // A request that the body spells is the answer, and so is a fault that it has, but for want of memory.
    ensures request { (request : SelectRequest) → SpellsRequest body.now request → Gives request result }
    ensures fault { (fault : RequestFault) → HasFault body.now fault → Refuses fault result }
{
    if body.len() > LONGEST_BODY {
        return Err(ReadError::Refused(malformed(LONGEST_BODY)));
    }
    match read_elements(alloc, body) {
        Ok(found) => match request_of(alloc, found) {
            Ok(request) => Ok(request),
            Err(fault) => Err(ReadError::Refused(fault)),
        },
        Err(ElementsError::Malformed(at)) => Err(ReadError::Refused(malformed(at))),
        Err(ElementsError::OutOfMemory) => Err(ReadError::OutOfMemory),
    }
}
