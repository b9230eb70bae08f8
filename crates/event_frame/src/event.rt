// The event that the headers and the payload of a message mean.

ghost use Rattle.std.specs.Prelude.{◌≡◌, List};
ghost use Rattle.std.specs.Option.{option_map};
ghost use Rattle.event_frame.specs.Message.{Header, print_headers};
ghost use Rattle.event_frame.specs.Reading.{AreHeaders, event_meant, event_named, error_meant};
ghost use Rattle.event_frame.specs.Shown.{event_shown};

use crate::headers::value;

/// An event of a SelectObjectContent reply (Amazon S3 API Reference) that was read, lent from the frame
/// that it came in.
#[derive(Clone, Copy, Debug, PartialEq, Eq)]
pub enum EventView<'r> {
    /// Output of the query.
    Records(&'r [u8]),
    /// A sign of life.
    Cont,
    /// The text of the counts so far.
    Progress(&'r [u8]),
    /// The text of the last counts.
    Stats(&'r [u8]),
    /// The whole reply came.
    End,
    /// The query ended here.
    Error { code: &'r [u8], message: &'r [u8] },
}

const EVENT: &[u8] = b"event";

const ERROR: &[u8] = b"error";

const RECORDS: &[u8] = b"Records";

const CONT: &[u8] = b"Cont";

const PROGRESS: &[u8] = b"Progress";

const STATS: &[u8] = b"Stats";

const END: &[u8] = b"End";

// The event of a message with these headers and this payload.
pub(crate) fn event<'f>(headers: &'f [u8], payload: &'f [u8]) -> Option<EventView<'f>>
    ensures { (good : List Header) → AreHeaders good → headers.now ≡ print_headers good → option_map event_shown result ≡ event_meant good payload.now }
{
    let kind = value(headers, b":message-type")?;
    if kind == EVENT {
        let name = value(headers, b":event-type")?;
        return named(name, payload);
    }
    if kind == ERROR {
        return error(headers);
    }
    None
}

fn named<'f>(name: &[u8], payload: &'f [u8]) -> Option<EventView<'f>>
    ensures { option_map event_shown result ≡ event_named name.now payload.now }
{
    if name == RECORDS {
        return Some(EventView::Records(payload));
    }
    if name == CONT {
        return Some(EventView::Cont);
    }
    if name == PROGRESS {
        return Some(EventView::Progress(payload));
    }
    if name == STATS {
        return Some(EventView::Stats(payload));
    }
    if name == END {
        return Some(EventView::End);
    }
    None
}

fn error(headers: &[u8]) -> Option<EventView<'_>>
    ensures { (good : List Header) → AreHeaders good → headers.now ≡ print_headers good → option_map event_shown result ≡ error_meant good }
{
    let code = value(headers, b":error-code")?;
    let message = value(headers, b":error-message").unwrap_or(b"");
    Some(EventView::Error { code, message })
}
