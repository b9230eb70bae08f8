//! The law of output that isn't due.
ghost use Rattle.select_engine.specs.Early.{UnreadIsNotDue};

use record_stream::{unread_quoted_records_are_late, unread_records_are_late};

/// Where no more than a header was read of an object, no output had to be written.
pub fn unread_output_is_not_due()
    ensures { UnreadIsNotDue }
{
    unread_records_are_late();
    unread_quoted_records_are_late();
}
