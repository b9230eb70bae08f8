//! The law of what a body asks.
ghost use Rattle.select_job.specs.Prepared.{EachAsksOneThing};

use select_request::body_has_one_reading;
use select_sql::texts_have_one_parse;

/// A body asks one thing: one request with its query, or one refusal.
pub fn body_asks_one_thing()
    ensures { EachAsksOneThing }
{
    body_has_one_reading();
    texts_have_one_parse();
}
