//! The law of servings.
ghost use Rattle.select_http.specs.OneServing.{EachIsServedOnce};

use select_engine::body_asks_one_thing;

/// What comes on a connection is served in one way: in the same messages, with the same answers. Where no head stands in front of
/// what is left, a refusal may come sooner or later.
pub fn connections_are_served_once()
    ensures { EachIsServedOnce }
{
    body_asks_one_thing();
}
