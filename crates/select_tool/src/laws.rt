//! Laws of listings and tilings.
ghost use Rattle.std.specs.Prelude.{List, ℕ, Some};
ghost use Rattle.select_tool.specs.declared.listing.Listing.{Listing};
ghost use Rattle.select_tool.specs.Endings.{Ending};
ghost use Rattle.select_tool.specs.Listings.{IsListed, IsOneAnswer};
ghost use Rattle.select_tool.specs.Whole.{EachTilingMakesWhole};

use event_frame::{counts_have_one_reading, stream_has_one_reading};
use select_engine::{planned_lines_are_alone, tiles_have_each_record_once};

/// An input of replies ends in one way, and one list of bytes is listed of it.
pub fn replies_have_one_listing()
    ensures { (listing : Listing) (input before now other_now : List ℕ) (ending other_ending : Ending)
        → IsListed listing input ending (Some before) (Some now) → IsListed listing input other_ending (Some before) (Some other_now)
        → IsOneAnswer ending other_ending now other_now }
{
    stream_has_one_reading();
    counts_have_one_reading();
}

/// The tiles of an object have each line of the whole once, and the replies to them, without aggregates, make the reply to the whole.
pub fn replies_make_the_whole()
    ensures { EachTilingMakesWhole }
{
    tiles_have_each_record_once();
    planned_lines_are_alone();
    select_reply::tiles_make_the_whole();
}
