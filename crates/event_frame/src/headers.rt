// The headers of a message, read where they stand.

ghost use Rattle.std.specs.Prelude.{◌≡◌, ◌<◌, ◌≤◌, List, length, IfSome, MatchOption, IsPermutation, vec_capacity};
ghost use Rattle.std.specs.List.Sorted.{IsSortedBy};
ghost use Rattle.std.specs.Option.{option_copied};
ghost use Rattle.std.specs.Ordering.{is_lt};
ghost use Rattle.event_frame.specs.Message.{Header, print_headers};
ghost use Rattle.event_frame.specs.Reading.{AreHeaders, value_of};
ghost use Rattle.event_frame.specs.HeaderFront.{HasNoHeader, SpellsHeader, EndsWell, EndsBadly};
ghost use Rattle.event_frame.specs.HeaderPlaces.{ListsAllHeaders, IsLeastRepeat, by_name, name_at};

use std::cmp::Ordering;

// The kind of a header whose value is a string.
pub(crate) const STRING_KIND: u8 = 7;

// The most headers that the longest frame can have: one takes 5 bytes or more.
pub(crate) const MOST_HEADERS: usize = 3_355_440;

// A message of fewer headers is looked through with no list of their places.
const FEW_HEADERS: usize = 33;

// The value of the header of this name.
pub(crate) fn value<'h>(headers: &'h [u8], name: &[u8]) -> Option<&'h [u8]>
    ensures { (good : List Header) → AreHeaders good → headers.now ≡ print_headers good → option_copied result ≡ value_of name.now good }
{
    let mut rest = headers;
    while let Some((other, value, after)) = next_header(rest) {
        if other == name {
            return Some(value);
        }
        rest = after;
    }
    None
}

// The place of the first header that is bad: one that can't be written, or whose name came before.
// n bytes cost O(n log n) time and no memory.
pub(crate) fn first_bad(headers: &[u8], places: &mut Vec<u32>) -> Option<usize>
    requires small { length headers.now ≤ 16777200 }
    requires room { 3355440 ≤ vec_capacity places.old }
    ensures bad { MatchOption result (EndsWell headers.now) (EndsBadly headers.now) }
    ensures place { IfSome result (λ at. at < length headers.now) }
    ensures room { vec_capacity places.old ≤ vec_capacity places.new }
{
    let mut at = 0;
    for _ in 0..FEW_HEADERS {
        if at >= headers.len() {
            return None;
        }
        let (front, rest) = headers.split_at(at);
        let Some((name, _, after)) = next_header(rest) else {
            return Some(at);
        };
        if value(front, name).is_some() {
            return Some(at);
        }
        at = headers.len() - after.len();
    }
    first_bad_of_many(headers, places)
}

// The same through a list of the places, sorted by the names that stand there and at one name by the
// places: a header's name came before exactly where its place's left neighbour has that name.
fn first_bad_of_many(headers: &[u8], places: &mut Vec<u32>) -> Option<usize>
    requires small { length headers.now ≤ 16777200 }
    requires room { 3355440 ≤ vec_capacity places.old }
    ensures bad { MatchOption result (EndsWell headers.now) (EndsBadly headers.now) }
    ensures place { IfSome result (λ at. at < length headers.now) }
    ensures room { vec_capacity places.old ≤ vec_capacity places.new }
{
    let end = list_headers(headers, places);
    sort_by_name(headers, places);
    let least = least_repeat(headers, places, end);
    if least < headers.len() {
        Some(least)
    } else {
        None
    }
}

// Makes `places` the places of the headers up to the first that can't be written, and gives their end.
fn list_headers(headers: &[u8], places: &mut Vec<u32>) -> usize
    requires small { length headers.now ≤ 16777200 }
    requires room { 3355440 ≤ vec_capacity places.old }
    ensures lists { ListsAllHeaders headers.now places.new.items result }
    ensures room { vec_capacity places.old ≤ vec_capacity places.new }
{
    places.clear();
    let mut rest = headers;
    while let Some((_, _, after)) = next_header(rest) {
        places.push_reserved((headers.len() - rest.len()) as u32);
        rest = after;
    }
    headers.len() - rest.len()
}

// Sorts the places by the names that stand there, and at one name by the places.
fn sort_by_name(headers: &[u8], places: &mut Vec<u32>)
    ensures moved { IsPermutation places.old.items places.new.items }
    ensures sorted { IsSortedBy (λ p q. is_lt (by_name headers.now p q)) places.new.items }
    ensures room { vec_capacity places.old ≤ vec_capacity places.new }
{
    places.sort_unstable_by(|p, q| by_name(headers, *p, *q));
}

// The order of two places.
fn by_name(headers: &[u8], p: u32, q: u32) -> Ordering
    ensures { result ≡ by_name headers.now p q }
{
    name_at(headers, p)
        .cmp(&name_at(headers, q))
        .then(p.cmp(&q))
}

// The least place whose left neighbour has the same name; the end, where there is none.
fn least_repeat(headers: &[u8], places: &[u32], end: usize) -> usize
    ensures { IsLeastRepeat headers.now places.now end result }
{
    let mut least = end;
    for i in 1..places.len() {
        let place = places[i];
        if name_at(headers, places[i - 1]) == name_at(headers, place) {
            least = least.min(place as usize);
        }
    }
    least
}

// The name of the header at a place.
#[tactic(auto, unfolding(crate::specs::HeaderPlaces::name_at))]
fn name_at(headers: &[u8], place: u32) -> &[u8]
    ensures { result.now ≡ name_at headers.now place }
{
    let (_, rest) = headers.split_at(headers.len().min(place as usize));
    let Some((length, rest)) = rest.split_first() else {
        return rest;
    };
    rest.split_at(rest.len().min(usize::from(*length))).0
}

// The name and the value of the header at the front, and what comes after it.
fn next_header(bytes: &[u8]) -> Option<(&[u8], &[u8], &[u8])>
    ensures { MatchOption result (HasNoHeader bytes.now) (λ r. SpellsHeader bytes.now r.0.now r.1.now r.2.now) }
{
    let (length, rest) = bytes.split_first()?;
    if *length == 0 {
        return None;
    }
    let (name, rest) = rest.split_at_checked(usize::from(*length))?;
    let [kind, high, low, rest @ ..] = rest else {
        return None;
    };
    if *kind != STRING_KIND {
        return None;
    }
    let (value, rest) = rest.split_at_checked(usize::from(u16::from_be_bytes([*high, *low])))?;
    Some((name, value, rest))
}
