//! Lookups in the elements found in a body.
ghost use Rattle.std.specs.Prelude.{◌≡◌, option_map};
ghost use Rattle.select_request.specs.Request.{find, has, text_in, place_in};

use request_elements::{Element, Found, TextBuf};

/// The first of the elements found that is this one.
fn find(found: &[Found], element: Element) -> Option<&Found>
    ensures { option_map (λ f. f.now) result ≡ find element found.now }
{
    for one in found {
        if one.element == element {
            return Some(one);
        }
    }
    None
}

/// The element's text.
pub(crate) fn text_in(found: &[Found], element: Element) -> Option<&str>
    ensures { option_map (λ t. t.now) result ≡ text_in element found.now }
{
    match find(found, element) {
        Some(one) => Some(one.text.text()),
        None => None,
    }
}

/// Whether the element is there.
pub(crate) fn has(found: &[Found], element: Element) -> bool
    ensures { result ≡ has element found.now }
{
    text_in(found, element).is_some()
}

/// The place of the element's start tag, or 0 where it isn't there.
pub(crate) fn place_in(found: &[Found], element: Element) -> u64
    ensures { result ≡ place_in element found.now }
{
    match find(found, element) {
        Some(one) => one.at as u64,
        None => 0,
    }
}

/// The element's text, taken out of the list.
pub(crate) fn take_text(found: Vec<Found>, element: Element) -> Option<TextBuf>
    ensures { result ≡ text_in element found.items }
{
    for one in found {
        if one.element == element {
            return Some(one.text);
        }
    }
    None
}
