//! Laws of masks and walks. The functions do nothing: their contracts are the laws.
ghost use Rattle.byte_masks.specs.Masks.{MarksArePlaces, PlacesAppend};
ghost use Rattle.byte_masks.specs.Walks.{AddedBytesKeep};

/// The set bits of a mask are the places of the bytes that pass its test, and the places of a whole are those of its parts.
pub fn marks_are_places()
    ensures marks { MarksArePlaces }
    ensures append { PlacesAppend }
{}

/// Bytes that are added at a slice's end leave a walk where it stands, so that a buffer may be filled further between two calls.
pub fn added_bytes_keep()
    ensures { AddedBytesKeep }
{}
