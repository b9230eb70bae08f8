//! Which names stand for objects of a folder.
ghost use Rattle.std.specs.Prelude.{◌≡◌, not};
ghost use Rattle.std.specs.List.{list_any, list_all};
ghost use Rattle.select_ports.specs.Names.{names_entry, is_barred, is_plain, segments_of};

/// Whether the name keeps within its folder: it holds neither NUL nor a backslash, and none of the segments between its
/// slashes is empty, `.` or `..`.
pub fn is_plain_name(name: &str) -> bool
    ensures { result ≡ is_plain name.now }
{
    !has_barred_byte(name) && all_name_entries(name)
}

fn has_barred_byte(name: &str) -> bool
    ensures { result ≡ list_any is_barred name.now }
{
    name.as_bytes().iter().any(|b| *b == 0 || *b == b'\\')
}

fn all_name_entries(name: &str) -> bool
    ensures { result ≡ list_all names_entry (segments_of name.now) }
{
    let mut rest = name;
    while let Some((segment, behind)) = rest.split_once('/') {
        if !is_entry_name(segment) {
            return false;
        }
        rest = behind;
    }
    is_entry_name(rest)
}

fn is_entry_name(segment: &str) -> bool
    ensures { result ≡ names_entry segment.now }
{
    !(segment == "" || segment == "." || segment == "..")
}
