//! The kinds of values.
ghost use Rattle.std.specs.Prelude.{◌≡◌};
ghost use Rattle.thrift_compact.specs.Codes.{kind_of};

/// The kind of a value, as a field header or a list header names it (Apache Thrift compact
/// protocol, "Struct encoding").
///
/// `True` and `False` are the two truth values of a struct's field, which its header alone gives.
/// As the kind of a list's members either of them says that they are truth values of one byte.
#[derive(Clone, Copy, PartialEq, Eq, Debug)]
pub enum Kind {
    True,
    False,
    I8,
    I16,
    I32,
    I64,
    Double,
    Binary,
    List,
    Set,
    Map,
    Struct,
}

pub(crate) fn kind_of(code: u8) -> Option<Kind>
    ensures { result ≡ kind_of code }
{
    match code {
        1 => Some(Kind::True),
        2 => Some(Kind::False),
        3 => Some(Kind::I8),
        4 => Some(Kind::I16),
        5 => Some(Kind::I32),
        6 => Some(Kind::I64),
        7 => Some(Kind::Double),
        8 => Some(Kind::Binary),
        9 => Some(Kind::List),
        10 => Some(Kind::Set),
        11 => Some(Kind::Map),
        12 => Some(Kind::Struct),
        _ => None,
    }
}
