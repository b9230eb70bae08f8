//! The keywords, and the class of a word.
ghost use Rattle.std.specs.Prelude.{◌≡◌, [], map, if◌then◌else◌};
ghost use Rattle.std.specs.Str.{str_eq_ignore_ascii_case};
ghost use Rattle.sql_tokens.specs.Keywords.{class_in, class_of_word, keywords, of_length};
ghost use Rattle.sql_tokens.specs.KeywordTable.{entry};

use crate::class::Class;

/// A keyword with its class, and its class where `(` stands behind it.
pub(crate) struct Keyword {
    word: &'static [u8],
    plain: Class,
    called: Class,
}

/// The keywords of two bytes.
static TWO: [Keyword; 4] = [
    Keyword {
        word: b"AS",
        plain: Class::As,
        called: Class::As,
    },
    Keyword {
        word: b"OR",
        plain: Class::Or,
        called: Class::Or,
    },
    Keyword {
        word: b"IN",
        plain: Class::In,
        called: Class::In,
    },
    Keyword {
        word: b"IS",
        plain: Class::Is,
        called: Class::Is,
    },
];

/// The keywords of three bytes.
static THREE: [Keyword; 10] = [
    Keyword {
        word: b"AND",
        plain: Class::And,
        called: Class::And,
    },
    Keyword {
        word: b"NOT",
        plain: Class::Not,
        called: Class::Not,
    },
    Keyword {
        word: b"END",
        plain: Class::End,
        called: Class::End,
    },
    Keyword {
        word: b"FOR",
        plain: Class::For,
        called: Class::ForCalled,
    },
    Keyword {
        word: b"INT",
        plain: Class::IntType,
        called: Class::IntTypeCalled,
    },
    Keyword {
        word: b"DAY",
        plain: Class::Day,
        called: Class::DayCalled,
    },
    Keyword {
        word: b"SUM",
        plain: Class::Name,
        called: Class::SumCalled,
    },
    Keyword {
        word: b"MIN",
        plain: Class::Name,
        called: Class::MinCalled,
    },
    Keyword {
        word: b"MAX",
        plain: Class::Name,
        called: Class::MaxCalled,
    },
    Keyword {
        word: b"AVG",
        plain: Class::Name,
        called: Class::AvgCalled,
    },
];

/// The keywords of four bytes.
static FOUR: [Keyword; 14] = [
    Keyword {
        word: b"FROM",
        plain: Class::From,
        called: Class::From,
    },
    Keyword {
        word: b"LIKE",
        plain: Class::Like,
        called: Class::Like,
    },
    Keyword {
        word: b"NULL",
        plain: Class::Null,
        called: Class::Null,
    },
    Keyword {
        word: b"TRUE",
        plain: Class::True,
        called: Class::True,
    },
    Keyword {
        word: b"CASE",
        plain: Class::Case,
        called: Class::Case,
    },
    Keyword {
        word: b"WHEN",
        plain: Class::When,
        called: Class::When,
    },
    Keyword {
        word: b"THEN",
        plain: Class::Then,
        called: Class::Then,
    },
    Keyword {
        word: b"ELSE",
        plain: Class::Else,
        called: Class::Else,
    },
    Keyword {
        word: b"CAST",
        plain: Class::Cast,
        called: Class::Cast,
    },
    Keyword {
        word: b"BOTH",
        plain: Class::Both,
        called: Class::Both,
    },
    Keyword {
        word: b"BOOL",
        plain: Class::BoolType,
        called: Class::BoolTypeCalled,
    },
    Keyword {
        word: b"YEAR",
        plain: Class::Year,
        called: Class::YearCalled,
    },
    Keyword {
        word: b"HOUR",
        plain: Class::Hour,
        called: Class::HourCalled,
    },
    Keyword {
        word: b"TRIM",
        plain: Class::Name,
        called: Class::TrimCalled,
    },
];

/// The keywords of five bytes.
static FIVE: [Keyword; 7] = [
    Keyword {
        word: b"WHERE",
        plain: Class::Where,
        called: Class::Where,
    },
    Keyword {
        word: b"LIMIT",
        plain: Class::Limit,
        called: Class::Limit,
    },
    Keyword {
        word: b"FALSE",
        plain: Class::False,
        called: Class::False,
    },
    Keyword {
        word: b"MONTH",
        plain: Class::Month,
        called: Class::MonthCalled,
    },
    Keyword {
        word: b"COUNT",
        plain: Class::Name,
        called: Class::CountCalled,
    },
    Keyword {
        word: b"LOWER",
        plain: Class::Name,
        called: Class::LowerCalled,
    },
    Keyword {
        word: b"UPPER",
        plain: Class::Name,
        called: Class::UpperCalled,
    },
];

/// The keywords of six bytes.
static SIX: [Keyword; 6] = [
    Keyword {
        word: b"SELECT",
        plain: Class::Select,
        called: Class::Select,
    },
    Keyword {
        word: b"ESCAPE",
        plain: Class::Escape,
        called: Class::Escape,
    },
    Keyword {
        word: b"STRING",
        plain: Class::StringType,
        called: Class::StringTypeCalled,
    },
    Keyword {
        word: b"MINUTE",
        plain: Class::Minute,
        called: Class::MinuteCalled,
    },
    Keyword {
        word: b"SECOND",
        plain: Class::Second,
        called: Class::SecondCalled,
    },
    Keyword {
        word: b"NULLIF",
        plain: Class::Name,
        called: Class::NullifCalled,
    },
];

/// The keywords of seven bytes.
static SEVEN: [Keyword; 8] = [
    Keyword {
        word: b"BETWEEN",
        plain: Class::Between,
        called: Class::Between,
    },
    Keyword {
        word: b"MISSING",
        plain: Class::Missing,
        called: Class::Missing,
    },
    Keyword {
        word: b"LEADING",
        plain: Class::Leading,
        called: Class::Leading,
    },
    Keyword {
        word: b"BOOLEAN",
        plain: Class::BoolType,
        called: Class::BoolTypeCalled,
    },
    Keyword {
        word: b"INTEGER",
        plain: Class::IntType,
        called: Class::IntTypeCalled,
    },
    Keyword {
        word: b"DECIMAL",
        plain: Class::DecimalType,
        called: Class::DecimalTypeCalled,
    },
    Keyword {
        word: b"NUMERIC",
        plain: Class::DecimalType,
        called: Class::DecimalTypeCalled,
    },
    Keyword {
        word: b"EXTRACT",
        plain: Class::Name,
        called: Class::ExtractCalled,
    },
];

/// The keywords of eight bytes.
static EIGHT: [Keyword; 4] = [
    Keyword {
        word: b"TRAILING",
        plain: Class::Trailing,
        called: Class::Trailing,
    },
    Keyword {
        word: b"S3Object",
        plain: Class::S3Object,
        called: Class::S3ObjectCalled,
    },
    Keyword {
        word: b"COALESCE",
        plain: Class::Name,
        called: Class::CoalesceCalled,
    },
    Keyword {
        word: b"DATE_ADD",
        plain: Class::Name,
        called: Class::DateAddCalled,
    },
];

/// The keywords of nine bytes.
static NINE: [Keyword; 2] = [
    Keyword {
        word: b"TIMESTAMP",
        plain: Class::TimestampType,
        called: Class::TimestampTypeCalled,
    },
    Keyword {
        word: b"SUBSTRING",
        plain: Class::Name,
        called: Class::SubstringCalled,
    },
];

/// The keywords of eleven bytes.
static ELEVEN: [Keyword; 1] = [Keyword {
    word: b"CHAR_LENGTH",
    plain: Class::Name,
    called: Class::CharLengthCalled,
}];

/// The keywords of twelve bytes.
static TWELVE: [Keyword; 1] = [Keyword {
    word: b"TO_TIMESTAMP",
    plain: Class::Name,
    called: Class::ToTimestampCalled,
}];

/// The keywords of thirteen bytes.
static THIRTEEN: [Keyword; 1] = [Keyword {
    word: b"TIMEZONE_HOUR",
    plain: Class::TimezoneHour,
    called: Class::TimezoneHourCalled,
}];

/// The keywords of fifteen bytes.
static FIFTEEN: [Keyword; 1] = [Keyword {
    word: b"TIMEZONE_MINUTE",
    plain: Class::TimezoneMinute,
    called: Class::TimezoneMinuteCalled,
}];

/// The keywords of sixteen bytes.
static SIXTEEN: [Keyword; 1] = [Keyword {
    word: b"CHARACTER_LENGTH",
    plain: Class::Name,
    called: Class::CharLengthCalled,
}];

/// The keywords of so many bytes.
fn of_length(len: usize) -> &'static [Keyword]
    ensures { map entry result.now ≡ of_length len keywords }
{
    match len {
        2 => &TWO,
        3 => &THREE,
        4 => &FOUR,
        5 => &FIVE,
        6 => &SIX,
        7 => &SEVEN,
        8 => &EIGHT,
        9 => &NINE,
        11 => &ELEVEN,
        12 => &TWELVE,
        13 => &THIRTEEN,
        15 => &FIFTEEN,
        16 => &SIXTEEN,
        _ => &[],
    }
}

/// The class of a word, before `(` or not.
pub(crate) fn class_of_word(called: bool, word: &[u8]) -> Class
    ensures { result ≡ class_of_word called word.now }
{
    class_in(of_length(word.len()), called, word)
}

/// The class of a word among these keywords.
fn class_in(table: &[Keyword], called: bool, word: &[u8]) -> Class
    ensures { result ≡ class_in (map entry table.now) called word.now }
{
    let mut left = table;
    'keywords: while let Some((keyword, rest)) = left.split_first() {
        if keyword.spells(word) {
            return keyword.class(called);
        }
        left = rest;
    }
    name(called)
}

/// The class of a word that is no keyword.
fn name(called: bool) -> Class
    ensures { result ≡ class_in [] called [] }
{
    if called {
        Class::NameCalled
    } else {
        Class::Name
    }
}

impl Keyword {
    /// Whether it is this word, in any ASCII case.
    fn spells(&self, word: &[u8]) -> bool
        ensures { result ≡ str_eq_ignore_ascii_case self.now.word.now word.now }
    {
        self.word.eq_ignore_ascii_case(word)
    }

    /// Its class, before `(` or not.
    fn class(&self, called: bool) -> Class
        ensures { result ≡ (if called then self.now.called else self.now.plain) }
    {
        if called { self.called } else { self.plain }
    }
}
