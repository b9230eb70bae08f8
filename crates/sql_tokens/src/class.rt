//! The classes of tokens.
ghost use Rattle.std.specs.Prelude.{◌≡◌, ◌<◌};
ghost use Rattle.sql_tokens.specs.Classes.{code, same_class};

/// What a token is to the grammar. A word is told by its letters in any ASCII case, and a name whose variant ends in
/// `Called` has a `(` behind it, with blanks between or none.
#[derive(Clone, Copy, Debug)]
pub enum Class {
    // Reserved words, each a class of its own.
    Select,
    From,
    Where,
    Limit,
    As,
    And,
    Or,
    Not,
    In,
    Like,
    Escape,
    Between,
    Is,
    Null,
    Missing,
    True,
    False,
    Case,
    When,
    Then,
    Else,
    End,
    Cast,
    Leading,
    Trailing,
    Both,

    // Symbols.
    /// `(`.
    LeftParenthesis,
    /// `)`.
    RightParenthesis,
    /// `,`.
    Comma,
    /// `.`.
    Dot,
    /// `[`.
    LeftBracket,
    /// `]`.
    RightBracket,
    /// `*`.
    Star,
    /// `+`.
    Plus,
    /// `-`.
    Minus,
    /// `/`.
    Slash,
    /// `%`.
    Percent,
    /// `=`.
    Equal,
    /// `<>` or `!=`.
    NotEqual,
    /// `<`.
    Less,
    /// `<=`.
    LessOrEqual,
    /// `>`.
    Greater,
    /// `>=`.
    GreaterOrEqual,
    /// `;`.
    Semicolon,

    // Literals.
    /// A text in `'`.
    Text,
    /// Digits.
    WholeNumber,
    /// Digits with a point before or among them.
    PointNumber,
    /// A number with an exponent.
    ExponentNumber,

    // Names.
    /// A word that is no keyword in its place.
    Name,
    /// A word before `(` that is no known function or aggregate.
    NameCalled,
    /// A name in `"`.
    QuotedName,
    /// A name in `"` before `(`.
    QuotedNameCalled,

    // Names that are keywords in some places: the source, a type, a part of a timestamp.
    S3Object,
    S3ObjectCalled,
    For,
    ForCalled,
    /// `BOOL` or `BOOLEAN`.
    BoolType,
    BoolTypeCalled,
    /// `INT` or `INTEGER`.
    IntType,
    IntTypeCalled,
    StringType,
    StringTypeCalled,
    TimestampType,
    TimestampTypeCalled,
    /// `DECIMAL` or `NUMERIC`.
    DecimalType,
    DecimalTypeCalled,
    Year,
    YearCalled,
    Month,
    MonthCalled,
    Day,
    DayCalled,
    Hour,
    HourCalled,
    Minute,
    MinuteCalled,
    Second,
    SecondCalled,
    TimezoneHour,
    TimezoneHourCalled,
    TimezoneMinute,
    TimezoneMinuteCalled,

    // Aggregates and functions.
    CountCalled,
    SumCalled,
    MinCalled,
    MaxCalled,
    AvgCalled,
    CoalesceCalled,
    NullifCalled,
    /// `CHAR_LENGTH` or `CHARACTER_LENGTH`.
    CharLengthCalled,
    LowerCalled,
    UpperCalled,
    SubstringCalled,
    TrimCalled,
    ExtractCalled,
    DateAddCalled,
    ToTimestampCalled,

    /// No token: what is left of the text begins with none.
    Unfit,
    /// The end of the text.
    NoToken,
}

impl Class {
    /// Its place among the classes.
    pub fn code(self) -> usize
        ensures value { result ≡ code self }
        ensures within { result < 99 }
    {
        self as usize
    }

    /// Whether it is that class.
    #[inline]
    #[tactic(auto, unfolding(crate::specs::Classes::same_class))]
    pub fn is(self, class: Class) -> bool
        ensures { result ≡ same_class class self }
    {
        class.code() == self.code()
    }
}
