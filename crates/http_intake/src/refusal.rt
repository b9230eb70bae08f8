//! Why a message is refused before its query is prepared, and how that is told.
ghost use Rattle.std.specs.Prelude.{◌≡◌};

/// A refusal, in the order in which they are tried.
#[derive(Clone, Copy, Debug, PartialEq, Eq)]
pub enum Refusal {
    /// The bytes begin no head.
    BadHead,
    /// No head is whole within its limit.
    HeadTooLarge,
    /// HTTP/1.0.
    OldVersion,
    /// A body in a transfer coding.
    TransferEncoding,
    /// A Content-Length that is no number, or two that differ.
    BadLength,
    /// A POST without Content-Length.
    NoLength,
    /// A body over its limit.
    BodyTooLarge,
    /// A method other than POST.
    NotPost,
    /// A target that names no object.
    BadTarget,
    /// A query that asks for another operation.
    NotSelect,
}

impl Refusal {
    ghost use Rattle.http_intake.specs.Table.{status_of, reason_of, code_of, closes_after};

    /// The status code of the reply.
    pub fn status(self) -> u16
        ensures { result ≡ status_of self }
    {
        match self {
            Refusal::BadHead | Refusal::BadLength | Refusal::BadTarget => 400,
            Refusal::NotPost => 405,
            Refusal::NoLength => 411,
            Refusal::BodyTooLarge => 413,
            Refusal::HeadTooLarge => 431,
            Refusal::TransferEncoding | Refusal::NotSelect => 501,
            Refusal::OldVersion => 505,
        }
    }

    /// The reason phrase of the reply.
    pub fn reason(self) -> &'static str
        ensures { result.now ≡ reason_of self }
    {
        match self {
            Refusal::BadHead | Refusal::BadLength | Refusal::BadTarget => "Bad Request",
            Refusal::NotPost => "Method Not Allowed",
            Refusal::NoLength => "Length Required",
            Refusal::BodyTooLarge => "Content Too Large",
            Refusal::HeadTooLarge => "Request Header Fields Too Large",
            Refusal::TransferEncoding | Refusal::NotSelect => "Not Implemented",
            Refusal::OldVersion => "HTTP Version Not Supported",
        }
    }

    /// The code in the body of the reply.
    pub fn code(self) -> &'static str
        ensures { result.now ≡ code_of self }
    {
        match self {
            Refusal::BadHead | Refusal::BadLength => "InvalidRequest",
            Refusal::HeadTooLarge => "HeadersTooLarge",
            Refusal::OldVersion => "HTTPVersionNotSupported",
            Refusal::TransferEncoding | Refusal::NotSelect => "NotImplemented",
            Refusal::NoLength => "MissingContentLength",
            Refusal::BodyTooLarge => "EntityTooLarge",
            Refusal::NotPost => "MethodNotAllowed",
            Refusal::BadTarget => "InvalidURI",
        }
    }

    /// Whether the connection closes behind the reply.
    pub fn closes(self) -> bool
        ensures { result ≡ closes_after self }
    {
        !matches!(
            self,
            Refusal::NotPost | Refusal::BadTarget | Refusal::NotSelect
        )
    }
}
