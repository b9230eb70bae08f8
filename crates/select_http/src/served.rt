//! How the serving of a connection ended.

#[derive(Clone, Copy, Debug, PartialEq, Eq)]
pub enum End {
    /// The peer ended the connection.
    PeerClosed,
    /// The last message asked for the connection's end.
    AskedClose,
    /// What came can't be a message that is read.
    Refused,
    /// The connection has had its messages.
    Counted,
    ReadFault,
    WriteFault,
    StoreFault,
    OutOfMemory,
}

/// How many replies were sent whole, and how the connection ended.
#[derive(Clone, Copy, Debug, PartialEq, Eq)]
pub struct Served {
    pub requests: u32,
    pub end: End,
}
