//! The bytes of a connection that are kept until their message is answered.
ghost use Rattle.std.specs.Prelude.{◌≡◌, ◌<◌, ◌≤◌, ℕ, List, [], drop, IfErr, IfOk, length, OnOk};
ghost use Rattle.httparse.specs.Grammar.{ReadsRequest, RequestHead};
ghost use Rattle.http_intake.specs.Heads.{judged, most_fields, HasHead, Looks};
ghost use Rattle.http_intake.specs.Coming.{Comes, Halts, LacksBody, LacksHead, LeavesKept, Rests};

use crate::look::{find_head, judged};
use crate::{HEAD_LIMIT, Halt, Look, MOST_FIELDS, Refusal};
use httparse::spans::{EMPTY_HEADER_SPAN, HeaderSpan, RequestSpans};
use network_ports::Listen;
use std::alloc::{AllocError, Global};

/// How many bytes a read asks for.
const PIECE: usize = 65_536;

/// What came on a connection and isn't answered yet.
#[derive(Drop)]
pub struct Intake {
    /// The bytes that came and weren't dropped.
    pub kept: Vec<u8>,
    /// Where the fields of the last head stand among them.
    pub spans: Vec<HeaderSpan>,
    /// The room for a read.
    pub piece: Vec<u8>,
    pub ghost room: { length spans.items ≡ most_fields },
    pub ghost some: { 0 < length piece.items },
}

/// Room for the fields of a head. Its contract tells the length alone: proofs would compute the list.
fn field_room(alloc: Global) -> Result<Vec<HeaderSpan>, AllocError>
    ensures { IfOk result (λ room. length room.items ≡ most_fields) }
{
    vec![in alloc; EMPTY_HEADER_SPAN; MOST_FIELDS]
}

/// Reads once, and keeps what came.
fn fill<L: Listen>(link: &mut L, piece: &mut [u8], kept: &mut Vec<u8>) -> Result<(), Halt>
    requires { 0 < length piece.old }
    ensures ok { OnOk result (Comes (L.seen link.old) (L.seen link.new) kept.old.items kept.new.items) }
    ensures more { OnOk result (length kept.old.items < length kept.new.items) }
    ensures err { IfErr result (Halts (L.seen link.old) (L.seen link.new) kept.old.items kept.new.items) }
    ensures leaves { IfErr result (LeavesKept kept.old.items kept.new.items) }
{
    let Ok(n) = link.read(piece) else {
        return Err(Halt::ReadFault);
    };
    if n == 0 {
        return Err(Halt::Closed);
    }
    if kept.extend_from_slice(&piece[..n]).is_err() {
        return Err(Halt::OutOfMemory);
    }
    Ok(())
}

impl Intake {
    /// An intake to which nothing came yet.
    pub fn new(alloc: Global) -> Result<Intake, AllocError>
        ensures { IfOk result (λ intake. intake.kept.items ≡ []) }
    {
        Ok(Intake {
            kept: Vec::new(alloc),
            spans: field_room(alloc)?,
            piece: select_ports::room(alloc, PIECE)?,
        })
    }

    /// What stands at the front.
    pub fn look(&mut self) -> Look
        ensures front { Looks self.old.kept.items self.new.spans.items result }
        ensures kept { self.new.kept.items ≡ self.old.kept.items }
    {
        find_head(self.kept.as_slice(), self.spans.as_mut_slice())
    }

    /// The bytes in which the spans of a head are places, until more bytes come.
    pub fn front(&self) -> &[u8]
        ensures { result.now ≡ judged self.now.kept.items }
    {
        judged(self.kept.as_slice())
    }

    /// Reads until a head stands at the front.
    pub fn wait_head<L: Listen>(&mut self, link: &mut L) -> Result<RequestSpans, Halt>
        ensures ok { OnOk result (Comes (L.seen link.old) (L.seen link.new) self.old.kept.items self.new.kept.items) }
        ensures head { IfOk result (HasHead self.new.kept.items self.new.spans.items) }

        // Where one is there already, nothing is read.
        ensures idle { (tree : RequestHead) (rest : List ℕ) → ReadsRequest (judged self.old.kept.items) tree rest
            → Rests (L.seen link.old) (L.seen link.new) self.old.kept.items self.new.kept.items }
        ensures err { IfErr result (Halts (L.seen link.old) (L.seen link.new) self.old.kept.items self.new.kept.items) }
        ensures lacks { IfErr result (LacksHead self.new.kept.items) }
    {
        while self.kept.len() < HEAD_LIMIT {
            match self.look() {
                Look::Head(head) => return Ok(head),
                Look::Refused(refusal) => return Err(Halt::Refused(refusal)),
                Look::More => {}
            }
            fill(link, self.piece.as_mut_slice(), &mut self.kept)?;
        }
        match self.look() {
            Look::Head(head) => Ok(head),
            Look::Refused(refusal) => Err(Halt::Refused(refusal)),
            Look::More => Err(Halt::Refused(Refusal::HeadTooLarge)),
        }
    }

    /// Reads until so many bytes are kept.
    pub fn wait_body<L: Listen>(&mut self, link: &mut L, len: usize) -> Result<(), Halt>
        ensures ok { OnOk result (Comes (L.seen link.old) (L.seen link.new) self.old.kept.items self.new.kept.items) }
        ensures enough { OnOk result (len ≤ length self.new.kept.items) }
        ensures spans { self.new.spans.items ≡ self.old.spans.items }

        // Where they are kept already, nothing is read.
        ensures idle { len ≤ length self.old.kept.items
            → Rests (L.seen link.old) (L.seen link.new) self.old.kept.items self.new.kept.items }
        ensures err { IfErr result (Halts (L.seen link.old) (L.seen link.new) self.old.kept.items self.new.kept.items) }
        ensures lacks { IfErr result (LacksBody len self.new.kept.items) }
    {
        while self.kept.len() < len {
            fill(link, self.piece.as_mut_slice(), &mut self.kept)?;
        }
        Ok(())
    }

    /// Drops so many bytes at the front, which were answered.
    pub fn drop_front(&mut self, len: usize)
        requires { len ≤ length self.old.kept.items }
        ensures { self.new.kept.items ≡ drop len self.old.kept.items }
    {
        let left = self.kept.len() - len;
        self.kept.rotate_left(len);
        self.kept.truncate(left);
    }
}
