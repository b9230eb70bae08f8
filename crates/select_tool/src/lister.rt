//! Writing what is listed of each event.
use crate::listing::Listing;
use crate::show::{LINE_ROOM, print};
use event_frame::EventView;
use select_ports::{Failed, Sink, write_all};
use std::alloc::{AllocError, Global};
use std::marker::Model;

/// A listing that is being written. All of its memory is taken when it is made.
#[derive(Drop)]
pub(crate) struct Lister {
    listing: Listing,
    line: Vec<u8>,
    ended: bool,
    erred: bool,
}

impl Model for Lister {
    ghost use Rattle.select_tool.specs.Listening.{Stand};

    ghost Value = { Stand };

    ghost use Rattle.select_tool.specs.Listening.{stand_of, HasLineRoom};

    ghost view = { stand_of };

    ghost invariant = { HasLineRoom };
}

impl Lister {
    ghost use Rattle.std.specs.Prelude.{◌≡◌, false, IfOk};
    ghost use Rattle.select_ports.specs.Causes.{HasCause};
    ghost use Rattle.event_frame.specs.Shown.{event_shown};
    ghost use Rattle.select_tool.specs.Lines.{HasShortTexts};
    ghost use Rattle.select_tool.specs.Listening.{AnswersEvent, after_event};

    pub(crate) fn make(alloc: Global, listing: Listing) -> Result<Lister, AllocError>
        ensures { IfOk result (λ lister. lister ≡ record { listing = listing; ended = false; erred = false }) }
    {
        let line = Vec::with_capacity(alloc, LINE_ROOM)?;
        Ok(Lister {
            listing,
            line,
            ended: false,
            erred: false,
        })
    }

    /// Writes what the event adds.
    pub(crate) fn answer<K: Sink>(
        &mut self,
        out: &mut K,
        event: EventView<'_>,
    ) -> Result<(), Failed>
        requires { HasShortTexts (event_shown event) }
        ensures bytes { AnswersEvent self.old.listing (event_shown event.entry) (K.written out.old) (K.written out.new) result }
        ensures after { self.new ≡ after_event self.old (event_shown event.entry) }
        ensures faults { HasCause (K.faults out.old) (K.faults out.new) result }
    {
        self.remember(event);
        match self.listing {
            Listing::Lines => {
                print(&mut self.line, event);
                write_all(out, &self.line)
            }
            Listing::Payloads => match event {
                EventView::Records(output) => write_all(out, output),
                _ => Ok(()),
            },
        }
    }

    // Keeps in mind whether the event ends a reply, and whether it is an Error event.
    fn remember(&mut self, event: EventView<'_>)
        ensures { self.new ≡ after_event self.old (event_shown event.entry) }
    {
        self.ended = matches!(event, EventView::End | EventView::Error { .. });
        self.erred = self.erred || matches!(event, EventView::Error { .. });
    }

    /// Whether a reply ended with the last event.
    pub(crate) fn ended(&self) -> bool
        ensures { result ≡ self.now.ended }
    {
        self.ended
    }

    /// Whether there was an Error event.
    pub(crate) fn erred(&self) -> bool
        ensures { result ≡ self.now.erred }
    {
        self.erred
    }
}
