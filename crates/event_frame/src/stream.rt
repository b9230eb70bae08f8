// The laws of streams, and of the counts in them.

ghost use Rattle.std.specs.Prelude.{◌≡◌, ℕ, List, [], ◌++◌, Option, None, Err};
ghost use Rattle.event_frame.specs.CountsText.{CountsFit, ReadsCounts, counts_text, progress_of, stats_of};
ghost use Rattle.event_frame.specs.Event.{Event, frame_of};
ghost use Rattle.event_frame.specs.Reading.{IsFrame};
ghost use Rattle.event_frame.specs.Reader.{ReaderState, Feeds, fresh_reader};
ghost use Rattle.event_frame.specs.Runs.{Call, IsRun, taken_bytes, lent_events, ReadsSoFar, ShowsThere};
ghost use Rattle.event_frame.specs.Stream.{Reads, IsSameReading, PartsFit, AllPartsFit, frames_of};
ghost use Rattle.event_frame.specs.declared.counts.Counts.{Counts};
ghost use Rattle.event_frame.specs.declared.fault.FrameFault.{FrameFault};
ghost use Rattle.event_frame.specs.declared.fault.FrameFaultCode.{FrameFaultCode};

/// No frame is a front of a longer one, and no frame is one of two events.
pub fn no_frame_begins_another()
    ensures front { (frame longer more : List ℕ) (event other : Event)
        → IsFrame frame event → IsFrame longer other → longer ≡ frame ++ more → more ≡ [] }
    ensures event { (frame : List ℕ) (event other : Event) → IsFrame frame event → IsFrame frame other → event ≡ other }
{}

/// The bytes of a stream spell one list of events and end in one way, whatever the pieces were in
/// which they came.
pub fn stream_has_one_reading()
    ensures { (bytes rest other_rest : List ℕ) (events other_events : List Event)
        (fault other_fault : Option (FrameFaultCode × ℕ))
        → Reads bytes events rest fault → Reads bytes other_events other_rest other_fault
        → IsSameReading events other_events rest other_rest fault other_fault }
{}

/// What [`FrameWriter`](crate::FrameWriter) writes is read as it was meant: the frame of an event is a
/// frame of that event, and the frames of events, one after the other, spell those events and no
/// others, with nothing left over and no fault. The Progress and Stats events of counts fit, and their
/// texts are read as those counts.
pub fn written_frames_are_read()
    ensures frame { (event : Event) → PartsFit event → IsFrame (frame_of event) event }
    ensures stream { (events : List Event) → AllPartsFit events → Reads (frames_of events) events [] None }
    ensures counts { (counts : Counts) → CountsFit counts → PartsFit (progress_of counts) × PartsFit (stats_of counts) }
    ensures counted { (name : List ℕ) (counts : Counts) → CountsFit counts → ReadsCounts name (counts_text name counts) counts }
    ensures only { (events others : List Event) (rest : List ℕ) (fault : Option (FrameFaultCode × ℕ))
        → AllPartsFit events → Reads (frames_of events) others rest fault → IsSameReading events others [] rest None fault }
{}

/// Over any calls of [`FrameReader::feed`](crate::FrameReader::feed) and
/// [`take`](crate::FrameReader::take) from the first byte on: the bytes taken are frames of the events
/// lent, and then what is kept; a fault is that of those bytes, at its place; and the events depend on
/// the bytes alone, whatever the pieces were.
pub fn runs_read_the_stream()
    ensures spelled { (calls : List Call) (new : ReaderState) → IsRun fresh_reader calls new → new.fault ≡ None → ReadsSoFar calls new }
    ensures faulty { (calls : List Call) (piece : List ℕ) (fault : FrameFault) (old new : ReaderState)
        → IsRun fresh_reader calls old → old.fault ≡ None → Feeds old piece (Err fault) new → ShowsThere calls piece fault }
    ensures alone { (calls others : List Call) (new other : ReaderState) → IsRun fresh_reader calls new → IsRun fresh_reader others other
        → new.fault ≡ None → other.fault ≡ None → new.held ≡ other.held
        → taken_bytes calls ≡ taken_bytes others → lent_events calls ≡ lent_events others }
{}

/// A payload spells one set of counts for an event's name, if it spells any.
pub fn counts_have_one_reading()
    ensures { (name payload : List ℕ) (counts other : Counts)
        → ReadsCounts name payload counts → ReadsCounts name payload other → counts ≡ other }
{}
