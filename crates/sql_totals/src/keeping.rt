//! What MIN and MAX keep.
ghost use Rattle.std.specs.Prelude.{◌≡◌, IfOk};
ghost use Rattle.std.specs.Str.{chars};
ghost use Rattle.sql_value.specs.Compared.{order_of};
ghost use Rattle.sql_totals.specs.Stepped.{Became};
ghost use Rattle.sql_totals.specs.Keeping.{precedes, replaces, kept_of_two, kept_text, kept_with};

use crate::fault::TotalFault;
use crate::room::{TextRoom, fits};
use sql_timestamp::ValueFault;
use sql_value::{Order, Value, compare};
use std::alloc::{AllocError, Global};
use std::marker::Model;
use text_view::Text;
use value_text::ValueText;

/// What is looked for: MIN's value or MAX's.
#[derive(Clone, Copy)]
pub(crate) enum Extreme {
    Least,
    Greatest,
}

/// A kept value: the text in the room, or another one.
#[derive(Drop)]
pub(crate) enum Held {
    Text,
    Other(Value<'static>),
}

/// The value that is kept, or NULL where there is none.
#[derive(Drop)]
pub(crate) struct Kept {
    held: Held,
    room: TextRoom,
}

impl Model for Kept {
    ghost use Rattle.sql_value.specs.declared.value.Value.{Value as SqlValue};

    ghost Value = { SqlValue };

    ghost use Rattle.sql_totals.specs.HeldValues.{held_value};

    ghost view = { λ k. held_value k.room k.held };
}

impl Kept {
    /// Nothing.
    pub(crate) fn make(alloc: Global) -> Result<Kept, AllocError>
        ensures { IfOk result (λ kept. kept ≡ Value.Null) }
    {
        let room = TextRoom::make(alloc)?;
        Ok(Kept {
            held: Held::Other(Value::Null),
            room,
        })
    }

    /// Keeps a value in place of what is kept, where it is to be so; a text is written out in `room` first, unless it stands so in what
    /// was lent.
    pub(crate) fn keep(
        &mut self,
        extreme: Extreme,
        value: &Value<'_>,
        room: &mut TextRoom,
    ) -> Option<TotalFault>
        ensures { Became (kept_with extreme self.old value.now) result self.new }
    {
        match value {
            Value::Text(text) => self.keep_text(extreme, text, room),
            Value::Node(_) => Some(TotalFault::Value(ValueFault::InvalidOperands)),
            Value::Missing => self.keep_other(extreme, Value::Missing),
            Value::Null => self.keep_other(extreme, Value::Null),
            Value::Bool(truth) => self.keep_other(extreme, Value::Bool(*truth)),
            Value::Int(int) => self.keep_other(extreme, Value::Int(*int)),
            Value::Dec(dec) => self.keep_other(extreme, Value::Dec(*dec)),
            Value::Stamp(stamp) => self.keep_other(extreme, Value::Stamp(*stamp)),
            Value::Bad(fault) => self.keep_other(extreme, Value::Bad(*fault)),
        }
    }

    fn keep_other(&mut self, extreme: Extreme, value: Value<'static>) -> Option<TotalFault>
        ensures { Became (kept_of_two extreme self.old value.entry) result self.new }
    {
        match self.is_replaced_by(extreme, &value) {
            Err(fault) => Some(TotalFault::Value(fault)),
            Ok(replaces) => {
                if replaces {
                    self.held = Held::Other(value);
                }
                None
            }
        }
    }

    fn keep_text(
        &mut self,
        extreme: Extreme,
        text: &ValueText<'_>,
        room: &mut TextRoom,
    ) -> Option<TotalFault>
        ensures { Became (kept_text extreme self.old text.now) result self.new }
    {
        if let Some(plain) = text.as_plain() {
            return self.keep_plain(extreme, plain);
        }
        if room.put(text) {
            return self.keep_plain(extreme, room.as_str());
        }
        Some(TotalFault::OverMaxRecordSize)
    }

    fn keep_plain(&mut self, extreme: Extreme, text: &str) -> Option<TotalFault>
        ensures { Became (kept_text extreme self.old (chars text.now)) result self.new }
    {
        if fits(text) {} else {
            return Some(TotalFault::OverMaxRecordSize);
        }
        match self.is_replaced_by(extreme, &Value::Text(ValueText::lent(Text::plain(text)))) {
            Err(fault) => Some(TotalFault::Value(fault)),
            Ok(replaces) => {
                if replaces {
                    self.room.put_str(text);
                    self.held = Held::Text;
                }
                None
            }
        }
    }

    /// Whether the value is kept in place of this one: the first of all is, and then one that precedes it.
    fn is_replaced_by(&self, extreme: Extreme, value: &Value<'_>) -> Result<bool, ValueFault>
        ensures { result ≡ replaces extreme self.now value.now }
    {
        match &self.held {
            Held::Text => does_precede(extreme, compare(value, &text_in(&self.room))),
            Held::Other(kept) => replaces_other(extreme, kept, value),
        }
    }

    /// The kept value, lent.
    pub(crate) fn value(&self) -> Value<'_>
        ensures { result ≡ self.now }
    {
        match &self.held {
            Held::Text => text_in(&self.room),
            Held::Other(kept) => kept.again(),
        }
    }
}

/// The text in the room as a value.
#[inline]
fn text_in(room: &TextRoom) -> Value<'_>
    ensures { result ≡ Value.Text room.now }
{
    Value::Text(ValueText::lent(Text::plain(room.as_str())))
}

fn replaces_other(extreme: Extreme, kept: &Value<'_>, value: &Value<'_>) -> Result<bool, ValueFault>
    ensures { result ≡ replaces extreme kept.now value.now }
{
    match kept {
        Value::Null => Ok(true),
        _ => does_precede(extreme, compare(value, kept)),
    }
}

/// Whether a value precedes what is kept, by the order of the two.
#[inline]
fn does_precede(extreme: Extreme, order: Order) -> Result<bool, ValueFault>
    ensures { result ≡ precedes extreme order }
{
    match order {
        Order::Unknown => Err(ValueFault::InvalidOperands),
        Order::Equal => Ok(false),
        Order::Less => match extreme {
            Extreme::Least => Ok(true),
            Extreme::Greatest => Ok(false),
        },
        Order::Greater => match extreme {
            Extreme::Least => Ok(false),
            Extreme::Greatest => Ok(true),
        },
    }
}
