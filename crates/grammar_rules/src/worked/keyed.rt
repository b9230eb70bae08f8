//! Numbers under keys: members in any order, each at most once, that are read by their rule.

ghost use Rattle.std.specs.Prelude.{◌≡◌, ℕ, List, nat_eq, IfSome};
ghost use Rattle.std.specs.List.{list_any};
ghost use Rattle.grammar_rules.specs.Places.{Answer, Answers};
ghost use Rattle.grammar_rules.specs.WorkedKeyedNumbers.{entries, keyed_answer, HasNewKey, TakesValue};

use crate::cursor::Cursor;
use sqlite_items::Items;
use std::alloc::{AllocError, Global};

/// A symbol: a key, or a number.
#[derive(Clone, Copy, Debug)]
pub enum Sign {
    Key(u8),
    Value(u64),
}

/// Why a text is refused: the place counts symbols from 0.
#[derive(Debug, Drop)]
pub enum KeyedError {
    /// The symbol at this place is the first that no entries have there, or the symbols end too early.
    Refused(usize),
    OutOfMemory,
}

impl From<AllocError> for KeyedError {
    ghost use Rattle.std.specs.Prelude.{◌≡◌};
    ghost use Rattle.grammar_rules.specs.declared.worked.keyed.KeyedError.TheVariants.{OutOfMemory};

    ghost from_gives = { λ _ e. e ≡ OutOfMemory };

    fn from(_error: AllocError) -> KeyedError {
        KeyedError::OutOfMemory
    }
}

/// Reads the symbols as entries, each of a key and its number.
pub fn read_entries(alloc: Global, signs: &[Sign]) -> Result<Items<(u8, u64)>, KeyedError>
    ensures sound { IfSome (keyed_answer result) (λ x. Answers entries signs.now x) }

    // What the grammar says of the symbols is the answer, but for want of memory.
    ensures complete { (x : Answer ⊥ (List (ℕ × ℕ))) → Answers entries signs.now x → IfSome (keyed_answer result) (λ y. y ≡ x) }
{
    let mut cursor = Cursor::new(signs);
    let mut found = Items::new(alloc);
    'entries: while let Some(key) = new_key(&cursor, found.as_slice()) {
        cursor.skip();
        let Some(value) = next_value(&mut cursor) else {
            return Err(KeyedError::Refused(signs.len() - cursor.len()));
        };
        found.push((key, value))?;
    }
    let left = cursor.len();
    if left == 0 {
        Ok(found)
    } else {
        Err(KeyedError::Refused(signs.len() - left))
    }
}

/// Whether an entry has this key.
fn has_key(entries: &[(u8, u64)], key: u8) -> bool
    ensures { result ≡ list_any (λ e. nat_eq e.0 key) entries.now }
{
    entries.iter().any(|entry| entry.0 == key)
}

/// The key at the front, where it is new.
fn new_key(signs: &Cursor<'_, Sign>, entries: &[(u8, u64)]) -> Option<u8>
    ensures { HasNewKey signs.now entries.now result }
{
    match signs.peek() {
        Some(Sign::Key(key)) => {
            if has_key(entries, key) {
                None
            } else {
                Some(key)
            }
        }
        _ => None,
    }
}

/// A number, which is passed.
fn next_value(signs: &mut Cursor<'_, Sign>) -> Option<u64>
    ensures { TakesValue signs.old result signs.new }
{
    match signs.peek() {
        Some(Sign::Value(value)) => {
            signs.skip();
            Some(value)
        }
        _ => None,
    }
}
