//! Selections: a small grammar with limits, a count and a rule that is tried ahead, which is read by its rules.

ghost use Rattle.std.specs.Prelude.{◌≡◌, ℕ, ◌<◌, ◌≤◌, length, IfOk, IfSome, nat_eq};
ghost use Rattle.grammar_rules.specs.Places.{Answer, AnswersNamed, named_first};
ghost use Rattle.grammar_rules.specs.Readers.{starts};
ghost use Rattle.grammar_rules.specs.WorkedSelections.{Fault, class_of, number_of, of, star_name, selection};
ghost use Rattle.grammar_rules.specs.WorkedSelectionReaders.{read_number, read_name, read_head, read_number_rest, read_name_rest, read_item, read_listed, read_items, read_selection};
ghost use Rattle.grammar_rules.specs.Spelled.{Prints};
ghost use Rattle.grammar_rules.specs.WorkedSelectionPrinted.{HasText, print_selection};
ghost use Rattle.grammar_rules.specs.WorkedSelecting.{Gives, GivesCounted, GivesHead, NumberAt, NameAt, HeadAt, IsOver, TakesAll, answer_of, refused_at, error_of};

use crate::cursor::Cursor;
use sqlite_items::Items;
use std::alloc::{AllocError, Global};

/// How many items a selection may have.
pub const MAX_ITEMS: u32 = 3;

/// How many numbers and names the items of a selection may have.
pub const MAX_VALUES: u32 = 4;

/// A symbol of the grammar.
#[derive(Clone, Copy, Debug)]
pub enum Word {
    Number(u64),
    Name(u8),
    Dash,
    Dot,
    Star,
    Comma,
}

/// A symbol without its value.
#[derive(Clone, Copy, Debug)]
pub enum Class {
    Numbers,
    Names,
    Dashes,
    Dots,
    Stars,
    Commas,
}

/// One item of a selection.
#[derive(Debug, Drop)]
pub enum Item {
    One(u64),
    Range(u64, u64),
    Path(u8, Items<u8>),
}

/// What a text spells.
#[derive(Debug, Drop)]
pub enum Selection {
    All(u8),
    Listed(Items<Item>),
}

/// Why a text is refused: places count words from 0.
#[derive(Debug, Drop)]
pub enum SelectionError {
    /// The word at this place is the first that no selection has there, or the words end too early.
    Refused(usize),
    /// The same, where the word is a star.
    MisplacedStar(usize),
    /// The word at this place begins one item more than there may be.
    TooManyItems(usize),
    /// The word at this place is one number or name more than there may be.
    TooManyValues(usize),
    OutOfMemory,
}

/// Why a part isn't read, at the word where the cursor is left.
#[derive(Debug, Drop)]
enum Stop {
    Unfit,
    ManyItems,
    ManyValues,
    Memory,
}

impl From<AllocError> for Stop {
    ghost use Rattle.std.specs.Prelude.{◌≡◌};
    ghost use Rattle.grammar_rules.specs.declared.worked.selections.Stop.TheVariants.{Memory};

    ghost from_gives = { λ _ e. e ≡ Memory };

    fn from(_error: AllocError) -> Stop {
        Stop::Memory
    }
}

/// A number or a name, with which an item begins.
#[derive(Clone, Copy)]
enum Head {
    Numeral(u64),
    Naming(u8),
}

/// Reads the words as one selection.
pub fn read_selection_of(alloc: Global, words: &[Word]) -> Result<Selection, SelectionError>
    ensures sound { IfSome (answer_of result) (λ x. AnswersNamed star_name (selection MAX_ITEMS MAX_VALUES) words.now x) }

    // What the grammar says of the words is the answer, but for want of memory.
    ensures complete { (x : Answer Fault Selection) → AnswersNamed star_name (selection MAX_ITEMS MAX_VALUES) words.now x → IfSome (answer_of result) (λ y. y ≡ x) }
{
    let mut cursor = Cursor::new(words);
    let outcome = whole(alloc, &mut cursor);
    let left = cursor.len();
    let at = words.len() - left;
    match outcome {
        Ok(value) => {
            if left == 0 {
                Ok(value)
            } else {
                Err(refused(&cursor, at))
            }
        }
        Err(stop) => Err(stopped(stop, &cursor, at)),
    }
}

/// A law: each selection that has a text is spelled by the words that are printed for it.
pub fn printed_selections_are_spelled()
    ensures { Prints (selection MAX_ITEMS MAX_VALUES) (HasText MAX_ITEMS MAX_VALUES) print_selection }
{}

/// The error of a word that is refused.
fn refused(words: &Cursor<'_, Word>, at: usize) -> SelectionError
    ensures { result ≡ refused_at (named_first star_name words.now) at }
{
    if sees(words, Class::Stars) {
        return SelectionError::MisplacedStar(at);
    }
    SelectionError::Refused(at)
}

/// The error that a stop at this place is.
fn stopped(stop: Stop, words: &Cursor<'_, Word>, at: usize) -> SelectionError
    ensures { result ≡ error_of stop words.now at }
{
    match stop {
        Stop::Unfit => refused(words, at),
        Stop::ManyItems => SelectionError::TooManyItems(at),
        Stop::ManyValues => SelectionError::TooManyValues(at),
        Stop::Memory => SelectionError::OutOfMemory,
    }
}

fn class_of(word: Word) -> Class
    ensures { result ≡ class_of word }
{
    match word {
        Word::Number(_) => Class::Numbers,
        Word::Name(_) => Class::Names,
        Word::Dash => Class::Dashes,
        Word::Dot => Class::Dots,
        Word::Star => Class::Stars,
        Word::Comma => Class::Commas,
    }
}

fn number_of(class: Class) -> u8
    ensures { result ≡ number_of class }
{
    match class {
        Class::Numbers => 0,
        Class::Names => 1,
        Class::Dashes => 2,
        Class::Dots => 3,
        Class::Stars => 4,
        Class::Commas => 5,
    }
}

/// Whether a word of this class stands at the front.
fn sees(words: &Cursor<'_, Word>, class: Class) -> bool
    ensures { result ≡ starts (of class) words.now }
{
    match words.peek() {
        Some(word) => number_of(class) == number_of(class_of(word)),
        None => false,
    }
}

/// The number at the front.
fn number_at(words: &Cursor<'_, Word>) -> Option<u64>
    ensures { NumberAt words.now result }
{
    match words.peek() {
        Some(Word::Number(value)) => Some(value),
        _ => None,
    }
}

/// The name at the front.
fn name_at(words: &Cursor<'_, Word>) -> Option<u8>
    ensures { NameAt words.now result }
{
    match words.peek() {
        Some(Word::Name(name)) => Some(name),
        _ => None,
    }
}

/// Passes a number, where one more may come.
fn number(words: &mut Cursor<'_, Word>, values: &mut u32) -> Result<u64, Stop>
    ensures gives { GivesCounted (read_number values.old words.old) result values.new words.new }
    ensures passes { length words.new ≤ length words.old }
{
    let Some(value) = number_at(words) else {
        return Err(Stop::Unfit);
    };
    if *values == 0 {
        return Err(Stop::ManyValues);
    }
    words.skip();
    *values -= 1;
    Ok(value)
}

/// Passes a name, where one more may come.
fn name(words: &mut Cursor<'_, Word>, values: &mut u32) -> Result<u8, Stop>
    ensures gives { GivesCounted (read_name values.old words.old) result values.new words.new }
    ensures passes { length words.new ≤ length words.old }
{
    let Some(value) = name_at(words) else {
        return Err(Stop::Unfit);
    };
    if *values == 0 {
        return Err(Stop::ManyValues);
    }
    words.skip();
    *values -= 1;
    Ok(value)
}

/// The number or name at the front.
fn head_at(words: &Cursor<'_, Word>) -> Option<Head>
    ensures { HeadAt words.now result }
{
    match words.peek() {
        Some(Word::Number(value)) => Some(Head::Numeral(value)),
        Some(Word::Name(name)) => Some(Head::Naming(name)),
        _ => None,
    }
}

/// Passes a number or a name, where one more may come.
fn next_head(words: &mut Cursor<'_, Word>, values: &mut u32) -> Result<Head, Stop>
    ensures gives { GivesHead (read_head values.old words.old) result values.new words.new }
    ensures passes { length words.new ≤ length words.old }
{
    let Some(found) = head_at(words) else {
        return Err(Stop::Unfit);
    };
    if *values == 0 {
        return Err(Stop::ManyValues);
    }
    words.skip();
    *values -= 1;
    Ok(found)
}

/// What follows a number.
fn number_rest(words: &mut Cursor<'_, Word>, values: &mut u32, first: u64) -> Result<Item, Stop>
    ensures gives { GivesCounted (read_number_rest first values.old words.old) result values.new words.new }
    ensures passes { length words.new ≤ length words.old }
{
    if !sees(words, Class::Dashes) {
        return Ok(Item::One(first));
    }
    words.skip();
    let last = number(words, values)?;
    Ok(Item::Range(first, last))
}

/// What follows a name.
fn name_rest(
    alloc: Global,
    words: &mut Cursor<'_, Word>,
    values: &mut u32,
    first: u8,
) -> Result<Item, Stop>
    ensures gives { GivesCounted (read_name_rest first values.old words.old) result values.new words.new }
    ensures passes { length words.new ≤ length words.old }
{
    let mut names = Items::new(alloc);
    'names: while sees(words, Class::Dots) {
        words.skip();
        let next = name(words, values)?;
        names.push(next)?;
    }
    Ok(Item::Path(first, names))
}

/// An item.
fn one_item(alloc: Global, words: &mut Cursor<'_, Word>, values: &mut u32) -> Result<Item, Stop>
    ensures gives { GivesCounted (read_item values.old words.old) result values.new words.new }
    ensures passes { length words.new ≤ length words.old }
{
    match next_head(words, values)? {
        Head::Numeral(first) => number_rest(words, values, first),
        Head::Naming(first) => name_rest(alloc, words, values, first),
    }
}

/// An item of a list in which this many may still come.
fn listed(
    alloc: Global,
    words: &mut Cursor<'_, Word>,
    values: &mut u32,
    left: &mut u32,
) -> Result<Item, Stop>
    ensures gives { GivesCounted (read_listed (left.old, values.old) words.old) result (left.new, values.new) words.new }
    ensures passes { length words.new ≤ length words.old }
{
    if *left == 0 {
        return Err(over(words));
    }
    *left -= 1;
    one_item(alloc, words, values)
}

/// Why there is no room for an item here.
fn over(words: &Cursor<'_, Word>) -> Stop
    ensures { IsOver words.now result }
{
    if sees(words, Class::Numbers) {
        return Stop::ManyItems;
    }
    if sees(words, Class::Names) {
        return Stop::ManyItems;
    }
    Stop::Unfit
}

/// Items with commas between.
fn list(alloc: Global, words: &mut Cursor<'_, Word>) -> Result<Items<Item>, Stop>
    ensures gives { Gives (read_items MAX_ITEMS MAX_VALUES words.old) result words.new }
    ensures passes { length words.new ≤ length words.old }
{
    let mut values = MAX_VALUES;
    let mut left = MAX_ITEMS;
    let mut found = Items::new(alloc);
    let first = listed(alloc, words, &mut values, &mut left)?;
    found.push(first)?;
    'items: while sees(words, Class::Commas) {
        words.skip();
        let next = listed(alloc, words, &mut values, &mut left)?;
        found.push(next)?;
    }
    Ok(found)
}

/// A name with a dot and a star behind it, which are passed, or nothing is.
fn all_of(words: &mut Cursor<'_, Word>) -> Option<u8>
    ensures gives { TakesAll words.old result words.new }
    ensures passes { length words.new ≤ length words.old }
{
    let mut ahead = words.again();
    let Some(name) = name_at(&ahead) else {
        return None;
    };
    ahead.skip();
    if !sees(&ahead, Class::Dots) {
        return None;
    }
    ahead.skip();
    if !sees(&ahead, Class::Stars) {
        return None;
    }
    ahead.skip();
    *words = ahead;
    Some(name)
}

/// All, or items.
fn whole(alloc: Global, words: &mut Cursor<'_, Word>) -> Result<Selection, Stop>
    ensures gives { Gives (read_selection MAX_ITEMS MAX_VALUES words.old) result words.new }
    ensures passes { length words.new ≤ length words.old }
{
    if let Some(name) = all_of(words) {
        return Ok(Selection::All(name));
    }
    let found = list(alloc, words)?;
    Ok(Selection::Listed(found))
}
