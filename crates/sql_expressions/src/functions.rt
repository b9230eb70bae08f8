//! What stands between the brackets of a function.
ghost use Rattle.std.specs.Prelude.{◌≡◌, ℕ, true, Some, None};
ghost use Rattle.grammar_rules.specs.CountedReaders.{read_given, read_maybe, read_counted_past};
ghost use Rattle.sql_grammar.specs.declared.tree.Expr.TheVariants as e;
ghost use Rattle.sql_grammar.specs.Expressions.{room_of};
ghost use Rattle.sql_grammar.specs.Marks.{of, is_for};
ghost use Rattle.sql_grammar.specs.Readers.{begins, read_listed, read_cast_rest, read_coalesce_rest, read_nullif_rest, read_substring_commas, read_substring_words, read_substring_rest, read_trim_from, read_trim_set, read_trim_plain, read_trim_rest, read_extract_rest, read_date_add_rest};
ghost use Rattle.sql_leaves.specs.Parsing.{GivesCounted, Reads, read_inside, is_token};
ghost use Rattle.sql_expressions.specs.Parsing.{read_arguments, read_function, simple_node};

use sql_grammar::Expr;
use sql_leaves::classes::{at_expression, is_for, is_side};
use sql_leaves::literals::counted;
use sql_leaves::nest::{Nest, behind, inside};
use sql_leaves::operators::{date_part, side, stamp_part};
use sql_leaves::stop::Stop;
use sql_leaves::tokens::{expect, open, sees};
use sql_leaves::types::cast_target;
use sql_tokens::{Class, Tokens};
use sqlite_items::{Boxed, Items};
use text_view::Side;

/// CAST's value and type.
#[tactic(auto, unfolding(sql_grammar::specs::Readers::read_cast_rest))]
pub(crate) fn cast_rest<F: Fn(&mut Tokens<'_>, &mut u32) -> Result<Boxed<Expr>, Stop>>(
    nest: &Nest<F>,
    tokens: &mut Tokens<'_>,
    primaries: &mut u32,
) -> Result<Boxed<Expr>, Stop>
    requires callable { F.IsAlwaysCallable nest.now.expression }
    requires reads { Reads (read_inside nest.now.depth) (F.post nest.now.expression) }
    ensures { GivesCounted
        (read_cast_rest (room_of nest.now.depth) (read_inside nest.now.depth)
        primaries.old tokens.old.symbols) result primaries.new tokens.new.symbols }
{
    let value = inside(nest, tokens, primaries)?;
    expect(tokens, Class::As)?;
    let target = cast_target(tokens, nest.depth > 1)?;
    Ok(Boxed::new(nest.alloc, Expr::Cast { value, target })?)
}

/// Expressions with commas between them.
pub(crate) fn listed<F: Fn(&mut Tokens<'_>, &mut u32) -> Result<Boxed<Expr>, Stop>>(
    nest: &Nest<F>,
    tokens: &mut Tokens<'_>,
    primaries: &mut u32,
) -> Result<Items<Expr>, Stop>
    requires callable { F.IsAlwaysCallable nest.now.expression }
    requires reads { Reads (read_inside nest.now.depth) (F.post nest.now.expression) }
    ensures { GivesCounted
        (read_listed (read_inside nest.now.depth)
        primaries.old tokens.old.symbols) result primaries.new tokens.new.symbols }
{
    let first = inside(nest, tokens, primaries)?;
    let mut all = Items::new(nest.alloc);
    all.push(first.into_inner())?;
    'members: while sees(tokens, Class::Comma) {
        let member = behind(nest, tokens, primaries, Class::Comma)?;
        all.push(member.into_inner())?;
    }
    Ok(all)
}

/// COALESCE's arguments.
#[tactic(auto, unfolding(sql_grammar::specs::Readers::read_coalesce_rest))]
pub(crate) fn coalesce_rest<F: Fn(&mut Tokens<'_>, &mut u32) -> Result<Boxed<Expr>, Stop>>(
    nest: &Nest<F>,
    tokens: &mut Tokens<'_>,
    primaries: &mut u32,
) -> Result<Boxed<Expr>, Stop>
    requires callable { F.IsAlwaysCallable nest.now.expression }
    requires reads { Reads (read_inside nest.now.depth) (F.post nest.now.expression) }
    ensures { GivesCounted
        (read_coalesce_rest (room_of nest.now.depth) (read_inside nest.now.depth)
        primaries.old tokens.old.symbols) result primaries.new tokens.new.symbols }
{
    let all = listed(nest, tokens, primaries)?;
    Ok(Boxed::new(nest.alloc, Expr::Coalesce(all))?)
}

/// NULLIF's arguments.
#[tactic(auto, unfolding(sql_grammar::specs::Readers::read_nullif_rest))]
pub(crate) fn nullif_rest<F: Fn(&mut Tokens<'_>, &mut u32) -> Result<Boxed<Expr>, Stop>>(
    nest: &Nest<F>,
    tokens: &mut Tokens<'_>,
    primaries: &mut u32,
) -> Result<Boxed<Expr>, Stop>
    requires callable { F.IsAlwaysCallable nest.now.expression }
    requires reads { Reads (read_inside nest.now.depth) (F.post nest.now.expression) }
    ensures { GivesCounted
        (read_nullif_rest (room_of nest.now.depth) (read_inside nest.now.depth)
        primaries.old tokens.old.symbols) result primaries.new tokens.new.symbols }
{
    let left = inside(nest, tokens, primaries)?;
    expect(tokens, Class::Comma)?;
    let right = inside(nest, tokens, primaries)?;
    Ok(Boxed::new(nest.alloc, Expr::NullIf(left, right))?)
}

/// An expression behind a token of this class, or nothing.
pub(crate) fn maybe_behind<F: Fn(&mut Tokens<'_>, &mut u32) -> Result<Boxed<Expr>, Stop>>(
    nest: &Nest<F>,
    tokens: &mut Tokens<'_>,
    primaries: &mut u32,
    class: Class,
) -> Result<Option<Boxed<Expr>>, Stop>
    requires callable { F.IsAlwaysCallable nest.now.expression }
    requires reads { Reads (read_inside nest.now.depth) (F.post nest.now.expression) }
    requires token { is_token class ≡ true }
    ensures { GivesCounted
        (read_maybe (of class) (read_counted_past (of class) (read_inside nest.now.depth))
        primaries.old tokens.old.symbols) result primaries.new tokens.new.symbols }
{
    if !sees(tokens, class) {
        return Ok(None);
    }
    let value = behind(nest, tokens, primaries, class)?;
    Ok(Some(value))
}

/// An expression behind FOR, or nothing.
pub(crate) fn maybe_for<F: Fn(&mut Tokens<'_>, &mut u32) -> Result<Boxed<Expr>, Stop>>(
    nest: &Nest<F>,
    tokens: &mut Tokens<'_>,
    primaries: &mut u32,
) -> Result<Option<Boxed<Expr>>, Stop>
    requires callable { F.IsAlwaysCallable nest.now.expression }
    requires reads { Reads (read_inside nest.now.depth) (F.post nest.now.expression) }
    ensures { GivesCounted
        (read_maybe (begins is_for) (read_counted_past (begins is_for) (read_inside nest.now.depth))
        primaries.old tokens.old.symbols) result primaries.new tokens.new.symbols }
{
    if !is_for(tokens.class()) {
        return Ok(None);
    }
    tokens.skip();
    let value = inside(nest, tokens, primaries)?;
    Ok(Some(value))
}

/// SUBSTRING's arguments behind the first one, with commas.
#[tactic(auto, unfolding(sql_grammar::specs::Readers::read_substring_commas))]
pub(crate) fn substring_commas<F: Fn(&mut Tokens<'_>, &mut u32) -> Result<Boxed<Expr>, Stop>>(
    nest: &Nest<F>,
    tokens: &mut Tokens<'_>,
    primaries: &mut u32,
    text: Boxed<Expr>,
) -> Result<Boxed<Expr>, Stop>
    requires callable { F.IsAlwaysCallable nest.now.expression }
    requires reads { Reads (read_inside nest.now.depth) (F.post nest.now.expression) }
    ensures { GivesCounted
        (read_given (λ p. e.Substring text p.0 p.1) (read_substring_commas (room_of nest.now.depth) (read_inside nest.now.depth))
        primaries.old tokens.old.symbols) result primaries.new tokens.new.symbols }
{
    expect(tokens, Class::Comma)?;
    let start = inside(nest, tokens, primaries)?;
    let count = maybe_behind(nest, tokens, primaries, Class::Comma)?;
    Ok(Boxed::new(nest.alloc, Expr::Substring { text, start, count })?)
}

/// SUBSTRING's arguments behind the first one, with words.
#[tactic(auto, unfolding(sql_grammar::specs::Readers::read_substring_words))]
pub(crate) fn substring_words<F: Fn(&mut Tokens<'_>, &mut u32) -> Result<Boxed<Expr>, Stop>>(
    nest: &Nest<F>,
    tokens: &mut Tokens<'_>,
    primaries: &mut u32,
    text: Boxed<Expr>,
) -> Result<Boxed<Expr>, Stop>
    requires callable { F.IsAlwaysCallable nest.now.expression }
    requires reads { Reads (read_inside nest.now.depth) (F.post nest.now.expression) }
    ensures { GivesCounted
        (read_given (λ p. e.Substring text p.0 p.1) (read_substring_words (room_of nest.now.depth) (read_inside nest.now.depth))
        primaries.old tokens.old.symbols) result primaries.new tokens.new.symbols }
{
    expect(tokens, Class::From)?;
    let start = inside(nest, tokens, primaries)?;
    let count = maybe_for(nest, tokens, primaries)?;
    Ok(Boxed::new(nest.alloc, Expr::Substring { text, start, count })?)
}

/// SUBSTRING's arguments.
#[tactic(auto, unfolding(sql_grammar::specs::Readers::read_substring_rest))]
pub(crate) fn substring_rest<F: Fn(&mut Tokens<'_>, &mut u32) -> Result<Boxed<Expr>, Stop>>(
    nest: &Nest<F>,
    tokens: &mut Tokens<'_>,
    primaries: &mut u32,
) -> Result<Boxed<Expr>, Stop>
    requires callable { F.IsAlwaysCallable nest.now.expression }
    requires reads { Reads (read_inside nest.now.depth) (F.post nest.now.expression) }
    ensures { GivesCounted
        (read_substring_rest (room_of nest.now.depth) (read_inside nest.now.depth)
        primaries.old tokens.old.symbols) result primaries.new tokens.new.symbols }
{
    let text = inside(nest, tokens, primaries)?;
    if sees(tokens, Class::Comma) {
        return substring_commas(nest, tokens, primaries, text);
    }
    substring_words(nest, tokens, primaries, text)
}

/// FROM and TRIM's text.
#[tactic(auto, unfolding(sql_grammar::specs::Readers::read_trim_from))]
pub(crate) fn trim_from<F: Fn(&mut Tokens<'_>, &mut u32) -> Result<Boxed<Expr>, Stop>>(
    nest: &Nest<F>,
    tokens: &mut Tokens<'_>,
    primaries: &mut u32,
    side: Side,
    set: Option<Boxed<Expr>>,
) -> Result<Boxed<Expr>, Stop>
    requires callable { F.IsAlwaysCallable nest.now.expression }
    requires reads { Reads (read_inside nest.now.depth) (F.post nest.now.expression) }
    ensures { GivesCounted
        (read_trim_from (room_of nest.now.depth) (read_inside nest.now.depth) (Some side) set
        primaries.old tokens.old.symbols) result primaries.new tokens.new.symbols }
{
    expect(tokens, Class::From)?;
    let text = inside(nest, tokens, primaries)?;
    Ok(Boxed::new(nest.alloc, Expr::Trim { side, set, text })?)
}

/// TRIM's arguments behind a side.
#[tactic(auto, unfolding(sql_grammar::specs::Readers::read_trim_set))]
pub(crate) fn trim_set<F: Fn(&mut Tokens<'_>, &mut u32) -> Result<Boxed<Expr>, Stop>>(
    nest: &Nest<F>,
    tokens: &mut Tokens<'_>,
    primaries: &mut u32,
    side: Side,
) -> Result<Boxed<Expr>, Stop>
    requires callable { F.IsAlwaysCallable nest.now.expression }
    requires reads { Reads (read_inside nest.now.depth) (F.post nest.now.expression) }
    ensures { GivesCounted
        (read_trim_set (room_of nest.now.depth) (read_inside nest.now.depth) side
        primaries.old tokens.old.symbols) result primaries.new tokens.new.symbols }
{
    if at_expression(tokens) {
        let set = inside(nest, tokens, primaries)?;
        return trim_from(nest, tokens, primaries, side, Some(set));
    }
    trim_from(nest, tokens, primaries, side, None)
}

/// TRIM's arguments that begin with an expression, the text or the set.
#[tactic(auto, unfolding(sql_grammar::specs::Readers::read_trim_plain, sql_grammar::specs::Readers::read_trim_from))]
pub(crate) fn trim_plain<F: Fn(&mut Tokens<'_>, &mut u32) -> Result<Boxed<Expr>, Stop>>(
    nest: &Nest<F>,
    tokens: &mut Tokens<'_>,
    primaries: &mut u32,
) -> Result<Boxed<Expr>, Stop>
    requires callable { F.IsAlwaysCallable nest.now.expression }
    requires reads { Reads (read_inside nest.now.depth) (F.post nest.now.expression) }
    ensures { GivesCounted
        (read_trim_plain (room_of nest.now.depth) (read_inside nest.now.depth)
        primaries.old tokens.old.symbols) result primaries.new tokens.new.symbols }
{
    let first = inside(nest, tokens, primaries)?;
    if sees(tokens, Class::From) {
        return trim_from(nest, tokens, primaries, Side::Both, Some(first));
    }
    Ok(Boxed::new(
        nest.alloc,
        Expr::Trim {
            side: Side::Both,
            set: None,
            text: first,
        },
    )?)
}

/// TRIM's arguments.
#[tactic(auto, unfolding(sql_grammar::specs::Readers::read_trim_rest, sql_grammar::specs::Readers::read_trim_from))]
pub(crate) fn trim_rest<F: Fn(&mut Tokens<'_>, &mut u32) -> Result<Boxed<Expr>, Stop>>(
    nest: &Nest<F>,
    tokens: &mut Tokens<'_>,
    primaries: &mut u32,
) -> Result<Boxed<Expr>, Stop>
    requires callable { F.IsAlwaysCallable nest.now.expression }
    requires reads { Reads (read_inside nest.now.depth) (F.post nest.now.expression) }
    ensures { GivesCounted
        (read_trim_rest (room_of nest.now.depth) (read_inside nest.now.depth)
        primaries.old tokens.old.symbols) result primaries.new tokens.new.symbols }
{
    if is_side(tokens.class()) {
        let side = side(tokens)?;
        return trim_set(nest, tokens, primaries, side);
    }
    if at_expression(tokens) {
        return trim_plain(nest, tokens, primaries);
    }
    trim_from(nest, tokens, primaries, Side::Both, None)
}

/// EXTRACT's part and timestamp.
#[tactic(auto, unfolding(sql_grammar::specs::Readers::read_extract_rest))]
pub(crate) fn extract_rest<F: Fn(&mut Tokens<'_>, &mut u32) -> Result<Boxed<Expr>, Stop>>(
    nest: &Nest<F>,
    tokens: &mut Tokens<'_>,
    primaries: &mut u32,
) -> Result<Boxed<Expr>, Stop>
    requires callable { F.IsAlwaysCallable nest.now.expression }
    requires reads { Reads (read_inside nest.now.depth) (F.post nest.now.expression) }
    ensures { GivesCounted
        (read_extract_rest (room_of nest.now.depth) (read_inside nest.now.depth)
        primaries.old tokens.old.symbols) result primaries.new tokens.new.symbols }
{
    let part = stamp_part(tokens)?;
    expect(tokens, Class::From)?;
    let value = inside(nest, tokens, primaries)?;
    Ok(Boxed::new(nest.alloc, Expr::Extract { part, value })?)
}

/// DATE_ADD's part, count and timestamp.
#[tactic(auto, unfolding(sql_grammar::specs::Readers::read_date_add_rest))]
pub(crate) fn date_add_rest<F: Fn(&mut Tokens<'_>, &mut u32) -> Result<Boxed<Expr>, Stop>>(
    nest: &Nest<F>,
    tokens: &mut Tokens<'_>,
    primaries: &mut u32,
) -> Result<Boxed<Expr>, Stop>
    requires callable { F.IsAlwaysCallable nest.now.expression }
    requires reads { Reads (read_inside nest.now.depth) (F.post nest.now.expression) }
    ensures { GivesCounted
        (read_date_add_rest (room_of nest.now.depth) (read_inside nest.now.depth)
        primaries.old tokens.old.symbols) result primaries.new tokens.new.symbols }
{
    let part = date_part(tokens)?;
    expect(tokens, Class::Comma)?;
    let count = inside(nest, tokens, primaries)?;
    expect(tokens, Class::Comma)?;
    let value = inside(nest, tokens, primaries)?;
    Ok(Boxed::new(nest.alloc, Expr::DateAdd { part, count, value })?)
}

/// The call of a function of one argument.
fn simple_node(class: Class, value: Boxed<Expr>) -> Expr
    ensures { result ≡ simple_node class value }
{
    match class {
        Class::CharLengthCalled => Expr::CharLength(value),
        Class::LowerCalled => Expr::Lower(value),
        Class::UpperCalled => Expr::Upper(value),
        _ => Expr::ToTimestamp(value),
    }
}

/// The argument of a function of one.
pub(crate) fn simple_rest<F: Fn(&mut Tokens<'_>, &mut u32) -> Result<Boxed<Expr>, Stop>>(
    nest: &Nest<F>,
    tokens: &mut Tokens<'_>,
    primaries: &mut u32,
    class: Class,
) -> Result<Boxed<Expr>, Stop>
    requires callable { F.IsAlwaysCallable nest.now.expression }
    requires reads { Reads (read_inside nest.now.depth) (F.post nest.now.expression) }
    ensures { GivesCounted
        (read_given (simple_node class) (read_inside nest.now.depth)
        primaries.old tokens.old.symbols) result primaries.new tokens.new.symbols }
{
    let value = inside(nest, tokens, primaries)?;
    Ok(Boxed::new(nest.alloc, simple_node(class, value))?)
}

/// The arguments of the function of this class.
pub(crate) fn arguments<F: Fn(&mut Tokens<'_>, &mut u32) -> Result<Boxed<Expr>, Stop>>(
    nest: &Nest<F>,
    tokens: &mut Tokens<'_>,
    primaries: &mut u32,
    class: Class,
) -> Result<Boxed<Expr>, Stop>
    requires callable { F.IsAlwaysCallable nest.now.expression }
    requires reads { Reads (read_inside nest.now.depth) (F.post nest.now.expression) }
    ensures { GivesCounted
        (read_arguments (room_of nest.now.depth) (read_inside nest.now.depth) class
        primaries.old tokens.old.symbols) result primaries.new tokens.new.symbols }
{
    match class {
        Class::Cast => cast_rest(nest, tokens, primaries),
        Class::CoalesceCalled => coalesce_rest(nest, tokens, primaries),
        Class::NullifCalled => nullif_rest(nest, tokens, primaries),
        Class::SubstringCalled => substring_rest(nest, tokens, primaries),
        Class::TrimCalled => trim_rest(nest, tokens, primaries),
        Class::ExtractCalled => extract_rest(nest, tokens, primaries),
        Class::DateAddCalled => date_add_rest(nest, tokens, primaries),
        _ => simple_rest(nest, tokens, primaries, class),
    }
}

/// A call of the function of this class.
#[tactic(auto, unfolding(crate::specs::Parsing::read_function, crate::specs::Parsing::read_in_brackets))]
pub(crate) fn function<F: Fn(&mut Tokens<'_>, &mut u32) -> Result<Boxed<Expr>, Stop>>(
    nest: &Nest<F>,
    tokens: &mut Tokens<'_>,
    primaries: &mut u32,
    class: Class,
) -> Result<Boxed<Expr>, Stop>
    requires callable { F.IsAlwaysCallable nest.now.expression }
    requires reads { Reads (read_inside nest.now.depth) (F.post nest.now.expression) }
    requires token { is_token class ≡ true }
    ensures { GivesCounted
        (read_function (room_of nest.now.depth).here class (read_arguments (room_of nest.now.depth) (read_inside nest.now.depth) class)
        primaries.old tokens.old.symbols) result primaries.new tokens.new.symbols }
{
    counted(tokens, primaries, class)?;
    open(tokens, nest.depth > 0)?;
    let made = arguments(nest, tokens, primaries, class)?;
    expect(tokens, Class::RightParenthesis)?;
    Ok(made)
}
