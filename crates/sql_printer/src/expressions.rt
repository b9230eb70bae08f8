//! Expressions, each part in parentheses where its place needs them.
ghost use Rattle.std.specs.Prelude.{◌≡◌, ◌++◌, ◌∷◌, [], codes, map, None, OnOk};
ghost use Rattle.grammar_rules.specs.Spelled.{print_all};
ghost use Rattle.sql_printed.specs.Shown.{compare_text, sum_text, prod_text, part_text, target_text, side_text, not_text, truth_text, escape_text, literal_text, path_step_text, path_text, char_length_front, substring_front, to_timestamp_front, Shown, at, joined, behind, trim_text, shown, sum_part_step, prod_part_step, arm_step, shown_sum_part, shown_prod_part, shown_arm};

use crate::writer::Writer;
use sql_grammar::{
    Arm, CastTarget, CompareOp, DatePart, Expr, PathStep, ProdOp, ProdPart, SumOp, SumPart,
};
use sql_tokens::TextBuf;
use std::alloc::AllocError;
use text_view::Side;

/// An operator between blanks.
fn compare_text(op: CompareOp) -> &'static str
    ensures { result.now ≡ compare_text op }
{
    match op {
        CompareOp::Equal => " = ",
        CompareOp::NotEqual => " <> ",
        CompareOp::Less => " < ",
        CompareOp::AtMost => " <= ",
        CompareOp::Greater => " > ",
        CompareOp::AtLeast => " >= ",
    }
}

fn sum_text(op: SumOp) -> &'static str
    ensures { result.now ≡ sum_text op }
{
    match op {
        SumOp::Add => " + ",
        SumOp::Sub => " - ",
    }
}

fn prod_text(op: ProdOp) -> &'static str
    ensures { result.now ≡ prod_text op }
{
    match op {
        ProdOp::Mul => " * ",
        ProdOp::Div => " / ",
        ProdOp::Rem => " % ",
    }
}

fn part_text(part: DatePart) -> &'static str
    ensures { result.now ≡ part_text part }
{
    match part {
        DatePart::Year => "YEAR",
        DatePart::Month => "MONTH",
        DatePart::Day => "DAY",
        DatePart::Hour => "HOUR",
        DatePart::Minute => "MINUTE",
        DatePart::Second => "SECOND",
        DatePart::TimezoneHour => "TIMEZONE_HOUR",
        DatePart::TimezoneMinute => "TIMEZONE_MINUTE",
    }
}

fn side_text(side: Side) -> &'static str
    ensures { result.now ≡ side_text side }
{
    match side {
        Side::Leading => "LEADING",
        Side::Trailing => "TRAILING",
        Side::Both => "BOTH",
    }
}

/// What stands before the text of a TRIM that names no set.
fn side_front(side: Side) -> &'static str
    ensures { result.now ≡ trim_text side None }
{
    match side {
        Side::Leading => "LEADING FROM ",
        Side::Trailing => "TRAILING FROM ",
        Side::Both => "",
    }
}

#[tactic(auto, unfolding(sql_printed::specs::Shown::char_length_front))]
fn char_length_front() -> &'static str
    ensures { result.now ≡ char_length_front }
{
    "CHAR_LENGTH("
}

#[tactic(auto, unfolding(sql_printed::specs::Shown::substring_front))]
fn substring_front() -> &'static str
    ensures { result.now ≡ substring_front }
{
    "SUBSTRING("
}

#[tactic(auto, unfolding(sql_printed::specs::Shown::to_timestamp_front))]
fn to_timestamp_front() -> &'static str
    ensures { result.now ≡ to_timestamp_front }
{
    "TO_TIMESTAMP("
}

fn not_text(negated: bool) -> &'static str
    ensures { result.now ≡ not_text negated }
{
    if negated { " NOT" } else { "" }
}

fn truth_text(truth: bool) -> &'static str
    ensures { result.now ≡ truth_text truth }
{
    if truth { "TRUE" } else { "FALSE" }
}

/// The height of the rule that reads a form: 0 for a primary, 1 for a minus, 2 for a product, 3 for a sum, 4 for a comparison and the
/// like, 5 for NOT, 6 for AND, 7 for OR.
fn height_of(expr: &Expr) -> u8
    ensures { result ≡ (shown expr.now).height }
{
    match expr {
        Expr::Or(_) => 7,
        Expr::And(_) => 6,
        Expr::Not(_) => 5,
        Expr::Compare { .. }
        | Expr::Between { .. }
        | Expr::Among { .. }
        | Expr::Like { .. }
        | Expr::IsNull { .. }
        | Expr::IsMissing { .. } => 4,
        Expr::Sum { .. } => 3,
        Expr::Prod { .. } => 2,
        Expr::Minus(_) => 1,
        Expr::Text(_)
        | Expr::Number(_)
        | Expr::Bool(_)
        | Expr::Null
        | Expr::Missing
        | Expr::Path(_)
        | Expr::Cast { .. }
        | Expr::Case { .. }
        | Expr::Coalesce(_)
        | Expr::NullIf(_, _)
        | Expr::CharLength(_)
        | Expr::Lower(_)
        | Expr::Upper(_)
        | Expr::Substring { .. }
        | Expr::Trim { .. }
        | Expr::Extract { .. }
        | Expr::DateAdd { .. }
        | Expr::ToTimestamp(_) => 0,
    }
}

impl Writer {
    fn target(&mut self, target: CastTarget) -> Result<(), AllocError>
        ensures { OnOk result (self.new ≡ self.old ++ target_text target) }
    {
        match target {
            CastTarget::Bool => self.push("BOOL"),
            CastTarget::Int => self.push("INT"),
            CastTarget::Decimal => self.push("DECIMAL"),
            CastTarget::DecimalOf(digits, scale) => {
                self.push("DECIMAL(")?;
                self.digits(u64::from(digits))?;
                self.push(", ")?;
                self.digits(u64::from(scale))?;
                self.push(")")
            }
            CastTarget::Text => self.push("STRING"),
            CastTarget::Timestamp => self.push("TIMESTAMP"),
        }
    }

    /// A function of a part of a timestamp.
    fn date_part(&mut self, front: &str, part: DatePart) -> Result<(), AllocError>
        ensures { OnOk result (self.new ≡ self.old ++ (front.now ++ part_text part)) }
    {
        self.push(front)?;
        self.push(part_text(part))
    }

    /// TRIM and its side, before a set.
    fn side(&mut self, side: Side) -> Result<(), AllocError>
        ensures { OnOk result (self.new ≡ self.old ++ (codes "TRIM(" ++ side_text side)) }
    {
        self.push("TRIM(")?;
        self.push(side_text(side))
    }

    /// TRIM and its side, where no set is named.
    fn side_alone(&mut self, side: Side) -> Result<(), AllocError>
        ensures { OnOk result (self.new ≡ self.old ++ (codes "TRIM(" ++ trim_text side None)) }
    {
        self.push("TRIM(")?;
        self.push(side_front(side))
    }

    fn literal(&mut self, text: &TextBuf) -> Result<(), AllocError>
        ensures { OnOk result (self.new ≡ self.old ++ literal_text text.now) }
    {
        self.quoted(b'\'', text.text())
    }

    fn escape(&mut self, escape: Option<char>) -> Result<(), AllocError>
        ensures { OnOk result (self.new ≡ self.old ++ escape_text escape) }
    {
        match escape {
            Some(character) => {
                let mut bytes = [0; 4];
                self.push(" ESCAPE ")?;
                self.quoted(b'\'', character.encode_utf8(&mut bytes))
            }
            None => Ok(()),
        }
    }

    fn path_step(&mut self, step: &PathStep) -> Result<(), AllocError>
        ensures { OnOk result (self.new ≡ self.old ++ path_step_text step.now) }
    {
        match step {
            PathStep::Member(name) => {
                self.push(".")?;
                self.name(name)
            }
            PathStep::Element(place) => {
                self.push("[")?;
                self.digits(*place)?;
                self.push("]")
            }
        }
    }

    fn first_step(&mut self, step: &PathStep) -> Result<(), AllocError>
        ensures { OnOk result (self.new ≡ self.old ++ path_text (step.now ∷ [])) }
    {
        match step {
            PathStep::Member(name) => self.name(name),
            PathStep::Element(_) => self.path_step(step),
        }
    }

    fn path_steps(&mut self, steps: &[PathStep]) -> Result<(), AllocError>
        ensures { OnOk result (self.new ≡ self.old ++ print_all path_step_text steps.now) }
    {
        'steps: for step in steps {
            self.path_step(step)?;
        }
        Ok(())
    }

    fn path(&mut self, steps: &[PathStep]) -> Result<(), AllocError>
        ensures { OnOk result (self.new ≡ self.old ++ path_text steps.now) }
    {
        match steps.split_first() {
            Some((first, rest)) => {
                self.first_step(first)?;
                self.path_steps(rest)
            }
            None => Ok(()),
        }
    }

    /// A part that stands alone, between two texts.
    #[cycle(expression)]
    fn between(&mut self, front: &str, expr: &Expr, back: &str) -> Result<(), AllocError>
        ensures { OnOk result (self.new ≡ self.old ++ (front.now ++ ((shown expr.now).text ++ back.now))) }
    {
        self.push(front)?;
        self.form(expr)?;
        self.push(back)
    }

    /// An expression in the place of a rule of this height.
    #[cycle(expression)]
    pub(crate) fn part(&mut self, height: u8, expr: &Expr) -> Result<(), AllocError>
        ensures { OnOk result (self.new ≡ self.old ++ at height (shown expr.now)) }
    {
        if height_of(expr) <= height {
            self.form(expr)
        } else {
            self.between("(", expr, ")")
        }
    }

    /// Members with a separator between them.
    #[cycle(expression)]
    fn members(&mut self, height: u8, separator: &str, members: &[Expr]) -> Result<(), AllocError>
        ensures { OnOk result (self.new ≡ self.old ++ joined separator.now (map (at height) (map shown members.now))) }
    {
        let mut front = "";
        'members: for member in members {
            self.push(front)?;
            self.part(height, member)?;
            front = separator;
        }
        Ok(())
    }

    #[cycle(expression)]
    fn sum_parts(&mut self, parts: &[SumPart]) -> Result<(), AllocError>
        ensures { OnOk result (self.new ≡ self.old ++ print_all (λ t. t) (map shown_sum_part parts.now)) }
    {
        'parts: for part in parts {
            self.push(sum_text(part.op))?;
            self.part(2, &part.member)?;
        }
        Ok(())
    }

    #[cycle(expression)]
    fn prod_parts(&mut self, parts: &[ProdPart]) -> Result<(), AllocError>
        ensures { OnOk result (self.new ≡ self.old ++ print_all (λ t. t) (map shown_prod_part parts.now)) }
    {
        'parts: for part in parts {
            self.push(prod_text(part.op))?;
            self.part(1, &part.member)?;
        }
        Ok(())
    }

    #[cycle(expression)]
    fn arms(&mut self, arms: &[Arm]) -> Result<(), AllocError>
        ensures { OnOk result (self.new ≡ self.old ++ print_all (λ t. t) (map shown_arm arms.now)) }
    {
        'arms: for arm in arms {
            self.between(" WHEN ", &arm.when, " THEN ")?;
            self.form(&arm.then)?;
        }
        Ok(())
    }

    /// An expression without parentheses around it.
    #[cycle(expression)]
    pub(crate) fn form(&mut self, expr: &Expr) -> Result<(), AllocError>
        ensures { OnOk result (self.new ≡ self.old ++ (shown expr.now).text) }
    {
        match expr {
            Expr::Or(members) => self.members(6, " OR ", members.as_slice()),
            Expr::And(members) => self.members(5, " AND ", members.as_slice()),
            Expr::Not(a) => {
                self.push("NOT ")?;
                self.part(4, a.get())
            }
            Expr::Compare { op, left, right } => {
                self.part(3, left.get())?;
                self.push(compare_text(*op))?;
                self.part(3, right.get())
            }
            Expr::Between {
                negated,
                value,
                low,
                high,
            } => {
                self.part(3, value.get())?;
                self.push(not_text(*negated))?;
                self.push(" BETWEEN ")?;
                self.part(3, low.get())?;
                self.push(" AND ")?;
                self.part(3, high.get())
            }
            Expr::Among {
                negated,
                value,
                members,
            } => {
                self.part(3, value.get())?;
                self.push(not_text(*negated))?;
                self.push(" IN (")?;
                self.members(7, ", ", members.as_slice())?;
                self.push(")")
            }
            Expr::Like {
                negated,
                value,
                pattern,
                escape,
            } => {
                self.part(3, value.get())?;
                self.push(not_text(*negated))?;
                self.push(" LIKE ")?;
                self.literal(pattern)?;
                self.escape(*escape)
            }
            Expr::IsNull { negated, value } => {
                self.part(3, value.get())?;
                self.push(" IS")?;
                self.push(not_text(*negated))?;
                self.push(" NULL")
            }
            Expr::IsMissing { negated, value } => {
                self.part(3, value.get())?;
                self.push(" IS")?;
                self.push(not_text(*negated))?;
                self.push(" MISSING")
            }
            Expr::Sum { first, rest } => {
                self.part(2, first.get())?;
                self.sum_parts(rest.as_slice())
            }
            Expr::Prod { first, rest } => {
                self.part(1, first.get())?;
                self.prod_parts(rest.as_slice())
            }
            Expr::Minus(a) => {
                self.push("-")?;
                self.part(0, a.get())
            }
            Expr::Text(text) => self.literal(text),
            Expr::Number(number) => self.number(number),
            Expr::Bool(truth) => self.push(truth_text(*truth)),
            Expr::Null => self.push("NULL"),
            Expr::Missing => self.push("MISSING"),
            Expr::Path(steps) => self.path(steps.as_slice()),
            Expr::Cast { value, target } => {
                self.between("CAST(", value.get(), " AS ")?;
                self.target(*target)?;
                self.push(")")
            }
            Expr::Case {
                operand,
                arms,
                otherwise,
            } => {
                self.push("CASE")?;
                if let Some(operand) = operand {
                    self.push(" ")?;
                    self.form(operand.get())?;
                }
                self.arms(arms.as_slice())?;
                if let Some(otherwise) = otherwise {
                    self.push(" ELSE ")?;
                    self.form(otherwise.get())?;
                }
                self.push(" END")
            }
            Expr::Coalesce(members) => {
                self.push("COALESCE(")?;
                self.members(7, ", ", members.as_slice())?;
                self.push(")")
            }
            Expr::NullIf(a, b) => {
                self.between("NULLIF(", a.get(), ", ")?;
                self.between("", b.get(), ")")
            }
            Expr::CharLength(a) => self.between(char_length_front(), a.get(), ")"),
            Expr::Lower(a) => self.between("LOWER(", a.get(), ")"),
            Expr::Upper(a) => self.between("UPPER(", a.get(), ")"),
            Expr::Substring { text, start, count } => {
                self.between(substring_front(), text.get(), ", ")?;
                match count {
                    Some(count) => {
                        self.between("", start.get(), ", ")?;
                        self.between("", count.get(), ")")
                    }
                    None => self.between("", start.get(), ")"),
                }
            }
            Expr::Trim { side, set, text } => match set {
                Some(set) => {
                    self.side(*side)?;
                    self.between(" ", set.get(), " FROM ")?;
                    self.between("", text.get(), ")")
                }
                None => {
                    self.side_alone(*side)?;
                    self.between("", text.get(), ")")
                }
            },
            Expr::Extract { part, value } => {
                self.date_part("EXTRACT(", *part)?;
                self.between(" FROM ", value.get(), ")")
            }
            Expr::DateAdd { part, count, value } => {
                self.date_part("DATE_ADD(", *part)?;
                self.between(", ", count.get(), ", ")?;
                self.between("", value.get(), ")")
            }
            Expr::ToTimestamp(a) => self.between(to_timestamp_front(), a.get(), ")"),
        }
    }
}
