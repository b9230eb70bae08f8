//! Worked examples: what operators make of values. The results are those of Python's decimal, datetime and str, and of the SQL
//! reference's examples.
use json_text::check;
use sql_functions::{
    char_length_into, date_add_into, equal, extract_into, like, like_is_matching, lower_into,
    minus_into, negate, substring_from_into, substring_into, to_timestamp_into, trim_into,
    trim_set_into, truth, truth_into, upper_into,
};
use sql_value::{
    Arith, Order, Part, Target, Value, ValueFault, arith, cast, cast_into, compare, is_missing,
    is_null, settle,
};
use std::alloc::Global;
use std::process::Abort;
use std::test::Fail;
use text_view::{Pattern, Side, Text};
use value_text::ValueText;

/// An operation, two number texts, and the text of the result.
type SumRow = (Arith, &'static str, &'static str, &'static str);

/// An operation, two texts, and the fault.
type FaultRow = (Arith, &'static str, &'static str, ValueFault);

/// A text, a type, and the text of the value in it.
type CastRow = (&'static str, Target, &'static str);

/// A whole number, a text, and their order.
type OrderRow = (i64, &'static str, Order);

/// A JSON value, and the text of what it becomes.
type JsonRow = (&'static str, &'static str);

fn text(text: &str) -> Value<'_> {
    Value::Text(ValueText::lent(Text::plain(text)))
}

/// Compares a value's printed text.
fn shows(rt: &impl Abort, value: &Value<'_>, wanted: &str) {
    let mut out = Value::Null;
    assert!(rt;
        cast_into(value, Target::Text, &mut out).is_none(),
        "{wanted}"
    );
    match &out {
        Value::Text(text) => assert!(rt; text.equals(wanted), "{wanted}"),
        _ => assert!(rt; false, "{wanted}"),
    }
}

/// Compares the printed text of what was written.
fn wrote(rt: &impl Abort, fault: Option<ValueFault>, out: &Value<'_>, wanted: &str) {
    assert!(rt; fault.is_none(), "{wanted}");
    shows(rt, out, wanted);
}

fn results(rt: &impl Abort, table: &[SumRow]) {
    for (op, left, right, wanted) in table {
        match arith(*op, &text(left), &text(right)) {
            Ok(value) => shows(rt, &value, wanted),
            Err(_) => assert!(rt; false, "{wanted}"),
        }
    }
}

fn faults(rt: &impl Abort, table: &[FaultRow]) {
    for (op, left, right, wanted) in table {
        match arith(*op, &text(left), &text(right)) {
            Ok(_) => assert!(rt; false, "{left}"),
            Err(fault) => assert_eq!(rt; fault, *wanted, "{left}"),
        }
    }
}

/// Casts to the types without digits.
fn casts(rt: &impl Abort, table: &[CastRow]) {
    for (from, target, wanted) in table {
        casts_to(rt, from, *target, wanted);
    }
}

fn casts_to(rt: &impl Abort, from: &str, target: Target, wanted: &str) {
    let answer = match target {
        Target::DecimalOf(_, _) => cast(&text(from), Target::DecimalOf(5, 2)),
        Target::Bool => cast(&text(from), Target::Bool),
        Target::Int => cast(&text(from), Target::Int),
        Target::Decimal => cast(&text(from), Target::Decimal),
        Target::Text => cast(&text(from), Target::Text),
        Target::Timestamp => cast(&text(from), Target::Timestamp),
    };
    match answer {
        Ok(value) => shows(rt, &value, wanted),
        Err(_) => assert!(rt; false, "{wanted}"),
    }
}

fn orders(rt: &impl Abort, table: &[OrderRow]) {
    for (int, other, wanted) in table {
        assert_eq!(rt;
            compare(&Value::Int(*int), &text(other)),
            *wanted,
            "{other}"
        );
    }
}

fn json(rt: &impl Abort, table: &[JsonRow]) {
    for (from, wanted) in table {
        becomes(rt, from, wanted);
    }
}

fn becomes(rt: &impl Abort, from: &str, wanted: &str) {
    match check(from.as_bytes()) {
        Ok(node) => match settle(&Value::Node(node)) {
            Ok(value) => shows(rt, &value, wanted),
            Err(_) => assert!(rt; false, "{wanted}"),
        },
        Err(_) => assert!(rt; false, "{wanted}"),
    }
}

/// A JSON null is NULL and not MISSING, and a number past 38 digits is a fault.
fn json_edges(rt: &impl Abort) {
    if let Ok(node) = check(b"null") {
        let value = Value::Node(node);
        assert!(rt; is_null(&value));
        assert!(rt; !is_missing(&value));
    }
    match check(b"1e300") {
        Ok(node) => match settle(&Value::Node(node)) {
            Ok(_) => assert!(rt; false),
            Err(fault) => assert_eq!(rt; fault, ValueFault::NumberOverflow),
        },
        Err(_) => assert!(rt; false),
    }
}

#[test]
fn values(rt: HostRuntime) -> Result<(), Fail> {
    results(
        &rt,
        &[
            (Arith::Add, "0.1", "0.2", "0.3"),
            (Arith::Sub, "1", "2.50", "-1.50"),
            (Arith::Mul, "1.5", "-1.5", "-2.25"),
            (Arith::Div, "1.0", "3", "0.333333"),
            (Arith::Div, "7", "-2", "-3"),
            (Arith::Rem, "-7", "3", "-1"),
        ],
    );
    faults(
        &rt,
        &[
            (
                Arith::Add,
                "9223372036854775807",
                "1",
                ValueFault::IntegerOverflow,
            ),
            (
                Arith::Add,
                "99999999999999999999999999999999999999",
                "1",
                ValueFault::NumberOverflow,
            ),
            (Arith::Div, "1", "0.0", ValueFault::DivideByZero),
            (Arith::Add, "x", "1", ValueFault::CastFailed),
        ],
    );
    casts(
        &rt,
        &[
            ("TRUE", Target::Bool, "true"),
            (" -2.9 ", Target::Int, "-2"),
            ("1e2", Target::Decimal, "100"),
            ("2.345", Target::DecimalOf(5, 2), "2.34"),
            ("é", Target::Text, "é"),
            ("2024T", Target::Timestamp, "2024-01-01T00:00:00Z"),
        ],
    );
    orders(
        &rt,
        &[
            (10, "9", Order::Greater),
            (1, "1.00", Order::Equal),
            (-1, "0", Order::Less),
            (1, "one", Order::Unknown),
        ],
    );
    json(
        &rt,
        &[("1e2", "100"), ("\"\\u00e9\"", "é"), ("true", "true")],
    );
    json_edges(&rt);
    Ok(())
}

fn text_functions(rt: &impl Abort) {
    let mut out = Value::Null;
    let fault = char_length_into(&text("aé"), &mut out);
    wrote(rt, fault, &out, "2");
    let fault = lower_into(&text("AbÉ"), &mut out);
    wrote(rt, fault, &out, "abÉ");
    let fault = upper_into(&text("abé"), &mut out);
    wrote(rt, fault, &out, "ABé");
    let fault = substring_from_into(&text("123456789"), &Value::Int(5), &mut out);
    wrote(rt, fault, &out, "56789");
    let fault = substring_into(&text("123456789"), &Value::Int(-1), &text("4"), &mut out);
    wrote(rt, fault, &out, "12");
    let fault = trim_into(Side::Both, &text("   foobar  "), &mut out);
    wrote(rt, fault, &out, "foobar");
    let fault = trim_set_into(
        Side::Leading,
        &text("12"),
        &text("1112211foobar22"),
        &mut out,
    );
    wrote(rt, fault, &out, "foobar22");
}

fn time_functions(rt: &impl Abort) {
    let mut out = Value::Null;
    let fault = to_timestamp_into(&text("2024-02-29T10:00+02:00"), &mut out);
    wrote(rt, fault, &out, "2024-02-29T10:00:00+02:00");
    let fault = extract_into(
        Part::TimezoneHour,
        &text("2024-02-29T10:00+02:00"),
        &mut out,
    );
    wrote(rt, fault, &out, "2");
    let stamp = text("2024-02-29T10:00+02:00");
    let fault = date_add_into(Part::Year, &Value::Int(1), &stamp, &mut out);
    wrote(rt, fault, &out, "2025-02-28T10:00:00+02:00");
    let fault = date_add_into(Part::Month, &text("1"), &text("2024-01-31"), &mut out);
    wrote(rt, fault, &out, "2024-02-29T00:00:00Z");
}

fn truths(rt: &impl Abort) {
    assert_eq!(rt; truth(&Value::Missing), Ok(None));
    assert_eq!(rt; truth(&Value::Int(1)), Err(ValueFault::InvalidOperands));
    assert_eq!(rt; negate(Some(true)), Some(false));
    assert_eq!(rt; equal(&Value::Int(1), &text("1.0")), Some(true));
    let mut out = Value::Null;
    truth_into(Some(true), &mut out);
    shows(rt, &out, "true");
    let fault = minus_into(&text("9223372036854775808"), &mut out);
    wrote(rt, fault, &out, "-9223372036854775808");
}

fn likes(alloc: Global, rt: &impl Abort) -> Result<(), Fail> {
    like_is_matching();
    assert!(rt; Pattern::fits("%aab", None));
    let pattern = Pattern::make(alloc, "%aab", None)?;
    assert_eq!(rt; like(&text("aaab"), &pattern), Ok(Some(true)));
    assert_eq!(rt; like(&Value::Null, &pattern), Ok(None));
    Ok(())
}

#[test]
fn functions(rt: HostRuntime) -> Result<(), Fail> {
    text_functions(&rt);
    time_functions(&rt);
    truths(&rt);
    likes(rt.alloc(), &rt)
}
