//! Worked examples: the texts of values, lent and printed, with what Python prints and compares.
use sql_decimal::{Dec, Num};
use sql_timestamp::Stamp;
use std::alloc::Global;
use std::process::Abort;
use std::test::Fail;
use text_view::{Buf, Pattern, Side, Text};
use value_text::{Room, ValueText};

/// A decimal's coefficient and scale, and its text.
type NumberRow = (i128, u8, &'static str);

/// A place and a count, the part of the text there, and that part's characters.
type PartRow = (u64, u64, &'static str, u64);

/// A pattern, and whether the text matches it.
type PatternRow = (&'static str, bool);

/// Writes the text out and compares its bytes.
fn shows(alloc: Global, rt: &impl Abort, text: &ValueText<'_>, wanted: &str) -> Result<(), Fail> {
    let mut out = Buf::make(alloc, 64)?;
    assert!(rt; text.write_to(&mut out).is_ok());
    assert!(rt; out.bytes() == wanted.as_bytes(), "{wanted}");
    assert!(rt; text.equals(wanted), "{wanted}");
    let mut room = Room::new();
    assert!(rt; text.lend(&mut room).equals(wanted), "{wanted}");
    Ok(())
}

fn numbers(alloc: Global, rt: &impl Abort, table: &[NumberRow]) -> Result<(), Fail> {
    for (coefficient, scale, wanted) in table {
        let dec = Dec::make(*coefficient, *scale).ok_or("no decimal")?;
        shows(alloc, rt, &ValueText::of_dec(dec), wanted)?;
    }
    Ok(())
}

fn parts(
    alloc: Global,
    rt: &impl Abort,
    text: &ValueText<'_>,
    table: &[PartRow],
) -> Result<(), Fail> {
    for (from, count, wanted, len) in table {
        let part = text.sub(*from, *count);
        shows(alloc, rt, &part, wanted)?;
        assert!(rt; part.len_chars() == *len, "{wanted}");
    }
    Ok(())
}

fn patterns(
    alloc: Global,
    rt: &impl Abort,
    text: &ValueText<'_>,
    table: &[PatternRow],
) -> Result<(), Fail> {
    for (pattern, wanted) in table {
        assert!(rt; Pattern::fits(pattern, None), "{pattern}");
        let made = Pattern::make(alloc, pattern, None)?;
        assert!(rt; text.matches(&made) == *wanted, "{pattern}");
    }
    Ok(())
}

#[test]
fn printed(rt: HostRuntime) -> Result<(), Fail> {
    let alloc = rt.alloc();
    shows(alloc, &rt, &ValueText::of_bool(true), "true")?;
    shows(alloc, &rt, &ValueText::of_bool(false).upper(), "FALSE")?;
    let least = ValueText::of_int(i64::MIN);
    shows(alloc, &rt, &least, "-9223372036854775808")?;
    let table = [
        (50, 2, "0.50"),
        (-7, 0, "-7"),
        (-1, 38, "-0.00000000000000000000000000000000000001"),
        (1_234_567, 3, "1234.567"),
    ];
    numbers(alloc, &rt, &table)?;
    let table = [
        (0, 1, "-", 1),
        (1, 3, "922", 3),
        (17, 9, "808", 3),
        (20, 1, "", 0),
        (u64::MAX, u64::MAX, "", 0),
    ];
    parts(alloc, &rt, &least, &table)?;
    parts(
        alloc,
        &rt,
        &least.sub(3, 6),
        &[(2, 2, "37", 2), (5, 9, "0", 1)],
    )?;
    let table = [("-92%", true), ("%_808", true), ("9%", false)];
    patterns(alloc, &rt, &least, &table)?;
    assert!(rt; least.read_int() == Some(i64::MIN));
    assert!(rt; least.as_plain().is_none());
    assert!(rt; least.as_lent().is_none());
    let price = ValueText::of_dec(Dec::make(-50, 2).ok_or("no decimal")?);
    assert!(rt; price.number() == Dec::make(-50, 2).map(Num::Dec));
    assert!(rt; price.read_int().is_none());
    let set = Text::plain("-0");
    shows(alloc, &rt, &price.trim(Side::Leading, &set), ".50")?;
    shows(alloc, &rt, &price.trim(Side::Trailing, &set), "-0.5")?;
    shows(alloc, &rt, &price.trim(Side::Both, &set).again(), ".5")?;
    assert!(rt; price.compare(&least).is_lt());
    Ok(())
}

#[test]
fn moments(rt: HostRuntime) -> Result<(), Fail> {
    let alloc = rt.alloc();
    let stamp = Stamp::make(1_709_193_630_250_000_000, 120).ok_or("no timestamp")?;
    let text = ValueText::of_stamp(stamp);
    shows(alloc, &rt, &text, "2024-02-29T10:00:30.25+02:00")?;
    shows(alloc, &rt, &text.lower(), "2024-02-29t10:00:30.25+02:00")?;
    shows(alloc, &rt, &text.lower().upper().sub(9, 3), "9T1")?;
    assert!(rt;
        text.lower()
            .eq_ignore_ascii_case("2024-02-29T10:00:30.25+02:00")
    );
    assert!(rt; text.stamp() == Some(stamp));
    assert!(rt; text.lower().stamp().is_none());
    assert!(rt; text.number().is_none());
    Ok(())
}

#[test]
fn lent(rt: HostRuntime) -> Result<(), Fail> {
    let alloc = rt.alloc();
    let plain = ValueText::lent(Text::plain(" Größe 12 "));
    assert!(rt; plain.as_plain().is_some());
    assert!(rt; plain.as_lent().is_some());
    parts(alloc, &rt, &plain, &[(1, 5, "Größe", 5), (7, 9, "12 ", 3)])?;
    let space = Text::plain(" ");
    shows(
        alloc,
        &rt,
        &plain.trim(Side::Both, &space).upper(),
        "GRößE 12",
    )?;
    assert!(rt; plain.sub(6, 9).number() == Some(Num::Int(12)));
    assert!(rt; plain.sub(6, 9).again().read_int() == Some(12));
    let escaped = ValueText::lent(Text::json("\\u0031.5e1"));
    assert!(rt; escaped.as_plain().is_none());
    assert!(rt; escaped.number() == Dec::make(15, 0).map(Num::Dec));
    assert!(rt; escaped.read_int().is_none());
    assert!(rt; escaped.stamp().is_none());
    assert!(rt; escaped.eq_ignore_ascii_case("1.5E1"));
    assert!(rt; escaped.compare(&plain).is_gt());
    assert!(rt; escaped.compare(&ValueText::of_int(1)).is_gt());
    assert!(rt;
        ValueText::lent(Text::plain("-7"))
            .compare(&ValueText::of_int(-7))
            .is_eq()
    );
    patterns(alloc, &rt, &escaped, &[("1_5%", true), ("1.6%", false)])?;
    let date = ValueText::lent(Text::plain("2024-02-29"));
    assert!(rt; date.stamp() == Stamp::make(1_709_164_800_000_000_000, 0));
    Ok(())
}
