use sql_timestamp::{Part, Stamp, ValueFault};
use std::cmp::Ordering;
use std::process::Abort;
use std::test::Fail;
use text_view::Text;

/// A text, and the instant, the offset and the printed text of the timestamp that it spells.
type TextRow = (&'static str, Option<(i128, i16, &'static str)>);

/// A timestamp, a part, how many more of it, and the timestamp that this gives.
type MoveRow = (&'static str, Part, i64, Option<&'static str>);

/// A timestamp, a part and its value.
type PartRow = (&'static str, Part, i64);

fn stamp(text: &str) -> Result<Stamp, Fail> {
    Ok(Stamp::read_str(text).ok_or("no timestamp")?)
}

fn check_text(rt: &impl Abort, text: &str, want: Option<(i128, i16, &str)>) -> Result<(), Fail> {
    let read = Stamp::read_str(text);
    assert_eq!(rt; Stamp::read(&Text::plain(text)), read, "{text}");
    assert_eq!(rt;
        Stamp::read(&Text::quoted(text, b'"', b'"')),
        read,
        "{text}"
    );
    match want {
        Some((instant, offset, printed)) => {
            let found = read.ok_or("no timestamp")?;
            assert_eq!(rt; found.instant(), instant, "{text}");
            assert_eq!(rt; found.offset(), offset, "{text}");
            assert_eq!(rt; found.print().as_str(), printed, "{text}");
            assert_eq!(rt; Stamp::make(instant, offset), Some(found), "{text}");
        }
        None => assert_eq!(rt; read, None, "{text}"),
    }
    Ok(())
}

fn check_texts(rt: &impl Abort, rows: &[TextRow]) -> Result<(), Fail> {
    for (text, want) in rows {
        check_text(rt, text, *want)?;
    }
    Ok(())
}

/// `date_add` of one of the parts that it takes; another part moves nothing.
fn add(stamp: &Stamp, part: Part, n: i64) -> Result<Stamp, ValueFault> {
    match part {
        Part::Year => stamp.date_add(Part::Year, n),
        Part::Month => stamp.date_add(Part::Month, n),
        Part::Day => stamp.date_add(Part::Day, n),
        Part::Hour => stamp.date_add(Part::Hour, n),
        Part::Minute => stamp.date_add(Part::Minute, n),
        Part::Second => stamp.date_add(Part::Second, n),
        Part::TimezoneHour | Part::TimezoneMinute => Ok(*stamp),
    }
}

fn check_move(
    rt: &impl Abort,
    text: &str,
    part: Part,
    n: i64,
    want: Option<&str>,
) -> Result<(), Fail> {
    let moved = add(&stamp(text)?, part, n);
    match want {
        Some(printed) => assert_eq!(rt;
            moved.map_err(|_| "out of range")?.print().as_str(),
            printed,
            "{text}"
        ),
        None => assert_eq!(rt; moved, Err(ValueFault::TimestampOutOfRange), "{text}"),
    }
    Ok(())
}

fn check_moves(rt: &impl Abort, rows: &[MoveRow]) -> Result<(), Fail> {
    for (text, part, n, want) in rows {
        check_move(rt, text, *part, *n, *want)?;
    }
    Ok(())
}

fn check_parts(rt: &impl Abort, rows: &[PartRow]) -> Result<(), Fail> {
    for (text, part, want) in rows {
        assert_eq!(rt; stamp(text)?.extract(*part), *want, "{part:?} of {text}");
    }
    Ok(())
}

#[test]
fn texts(rt: HostRuntime) -> Result<(), Fail> {
    check_texts(
        &rt,
        &[
            (
                "2024T",
                Some((1_704_067_200_000_000_000, 0, "2024-01-01T00:00:00Z")),
            ),
            (
                "2024-02T",
                Some((1_706_745_600_000_000_000, 0, "2024-02-01T00:00:00Z")),
            ),
            (
                "2024-02-29",
                Some((1_709_164_800_000_000_000, 0, "2024-02-29T00:00:00Z")),
            ),
            (
                "2024-02-29T",
                Some((1_709_164_800_000_000_000, 0, "2024-02-29T00:00:00Z")),
            ),
            (
                "2024-02-29T10:00Z",
                Some((1_709_200_800_000_000_000, 0, "2024-02-29T10:00:00Z")),
            ),
            (
                "2024-02-29T10:00:30.250+02:00",
                Some((
                    1_709_193_630_250_000_000,
                    120,
                    "2024-02-29T10:00:30.25+02:00",
                )),
            ),
            (
                "1969-12-31T23:59:59.999999999-00:01",
                Some((59_999_999_999, -1, "1969-12-31T23:59:59.999999999-00:01")),
            ),
            (
                "0001-01-01T00:00:00+23:59",
                Some((
                    -62_135_683_140_000_000_000,
                    1439,
                    "0001-01-01T00:00:00+23:59",
                )),
            ),
            (
                "9999-12-31T23:59:59.000000001-23:59",
                Some((
                    253_402_387_139_000_000_001,
                    -1439,
                    "9999-12-31T23:59:59.000000001-23:59",
                )),
            ),
            (
                "2000-02-29T00:00-00:00",
                Some((951_782_400_000_000_000, 0, "2000-02-29T00:00:00Z")),
            ),
            ("", None),
            ("2023-02-29", None),
            ("2024", None),
            ("2024-02", None),
            ("0000T", None),
            ("1900-02-29T", None),
            ("2024-13T", None),
            ("2024-02-30T", None),
            ("2024-02-29T24:00Z", None),
            ("2024-02-29T10:00", None),
            ("2024-02-29T10:00:60Z", None),
            ("2024-02-29T10:00:30.Z", None),
            ("2024-02-29T10:00:30.1234567890Z", None),
            ("2024-02-29T10:00+24:00", None),
            ("2024-02-29T10:00Z ", None),
            ("2024-02-29t10:00Z", None),
            ("٢٠٢٤T", None),
        ],
    )
}

#[test]
fn parts_and_moves(rt: HostRuntime) -> Result<(), Fail> {
    check_moves(
        &rt,
        &[
            ("2024-01-31", Part::Month, 1, Some("2024-02-29T00:00:00Z")),
            (
                "2024-02-29T10:00+02:00",
                Part::Year,
                1,
                Some("2025-02-28T10:00:00+02:00"),
            ),
            (
                "2024-02-29T10:00+02:00",
                Part::Year,
                -4,
                Some("2020-02-29T10:00:00+02:00"),
            ),
            (
                "2024-03-31T23:30-05:00",
                Part::Month,
                -13,
                Some("2023-02-28T23:30:00-05:00"),
            ),
            (
                "1999-12-31T23:59:59.5Z",
                Part::Day,
                60,
                Some("2000-02-29T23:59:59.5Z"),
            ),
            (
                "2000-03-01T00:00Z",
                Part::Hour,
                -1,
                Some("2000-02-29T23:00:00Z"),
            ),
            (
                "1970-01-01T00:00Z",
                Part::Minute,
                -1,
                Some("1969-12-31T23:59:00Z"),
            ),
            (
                "1970-01-01T00:00Z",
                Part::Second,
                2_147_483_648,
                Some("2038-01-19T03:14:08Z"),
            ),
            ("9999-12-31", Part::Day, 1, None),
            ("0001-01-01", Part::Second, -1, None),
            ("9999-12-31T", Part::Year, 1, None),
            ("0001-01-31", Part::Month, -1, None),
            ("2024T", Part::Year, i64::MAX, None),
            ("2024T", Part::Day, i64::MIN, None),
            ("2024T", Part::Month, i64::MAX, None),
        ],
    )?;
    check_parts(
        &rt,
        &[
            ("2024-02-29T10:11:12.9-05:45", Part::Year, 2024),
            ("2024-02-29T10:11:12.9-05:45", Part::Month, 2),
            ("2024-02-29T10:11:12.9-05:45", Part::Day, 29),
            ("2024-02-29T10:11:12.9-05:45", Part::Hour, 10),
            ("2024-02-29T10:11:12.9-05:45", Part::Minute, 11),
            ("2024-02-29T10:11:12.9-05:45", Part::Second, 12),
            ("2024-02-29T10:11:12.9-05:45", Part::TimezoneHour, -5),
            ("2024-02-29T10:11:12.9-05:45", Part::TimezoneMinute, -45),
            ("2024-02-29T10:11+02:00", Part::TimezoneHour, 2),
            ("1900-03-01", Part::Month, 3),
        ],
    )?;
    assert_eq!(rt;
        stamp("2024-02-29T10:00+02:00")?.compare(&stamp("2024-02-29T09:00Z")?),
        Ordering::Less
    );
    assert_eq!(rt;
        stamp("2024-02-29T10:00+02:00")?.compare(&stamp("2024-02-29T08:00Z")?),
        Ordering::Equal
    );
    assert_eq!(rt; Stamp::make(0, 1_440), None);
    Ok(())
}
