//! Worked examples: JSON values and their parts by index, by name and in order, and the faults of texts with their places.
use json_text::{JsonCode, JsonNode, Kind, check};
use std::alloc::Global;
use std::process::Abort;
use std::test::Fail;
use text_view::Buf;

/// Texts that are refused, each with its fault's place.
fn refused(rt: &impl Abort, texts: &[(&[u8], JsonCode, u64)]) {
    for (text, code, at) in texts {
        match check(text) {
            Ok(_) => assert!(rt; false),
            Err(fault) => {
                assert_eq!(rt; fault.code, *code);
                assert_eq!(rt; fault.at, *at);
            }
        }
    }
}

/// Texts, each with its kind and its own bytes.
fn accepted(rt: &impl Abort, texts: &[(&str, Kind, &str)]) {
    for (text, kind, token) in texts {
        match check(text.as_bytes()) {
            Ok(node) => {
                assert_eq!(rt; node.kind(), *kind);
                assert!(rt; spells(&node, token));
            }
            Err(_) => assert!(rt; false),
        }
    }
}

fn spells(node: &JsonNode<'_>, token: &str) -> bool {
    node.token().as_bytes() == token.as_bytes()
}

/// The elements of an array in order, and the last one by its index.
fn elements(rt: &impl Abort, text: &str, wanted: &[(u64, &str)]) {
    match check(text.as_bytes()) {
        Ok(node) => {
            let mut walk = node.elements();
            for (place, token) in wanted {
                match walk.next() {
                    Some((at, element)) => {
                        assert_eq!(rt; at, *place);
                        assert!(rt; spells(&element, token));
                    }
                    None => assert!(rt; false),
                }
            }
            assert!(rt; walk.next().is_none());
            assert!(rt; node.element(wanted.len() as u64).is_none());
        }
        Err(_) => assert!(rt; false),
    }
}

/// The members of an object in order: name, place and value.
fn members(rt: &impl Abort, node: &JsonNode<'_>, wanted: &[(&str, u64, &str)]) {
    let mut walk = node.members();
    for (name, place, token) in wanted {
        match walk.next() {
            Some(member) => {
                assert!(rt; member.name.equals(name));
                assert_eq!(rt; member.place, *place);
                assert!(rt; spells(&member.value, token));
            }
            None => assert!(rt; false),
        }
    }
    assert!(rt; walk.next().is_none());
    assert!(rt; node.member_at(wanted.len() as u64).is_none());
}

/// Members by name, each with the place and the bytes of its value.
fn named(rt: &impl Abort, node: &JsonNode<'_>, wanted: &[(&str, bool, u64, &str)]) {
    for (name, exact, place, token) in wanted {
        match node.member_place(name, *exact) {
            Some((at, value)) => {
                assert_eq!(rt; at, *place);
                assert!(rt; spells(&value, token));
            }
            None => assert!(rt; false),
        }
        assert!(rt; node.member(name, *exact).is_some());
    }
}

/// The characters of strings.
fn texts(rt: &impl Abort, strings: &[(&str, &str, u64)]) {
    for (string, wanted, count) in strings {
        match check(string.as_bytes()) {
            Ok(node) => match node.again().text() {
                Some(text) => {
                    assert!(rt; text.equals(wanted));
                    assert_eq!(rt; text.len_chars(), *count);
                }
                None => assert!(rt; false),
            },
            Err(_) => assert!(rt; false),
        }
    }
}

/// Values without blanks, and one byte more than there is room for.
fn compacted(alloc: Global, rt: &impl Abort, values: &[(&str, &str)]) -> Result<(), Fail> {
    for (text, wanted) in values {
        match check(text.as_bytes()) {
            Ok(node) => {
                let mut out = Buf::make(alloc, wanted.len())?;
                assert!(rt; node.write_compact(&mut out).is_ok());
                assert!(rt; out.bytes() == wanted.as_bytes(), "{text}");
                assert!(rt; node.write_compact(&mut out).is_err());
                assert!(rt; out.bytes() == wanted.as_bytes(), "{text}");
            }
            Err(_) => assert!(rt; false),
        }
    }
    Ok(())
}

#[test]
fn faults_and_kinds(rt: HostRuntime) -> Result<(), Fail> {
    let deep = [b'['; 65];
    let table: [(&[u8], JsonCode, u64); 12] = [
        (b"\"\\ud800\"", JsonCode::JSONParsingError, 7),
        (b"\"\\udc00\"", JsonCode::JSONParsingError, 4),
        (b"{\"a\":}", JsonCode::JSONParsingError, 5),
        (b"{\"a\" 1}", JsonCode::JSONParsingError, 5),
        (b"[1,2", JsonCode::JSONParsingError, 4),
        (b"[1,]", JsonCode::JSONParsingError, 3),
        (b"01", JsonCode::JSONParsingError, 1),
        (b"[1.]", JsonCode::JSONParsingError, 3),
        (b"trux", JsonCode::JSONParsingError, 3),
        (b"\"a\nb\"", JsonCode::JSONParsingError, 2),
        (b"[\"\xff\"]", JsonCode::InvalidTextEncoding, 2),
        (&deep, JsonCode::JSONTooDeep, 64),
    ];
    refused(&rt, &table);
    accepted(
        &rt,
        &[
            (" {\"a\":1e5} \r\n", Kind::Object, "{\"a\":1e5}"),
            ("-0.5E+1", Kind::Number, "-0.5E+1"),
            ("\tfalse", Kind::Bool(false), "false"),
            ("null", Kind::Null, "null"),
            (
                "\"a longer string, past a vector of sixteen bytes\"",
                Kind::Text,
                "\"a longer string, past a vector of sixteen bytes\"",
            ),
        ],
    );
    elements(
        &rt,
        " [1, \"]\\\"\",[2] ] ",
        &[(1, "1"), (4, "\"]\\\"\""), (10, "[2]")],
    );
    elements(&rt, "{}", &[]);
    Ok(())
}

#[test]
fn members_and_texts(rt: HostRuntime) -> Result<(), Fail> {
    match check("{\"a\":\"\\u00e9\",\"a\":1,\"n\":1e300}".as_bytes()) {
        Ok(node) => {
            members(
                &rt,
                &node,
                &[("a", 5, "\"\\u00e9\""), ("a", 18, "1"), ("n", 24, "1e300")],
            );
            named(
                &rt,
                &node,
                &[
                    ("a", true, 5, "\"\\u00e9\""),
                    ("A", false, 5, "\"\\u00e9\""),
                    ("n", true, 24, "1e300"),
                ],
            );
            assert!(rt; node.member("A", true).is_none());
            assert!(rt; node.member_at(1).is_some());
            assert!(rt; node.element(0).is_none());
            assert!(rt; node.text().is_none());
        }
        Err(_) => assert!(rt; false),
    }
    match check("{ \"\\u0041\" : [ ] }".as_bytes()) {
        Ok(node) => named(
            &rt,
            &node,
            &[("A", true, 13, "[ ]"), ("a", false, 13, "[ ]")],
        ),
        Err(_) => assert!(rt; false),
    }
    texts(
        &rt,
        &[
            ("\"\\u00e9\"", "é", 1),
            ("\"\\ud834\\udd1e\"", "\u{1d11e}", 1),
            ("\"plain\"", "plain", 5),
        ],
    );
    compacted(
        rt.alloc(),
        &rt,
        &[
            (
                " { \"a b\" : [ 1 ,\t{ } ] , \"c\" : \" \\\" x \" }\n",
                "{\"a b\":[1,{}],\"c\":\" \\\" x \"}",
            ),
            ("[1,2]", "[1,2]"),
            ("\"é \"", "\"é \""),
        ],
    )
}
