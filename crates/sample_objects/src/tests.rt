//! Two small objects, written out from the rule by hand.
use crate::{SampleKind, sample_object, write_sample};
use select_ports::MemSink;
use std::alloc::{AllocError, Global};
use std::test::Fail;

const CSV_OF_8: &str = "id,grp,price,note
0,5,0.00,n0
1,42,123.45,n1
2,79,246.90,n2
3,16,370.35,\"a,b\"
4,53,493.80,n4
5,90,617.25,n5
6,27,740.70,n6
7,64,864.15,n0
";

const JSON_OF_8: &str = "{\"id\":0,\"grp\":5,\"price\":0.00,\"note\":\"n0\"}
{\"id\":1,\"grp\":42,\"price\":123.45,\"note\":\"n1\"}
{\"id\":2,\"grp\":79,\"price\":246.90,\"note\":\"n2\"}
{\"id\":3,\"grp\":16,\"price\":370.35,\"note\":\"a,b\"}
{\"id\":4,\"grp\":53,\"price\":493.80,\"note\":\"n4\"}
{\"id\":5,\"grp\":90,\"price\":617.25,\"note\":\"n5\"}
{\"id\":6,\"grp\":27,\"price\":740.70,\"note\":\"n6\"}
{\"id\":7,\"grp\":64,\"price\":864.15,\"note\":\"n0\"}
";

/// Whether the object of so many records is this text, in memory and as it is written.
fn is_sample(alloc: Global, kind: SampleKind, count: u64, text: &str) -> Result<bool, AllocError> {
    if count > 8 {
        return Ok(false);
    }
    let object = sample_object(alloc, kind, count)?;
    let mut sink = MemSink::new(Vec::new(alloc), Vec::new(alloc), Vec::new(alloc));
    let written = write_sample(kind, count, &mut sink).is_ok();
    Ok(written && object.as_slice() == text.as_bytes() && sink.written() == text.as_bytes())
}

#[test]
fn small_objects_are_as_the_rule_says(rt: HostRuntime) -> Result<(), Fail> {
    let alloc = rt.alloc();
    assert!(rt; is_sample(alloc, SampleKind::Csv, 8, CSV_OF_8)?);
    assert!(rt; is_sample(alloc, SampleKind::JsonLines, 8, JSON_OF_8)?);
    assert!(rt; is_sample(alloc, SampleKind::Csv, 0, "id,grp,price,note\n")?);
    assert!(rt; is_sample(alloc, SampleKind::JsonLines, 0, "")?);
    Ok(())
}
