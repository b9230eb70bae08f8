//! How bytes are printed.

use std::test::Fail;

/// Adds the bytes between quotes: printable ASCII for itself, and else the escapes that tables have.
pub fn show(text: &mut String, bytes: &[u8]) -> Result<(), Fail> {
    text.push('"')?;
    for byte in bytes {
        show_byte(text, *byte)?;
    }
    text.push('"')?;
    Ok(())
}

fn show_byte(text: &mut String, byte: u8) -> Result<(), Fail> {
    match byte {
        b'\n' => text.push_str("\\n")?,
        b'\r' => text.push_str("\\r")?,
        b'\t' => text.push_str("\\t")?,
        b'\\' => text.push_str("\\x5c")?,
        b' '..=b'~' => text.push(char::from(byte))?,
        _ => write!(text, "\\x{byte:02x}")?,
    }
    Ok(())
}

/// Adds a comma between what was told and what comes.
pub fn part(text: &mut String) -> Result<(), Fail> {
    if !text.is_empty() {
        text.push_str(", ")?;
    }
    Ok(())
}
