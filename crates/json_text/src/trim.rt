//! Blanks around a value are left out.
ghost use Rattle.std.specs.Prelude.{◌≡◌, ◌<◌, ◌≤◌, ◌+◌, length, take, drop, slice_index};
ghost use Rattle.std.specs.List.{prefix_len};
ghost use Rattle.json_text.specs.Grammar.{is_blank};
ghost use Rattle.json_text.specs.Trimmed.{content, skip_blanks};

/// The text without the blanks around it.
pub(crate) fn trimmed(text: &str) -> &str
    ensures { result.now ≡ content (skip_blanks text.now) }
{
    without_end(without_front(text))
}

/// The text without the blanks in front.
fn without_front(text: &str) -> &str
    ensures { result.now ≡ skip_blanks text.now }
{
    let front = blanks_in_front(text.as_bytes());
    &text[front..]
}

/// The text without the blanks at its end.
fn without_end(text: &str) -> &str
    ensures { result.now ≡ content text.now }
{
    let end = content_len(text.as_bytes());
    &text[..end]
}

#[inline]
pub(crate) fn is_blank_byte(byte: u8) -> bool
    ensures { result ≡ is_blank byte }
{
    byte == b' ' || byte == b'\t' || byte == b'\n' || byte == b'\r'
}

/// The number of blanks in front.
pub(crate) fn blanks_in_front(bytes: &[u8]) -> usize
    ensures { result ≡ prefix_len is_blank bytes.now }
{
    bytes.iter().take_while(|b| is_blank_byte(**b)).count()
}

/// The place behind the blanks that stand at `at`.
pub(crate) fn blanks_end(bytes: &[u8], at: usize) -> usize
    requires { at ≤ length bytes.now }
    ensures value { drop result bytes.now ≡ skip_blanks (drop at bytes.now) }
    ensures count { result ≡ at + prefix_len is_blank (drop at bytes.now) }
    ensures after { at ≤ result }
    ensures within { result ≤ length bytes.now }
{
    let mut end = at;
    'each: while end < bytes.len() {
        if !is_blank_byte(bytes[end]) {
            return end;
        }
        end += 1;
    }
    end
}

/// The number of bytes before the blanks at the end.
fn content_len(bytes: &[u8]) -> usize
    ensures value { take result bytes.now ≡ content bytes.now }
    ensures within { result ≤ length bytes.now }
    ensures ascii { result < length bytes.now → slice_index bytes.now result < 128 }
{
    let mut end = bytes.len();
    'back: while end > 0 {
        if !is_blank_byte(bytes[end - 1]) {
            return end;
        }
        end -= 1;
    }
    0
}
