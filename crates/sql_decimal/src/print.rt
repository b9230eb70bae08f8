//! Decimals as text.
ghost use Rattle.std.specs.Prelude.{◌≡◌, ◌+◌, ◌-◌, ◌^◌, ◌<◌, ◌≤◌, ◌/◌, ◌%◌, ◌++◌, length, decimal, Some};
ghost use Rattle.arrayvec.specs.ArrayString.{array_string_len};
ghost use Rattle.sql_decimal.specs.Decimal.{IsDecimal};
ghost use Rattle.sql_decimal.specs.Printing.{sign_of, padded, printed, read_back};
ghost use Rattle.sql_decimal.specs.Reading.{number_of};
ghost use Rattle.std.specs.Str.{chars};

use crate::decimal::Dec;
use crate::powers::power_of_ten;
use arrayvec::ArrayString;

/// The longest text, of a number below zero with 38 digits after the point, has 41 bytes.
type DecimalText = ArrayString<48>;

/// The sign of a number below zero.
fn sign(coeff: i128) -> DecimalText
    ensures value { result.bytes ≡ sign_of coeff }
    ensures length { array_string_len result ≤ 1 }
{
    let mut text = ArrayString::new();
    if coeff < 0 {
        text.push('-');
    }
    text
}

/// The whole part and the digits after the point, as numbers.
fn parts(magnitude: u128, scale: u8) -> (u128, u128)
    requires digits { magnitude < 10 ^ 38 }
    requires scale { scale ≤ 38 }
    ensures whole { result.0 ≡ magnitude / 10 ^ scale }
    ensures fraction { result.1 ≡ magnitude % 10 ^ scale }
    ensures whole_length { length (decimal result.0) + scale ≤ 39 }
    ensures fraction_length { 0 < scale → length (decimal result.1) ≤ scale }
{
    div_rem(magnitude, power_of_ten(scale))
}

/// The quotient and the remainder.
fn div_rem(left: u128, right: u128) -> (u128, u128)
    requires { 0 < right }
    ensures quotient { result.0 ≡ left / right }
    ensures remainder { result.1 ≡ left % right }
{
    match (u64::try_from(left), u64::try_from(right)) {
        (Ok(left), Ok(right)) => (u128::from(left / right), u128::from(left % right)),
        _ => (left / right, left % right),
    }
}

/// Appends the digits of `number`.
fn push_number(text: &mut DecimalText, number: u128)
    requires { array_string_len text.old + length (decimal number) ≤ 48 }
    ensures { text.new.bytes ≡ text.old.bytes ++ decimal number }
{
    let mut buffer = itoa::Buffer::new();
    match u64::try_from(number) {
        Ok(short) => text.push_str(buffer.format(short)),
        Err(_) => text.push_str(buffer.format(number)),
    }
}

/// Appends the digits of `number`, with zeros in front where there are fewer than `width`.
#[tactic(auto, unfolding(crate::specs::Printing::padded))]
fn push_padded(text: &mut DecimalText, number: u128, width: usize)
    requires digits { length (decimal number) ≤ width }
    requires room { array_string_len text.old + width ≤ 48 }
    ensures { text.new.bytes ≡ text.old.bytes ++ padded width number }
{
    let mut buffer = itoa::Buffer::new();
    let digits = buffer.format(number);
    'zeros: for _place in digits.len()..width {
        text.push('0');
    }
    text.push_str(digits);
}

impl Dec {
    /// The number with all the digits of its scale, and one digit at least before the point:
    /// `0.50` for 50 at scale 2, `-7` for -7 at scale 0. It is read as the same number.
    pub fn print(&self) -> ArrayString<48>
        ensures text { result.bytes ≡ printed self.now }
        ensures reads_back { number_of (chars result.bytes) ≡ Some (read_back self.now) }
    {
        self.written()
    }

    /// The text of the number.
    #[tactic(auto, unfolding(crate::specs::Printing::printed))]
    #[inline(always)]
    fn written(&self) -> DecimalText
        ensures text { result.bytes ≡ printed self.now }
        ensures sound { IsDecimal self.now }
    {
        let mut text = sign(self.coeff());
        let (whole, fraction) = parts(self.size(), self.scale());
        push_number(&mut text, whole);
        if self.scale() > 0 {
            text.push('.');
            push_padded(&mut text, fraction, usize::from(self.scale()));
        }
        text
    }
}
