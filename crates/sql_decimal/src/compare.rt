//! The order of decimals.
ghost use Rattle.std.specs.Prelude.{◌≡◌, ◌^◌, ◌<◌, pos, ◌*ℤ◌, unsigned_abs};
ghost use Rattle.std.specs.Ordering.{int_cmp};
ghost use Rattle.sql_decimal.specs.Decimal.{compared};

use crate::decimal::Dec;
use crate::pair::short_pair;
use crate::powers::scaled;
use std::cmp::Ordering;

/// `left` times 10^by against `right`. A product of over 38 digits is past `right` on its own side.
fn compare_scaled(left: i128, by: u8, right: i128) -> Ordering
    requires left { unsigned_abs left < 10 ^ 38 }
    requires right { unsigned_abs right < 10 ^ 38 }
    ensures { result ≡ int_cmp (left *ℤ pos (10 ^ by)) right }
{
    match scaled(left, by) {
        Some(product) => product.cmp(&right),
        None if left < 0 => Ordering::Less,
        None => Ordering::Greater,
    }
}

impl Dec {
    /// The order of the two numbers, whatever their scales: 1.0 and 1.00 are equal.
    pub fn compare(&self, other: &Dec) -> Ordering
        ensures { result ≡ compared self.now other.now }
    {
        match short_pair(self, other) {
            Some(pair) => pair.left.cmp(&pair.right),
            None => self.compare_long(other),
        }
    }

    /// The order of numbers of any size.
    #[tactic(auto, unfolding(crate::specs::Decimal::compared))]
    #[inline(never)]
    fn compare_long(&self, other: &Dec) -> Ordering
        ensures { result ≡ compared self.now other.now }
    {
        if self.scale() <= other.scale() {
            compare_scaled(self.coeff(), other.scale() - self.scale(), other.coeff())
        } else {
            compare_scaled(other.coeff(), self.scale() - other.scale(), self.coeff()).reverse()
        }
    }
}
