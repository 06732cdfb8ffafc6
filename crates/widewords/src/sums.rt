// Sums, differences and products of words, modulo 2^128.
ghost use Rattle.std.specs.Prelude.{◌≡◌, ◌^◌, ◌+ℤ◌, ◌-ℤ◌, ◌*ℤ◌};
ghost use Rattle.bits.specs.Division.{mod_ℕ};
ghost use Rattle.widewords.specs.Double.{double_word};

use super::double::{Double, add, of_wide, of_word, subtract};
use super::wide::product;

pub fn sum(x: i64, y: i64, z: i64) -> Double
    ensures { double_word result ≡ mod_ℕ ((x +ℤ y) +ℤ z) (2 ^ 128) }
{
    add(add(of_word(x), of_word(y)), of_word(z))
}

pub fn difference(x: i64, y: i64, z: i64) -> Double
    ensures { double_word result ≡ mod_ℕ ((x -ℤ y) -ℤ z) (2 ^ 128) }
{
    subtract(subtract(of_word(x), of_word(y)), of_word(z))
}

#[inline(always)]
pub fn product_and(x: i64, y: i64, z: i64) -> Double
    ensures { double_word result ≡ mod_ℕ ((x *ℤ y) +ℤ z) (2 ^ 128) }
{
    add(of_wide(product(x, y)), of_word(z))
}
