// The logical operations on all bits of two words.
ghost use Rattle.std.specs.Prelude.{◌≡◌};
ghost use Rattle.bits.specs.Logical.{bitwise_and, bitwise_ior, bitwise_xor};

pub fn and(x: i64, y: i64) -> i64
    ensures { result ≡ bitwise_and x y }
{
    x & y
}

pub fn ior(x: i64, y: i64) -> i64
    ensures { result ≡ bitwise_ior x y }
{
    x | y
}

pub fn xor(x: i64, y: i64) -> i64
    ensures { result ≡ bitwise_xor x y }
{
    x ^ y
}
