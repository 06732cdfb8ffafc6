// Ranges of words.
ghost use Rattle.std.specs.Prelude.{◌≡◌};
ghost use Rattle.bits.specs.Range as range;

// Whether x lies from low to high, both included.
pub fn within(low: i64, x: i64, high: i64) -> bool
    ensures { result ≡ range.within low x high }
{
    (low..=high).contains(&x)
}
