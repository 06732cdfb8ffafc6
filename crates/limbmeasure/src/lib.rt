// How many limbs a described result has in its shortest form: measured from a number of limbs that is enough downwards.
// What a caller must show stands in `requires`: these functions are for `limbs` and `text`, which check operands and numbers.
#![tactic(auto)]

ghost use Rattle.std.specs.Prelude.{◌≡◌, ℕ, ℤ, ◌*◌, ◌≤◌, ◌<◌, ◌^◌, eqb, length};
ghost use Rattle.bits.specs.Testbit.{bit_length};
ghost use Rattle.bits.specs.Logical.{bitwise};
ghost use Rattle.limbwords.specs.Value.{value, limb_count, is_shortest};
ghost use Rattle.limbwords.specs.Results.{limb_at, logic_of};
ghost use Rattle.limbwords.specs.Described.{described};
ghost use Rattle.limbmeasure.specs.Padding.{continued};

use limbwords::any::limb_of;
use limbwords::described::Described;
use limbwords::logical::{common_limb, logical_limb};
use limbwords::result::{Logic, Operation};

// Whether a limb only continues the top bit of the limb below it.
fn is_padding(low: u32, high: u32) -> bool
    ensures { result ≡ eqb high (continued low) }
{
    if low < 0x8000_0000 {
        high == 0
    } else {
        high == 0xFFFF_FFFF
    }
}

// Whether x has no limb more than its value needs.
pub fn is_shortest(x: &[u32]) -> bool
    requires { 0 < length x.now }
    ensures { result ≡ is_shortest x.now }
{
    let n = x.len();
    n == 1 || !is_padding(x[n - 2], x[n - 1])
}

// The length of an integer's shortest form, from a number of limbs that is enough downwards: a last limb that only continues the one
// below it can go. `limb` gives each limb. As a `for` over the indices in reverse it took 1.3 times as long for an "and" of 1,024 limbs and one,
// and no call is to get slower.
fn measure_by<F: Fn(usize) -> u32>(limb: F, enough: usize) -> usize
    requires callable { (j : ℕ) → j < enough → F.pre limb j }
    requires enough_nonzero { 0 < enough }
    ensures { (z : ℤ) → ((j v : ℕ) → j < enough → F.post limb j v → v ≡ limb_at z j) → bit_length z < 32 * enough → result ≡ limb_count z }
{
    let mut n = enough;
    let mut high = limb(n - 1);
    while 1 < n {
        let low = limb(n - 2);
        if !is_padding(low, high) {
            return n;
        }
        high = low;
        n -= 1;
    }
    n
}

// The length of the shortest limbs with the value of x.
pub fn shortest_length(x: &[u32]) -> usize
    requires { 0 < length x.now }
    ensures { result ≡ limb_count (value x.now) }
{
    measure_by(|j| x[j], x.len())
}

// The length of a logical operation's result. Limbs that both operands have are read without a test.
fn measure_logical(by: Logic, x: &[u32], y: &[u32], enough: usize) -> usize
    requires x_nonzero { 0 < length x.now }
    requires y_nonzero { 0 < length y.now }
    requires enough_nonzero { 0 < enough }
    requires y_bound { bit_length (bitwise (logic_of by) (value x.now) (value y.now)) < 32 * enough }
    ensures { result ≡ limb_count (bitwise (logic_of by) (value x.now) (value y.now)) }
{
    if enough <= x.len() && enough <= y.len() {
        measure_by(|j| common_limb(by, x, y, j), enough)
    } else {
        measure_by(|j| logical_limb(by, x, y, j), enough)
    }
}

// The length of any operation's result; one limb is the least.
#[tactic(auto, unfolding(limbwords::specs::Results::meaning))]
pub fn measure(d: &Described, enough: usize) -> usize
    requires enough_bounds { (0 < enough) × (enough < 2 ^ 32) }
    requires length_bound { bit_length (described d.now) < 32 * enough }
    ensures { result ≡ limb_count (described d.now) }
{
    if enough == 1 {
        return 1;
    }
    match d.operation {
        Operation::Logical(by) => measure_logical(by, d.x, d.y, enough),
        _ => measure_by(|j| limb_of(d, j), enough),
    }
}
