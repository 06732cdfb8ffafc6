// A described result: measured, and stored in the output buffer.
ghost use Rattle.std.specs.Prelude.{◌≡◌, ◌*◌, ◌-◌, ◌<◌, ◌^◌, leb, length};
ghost use Rattle.bits.specs.Testbit.{bit_length};
ghost use Rattle.outcomes.specs.Outcome as outcome;
ghost use Rattle.limbwords.specs.Value.{value, limb_count};
ghost use Rattle.limbwords.specs.Described.{described};
ghost use Rattle.limbstages.specs.Buffer.{Writes, written_of};

use limbmeasure::measure;
use limbwords::described::Described;
use limbwrite::write::{copy, write};
use outcomes::refusal::Refusal;

// Whether a buffer of some size has the capacity for n limbs from the first on.
fn has_capacity(size: usize, first: u64, n: usize) -> bool
    requires { 0 < n }
    ensures { result ≡ leb n (size - first) }
{
    let at = first as usize;
    at <= size && n <= size - at
}

// A measured result.
pub fn store(d: &Described, n: usize, out: &mut [u32], first: u64) -> Result<usize, Refusal>
    requires n_bound { n < 2 ^ 32 }
    requires n_value { n ≡ limb_count (described d.now) }
    ensures { Writes (outcome.done (described d.now)) out.old first (written_of result) out.new }
{
    if !has_capacity(out.len(), first, n) {
        return Err(Refusal::Capacity);
    }
    let from = first as usize;
    write(d, &mut out[from..from + n]);
    Ok(n)
}

// Limbs as they are, of which the first `count` are the shortest.
pub fn store_limbs(x: &[u32], count: usize, out: &mut [u32], first: u64) -> Result<usize, Refusal>
    requires x_nonzero { (0 < length x.now) × (count < 2 ^ 32) }
    requires count_value { count ≡ limb_count (value x.now) }
    ensures { Writes (outcome.done (value x.now)) out.old first (written_of result) out.new }
{
    if !has_capacity(out.len(), first, count) {
        return Err(Refusal::Capacity);
    }
    let at = first as usize;
    copy(x, &mut out[at..at + count]);
    Ok(count)
}

pub fn run(d: &Described, enough: usize, out: &mut [u32], first: u64) -> Result<usize, Refusal>
    requires enough_bounds { (0 < enough) × (enough < 2 ^ 32) }
    requires length_bound { bit_length (described d.now) < 32 * enough }
    ensures { Writes (outcome.done (described d.now)) out.old first (written_of result) out.new }
{
    let n = measure(d, enough);
    store(d, n, out, first)
}
