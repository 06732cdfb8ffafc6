// Limbs as a fixnum at a width, and a fixnum as limbs. Of the limb part this uses `to_word` and `from_word` by their contracts alone: they
// speak of the integer and its shortest limbs, and not of how limbs are worked on.
#![tactic(auto)]

ghost use Rattle.std.specs.Prelude.{◌≡◌};
ghost use Rattle.limbstages.specs.Buffer.{Writes, written_of};
ghost use Rattle.outcomes.specs.Refusal.{outcome_of};
ghost use Rattle.convert.specs.Convert.{to_fixnum_outcome, to_limbs_outcome};

use fxtable::width::is_width;
use limbs::{from_word, to_word};
use outcomes::refusal::Refusal;
use words::sign::is_fixnum;

// Refusals in this order: 1 for the width, 7 for an operand of no limb, of more than 1,024, or of more than it needs, 6 for an integer
// that is no fixnum at the width. One that is too large for a word is none at any width.
pub fn limbs_to_fixnum(width: u64, x: &[u32]) -> Result<i64, Refusal>
    ensures { outcome_of result ≡ to_fixnum_outcome width x.now }
{
    if !is_width(width) {
        return Err(Refusal::Width);
    }
    let word = to_word(x)?;
    if !is_fixnum(width, word) {
        return Err(Refusal::Overflow);
    }
    Ok(word)
}

// Refusals in this order: 1 for the width, 4 for a number that is no fixnum at the width, 8 for a buffer that is too short.
pub fn fixnum_to_limbs(width: u64, n: i64, out: &mut [u32], first: u64) -> Result<usize, Refusal>
    ensures { Writes (to_limbs_outcome width n) out.old first (written_of result) out.new }
{
    if !is_width(width) {
        return Err(Refusal::Width);
    }
    if !is_fixnum(width, n) {
        return Err(Refusal::NotFixnum);
    }
    from_word(n, out, first)
}
