// The answer of a call whose exact first result may be no fixnum, from that result. Its refusal is for no argument.
ghost use Rattle.std.specs.Prelude.{◌≡◌, ℕ, true, ◌<◌, pos};
ghost use Rattle.words.specs.Sign.{with_sign};
ghost use Rattle.widewords.specs.Wide.{wide_value};
ghost use Rattle.fxtable.specs.Calls.{answer};
ghost use Rattle.fxtable.specs.Domains.{is_width};
ghost use Rattle.fxtable.specs.Calls as calls;

use fxtable::answer::{Answer, done, refuse};
use widewords::wide::Wide;
use words::sign::{absolute_fits, from_absolute};

// A result with a sign and an absolute value, or the refusal for overflow: a `Refusal`, or its number.
pub fn checked<R: Into<u64>>(overflow: R, width: u64, negative: bool, n: u64, second: i64) -> Answer
    requires width_value { is_width width ≡ true }
    requires number { (k : ℕ) → R.converts overflow k → 0 < k }
    ensures { (k : ℕ) × R.converts overflow k × (result ≡ answer (calls.checked k width (with_sign negative n, second))) }
{
    let overflow = overflow.into();
    if absolute_fits(width, negative, n) {
        done(from_absolute(negative, n), second)
    } else {
        refuse(overflow, 0)
    }
}

// A result of two words.
#[tactic(auto, using(crate::proofs::ExactLaws::two_words, crate::proofs::ExactLaws::one_word_checked))]
pub fn exact<R: Into<u64>>(overflow: R, width: u64, s: Wide) -> Answer
    requires width_value { is_width width ≡ true }
    requires number { (k : ℕ) → R.converts overflow k → 0 < k }
    ensures { (k : ℕ) × R.converts overflow k × (result ≡ answer (calls.checked k width (wide_value s, pos 0))) }
{
    let overflow = overflow.into();
    if s.high != 0 {
        return refuse(overflow, 0);
    }
    checked(overflow, width, s.negative, s.low, 0)
}
