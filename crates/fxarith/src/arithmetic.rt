// Codes 13 to 15: sum, product, difference.
ghost use Rattle.std.specs.Prelude.{◌≡◌, true, ◌≤◌, ℤ, pos};
ghost use Rattle.outcomes.specs.Refusal.{code_of};
ghost use Rattle.fxtable.specs.Domains.{is_width};
ghost use Rattle.fxtable.specs.Calls.{answer, counted, outcome};
ghost use Rattle.fxtable.specs.Calls as calls;
ghost use Rattle.fxarith.specs.Held.{Held};

use fxstages::overflow::{checked, exact};
use fxtable::answer::{Answer, done, refuse};
use fxtable::call::Call;
use outcomes::refusal::Refusal;
use widewords::double::Double;
use widewords::parts::{high_part, low_part};
use widewords::sums::{difference, sum};
use widewords::wide::product;
use words::sign::{absolute, is_negative};

// A sum or a difference is a fixnum exactly where nothing is carried.
#[inline(always)]
fn without_carry(overflow: Refusal, width: u64, s: Double) -> Answer
    requires { is_width width ≡ true }
    ensures { (x : ℤ) → Held width s x → result ≡ answer (calls.checked (code_of overflow) width (x, pos 0)) }
{
    if high_part(width, s) != 0 {
        return refuse(overflow, 0);
    }
    done(low_part(width, s), 0)
}

// fx+
#[inline(always)]
pub fn add(call: Call) -> Answer
    requires { call.code ≡ 13 }
    ensures { result ≡ answer (outcome call.width call.code (counted call.args call.count)) }
{
    let x = call.args[0];
    let y = call.args[1];
    without_carry(Refusal::Overflow, call.width, sum(x, y, 0))
}

// fx*
#[inline(always)]
pub fn multiply(call: Call) -> Answer
    requires { call.code ≡ 14 }
    ensures { result ≡ answer (outcome call.width call.code (counted call.args call.count)) }
{
    let x = call.args[0];
    let y = call.args[1];
    exact(Refusal::Overflow, call.width, product(x, y))
}

// fx-, of one argument or two
#[inline(always)]
pub fn subtract(call: Call) -> Answer
    requires { call.code ≡ 15 }
    ensures { result ≡ answer (outcome call.width call.code (counted call.args call.count)) }
{
    let x = call.args[0];
    if call.count == 1 {
        return checked(Refusal::Domain, call.width, !is_negative(x), absolute(x), 0);
    }
    let y = call.args[1];
    without_carry(Refusal::Domain, call.width, difference(x, y, 0))
}

#[inline(always)]
pub fn arithmetic(call: Call) -> Answer
    requires { (13 ≤ call.code) × (call.code ≤ 15) }
    ensures { result ≡ answer (outcome call.width call.code (counted call.args call.count)) }
{
    match call.code {
        13 => add(call),
        14 => multiply(call),
        _ => subtract(call),
    }
}
