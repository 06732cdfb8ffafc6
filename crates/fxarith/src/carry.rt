// Codes 22 to 24: an exact sum, difference or product s of three arguments, as s mod0 2^width and s div0 2^width.
ghost use Rattle.std.specs.Prelude.{◌≡◌, true, ◌≤◌, ℤ};
ghost use Rattle.outcomes.specs.Outcome as outcomes;
ghost use Rattle.fxtable.specs.Domains.{is_width};
ghost use Rattle.fxtable.specs.Operations.{parts_of};
ghost use Rattle.fxtable.specs.Calls.{answer, counted, outcome};
ghost use Rattle.fxarith.specs.Held.{Held};

use fxtable::answer::{Answer, done};
use fxtable::call::Call;
use widewords::double::Double;
use widewords::parts::{high_part, low_part};
use widewords::sums::{difference, product_and, sum};

fn parts(width: u64, s: Double) -> Answer
    requires { is_width width ≡ true }
    ensures { (x : ℤ) → Held width s x → result ≡ answer (outcomes.done (parts_of width x)) }
{
    done(low_part(width, s), high_part(width, s))
}

// fx+/carry fx-/carry fx*/carry
#[inline(always)]
pub fn carry(call: Call) -> Answer
    requires { (22 ≤ call.code) × (call.code ≤ 24) }
    ensures { result ≡ answer (outcome call.width call.code (counted call.args call.count)) }
{
    let x = call.args[0];
    let y = call.args[1];
    let z = call.args[2];
    match call.code {
        22 => parts(call.width, sum(x, y, z)),
        23 => parts(call.width, difference(x, y, z)),
        _ => parts(call.width, product_and(x, y, z)),
    }
}
