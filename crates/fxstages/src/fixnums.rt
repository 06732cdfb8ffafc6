// Which argument of a call is the first that is no fixnum.
ghost use Rattle.std.specs.Prelude.{◌≡◌, true, ◌≤◌};
ghost use Rattle.bits.specs.Testbit.{fits};
ghost use Rattle.outcomes.specs.Tests.{first_failed};
ghost use Rattle.fxtable.specs.Calls.{counted, fixnum_tests};
ghost use Rattle.fxtable.specs.Domains.{is_width, arg};

use words::sign::is_fixnum;

// Whether argument i is a fixnum. One past the count is not read.
fn passes(width: u64, args: [i64; 4], count: u64, i: u64) -> bool
    requires { (is_width width ≡ true) × (i ≤ 3) }
    ensures { result ≡ fits width (arg (counted args count) i) }
{
    if count <= i {
        return true;
    }
    is_fixnum(width, args[i as usize])
}

// The place of the first argument up to the count that is no fixnum, counted from 1; 0 where each is one: the place of a C answer,
// into which it goes as it is. Without a loop, so that the arguments stay in registers.
pub fn first_not_fixnum(width: u64, args: [i64; 4], count: u64) -> u64
    requires { (is_width width ≡ true) × (count ≤ 4) }
    ensures { result ≡ first_failed (fixnum_tests width (counted args count)) }
{
    if !passes(width, args, count, 0) {
        return 1;
    }
    if !passes(width, args, count, 1) {
        return 2;
    }
    if !passes(width, args, count, 2) {
        return 3;
    }
    if !passes(width, args, count, 3) {
        return 4;
    }
    0
}
