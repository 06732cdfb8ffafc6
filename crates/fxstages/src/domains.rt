// Which argument of a call is the first outside its domain.
ghost use Rattle.std.specs.Prelude.{◌≡◌, true, ◌≤◌, pos};
ghost use Rattle.bits.specs.Range as range;
ghost use Rattle.outcomes.specs.Tests.{first_failed};
ghost use Rattle.fxtable.specs.declared.domains.Domain.TheVariants.{Rotation};
ghost use Rattle.fxtable.specs.Domains as domains;
ghost use Rattle.fxtable.specs.Table.{row_of};
ghost use Rattle.fxtable.specs.Calls.{is_count, counted};

use fxtable::domains::Domain;
use fxtable::table::signature_of;
use words::range::within;
use words::sign::absolute;

// Whether a field of some size may be rotated by x: by 0 up to its size, which leaves it as it is.
fn is_rotation(x: i64, size: i64) -> bool
    ensures { result ≡ range.within (pos 0) x size }
{
    0 <= x && x <= size
}

// Whether argument i lies in its domain. One that may be any fixnum is not read. A rotation's count comes behind a start and an end
// that are in order, so that the field's size is a word.
fn accepts(domain: Domain, width: u64, args: [i64; 4], i: u64) -> bool
    requires width_value { (domains.is_width width ≡ true) × (i ≤ 3) }
    requires args_value { domain ≡ Rotation → range.within (pos 0) (domains.arg args 1) (domains.arg args 2) ≡ true }
    ensures { result ≡ domains.accepts domain width args (domains.arg args i) }
{
    let last = (width - 1) as i64;
    match domain {
        Domain::Fixnum => true,
        Domain::Divisor => absolute(args[i as usize]) > 0,
        Domain::Position => within(0, args[i as usize], last),
        Domain::FieldEnd => within(args[1], args[i as usize], last),
        Domain::NewBit => within(0, args[i as usize], 1),
        Domain::SignedDistance => within(0 - last, args[i as usize], last),
        Domain::Distance => within(0, args[i as usize], last),
        Domain::Rotation => is_rotation(args[i as usize], args[2] - args[1]),
    }
}

// The place of the first argument that lies outside its domain, counted from 1; 0 where each lies in it, as for `first_not_fixnum`.
// The first may be any fixnum.
#[inline(always)]
pub fn first_outside(width: u64, code: u64, args: [i64; 4], count: u64) -> u64
    requires width_value { domains.is_width width ≡ true }
    requires count_value { is_count code count ≡ true }
    ensures { result ≡ first_failed (domains.domain_tests (row_of code).domains width (counted args count)) }
{
    let s = signature_of(code);
    let second = s.second;
    if !accepts(second, width, args, 1) {
        return 2;
    }
    let third = s.third;
    if !accepts(third, width, args, 2) {
        return 3;
    }
    let fourth = s.fourth;
    if !accepts(fourth, width, args, 3) {
        return 4;
    }
    0
}
