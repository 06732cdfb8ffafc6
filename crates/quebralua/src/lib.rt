// The C library: the fixnum calls, the limb calls, the conversions, the fold, stored rules and the flonum calls under plain C names, with the contract of each.
// include/quebralua.h is the header. In C a slice is a pointer and a length.
#![tactic(auto, using(limbstages::proofs::WritesLaws::writes_told))]

ghost use Rattle.std.specs.Prelude.{◌≡◌, ◌&&◌, ◌||◌, [], ◌∷◌};
ghost use Rattle.std.specs.Bool.{xor};
ghost use Rattle.convert.specs.Convert.{to_fixnum_outcome, to_limbs_outcome};
ghost use Rattle.fxtable.specs.Calls.{fixnum_answer};
ghost use Rattle.limbstages.specs.Buffer.{Writes};
ghost use Rattle.outcomes.specs.Number.{number};
ghost use Rattle.limbs.specs.Operations.{not_outcome, bitwise_outcome, if_outcome, copy_bit_outcome, bit_field_outcome, copy_bit_field_outcome, shift_outcome, shift_left_outcome, shift_right_outcome, rotate_outcome, reverse_outcome, bit_count_outcome, length_outcome, first_bit_set_outcome, bit_set_outcome, trim_outcome};

pub mod flonums;
pub mod folds;
pub mod stored_rules;

use fxtable::answer::Answer;
use limbstages::Written;
use outcomes::number::Number;

// The operation with a code, at a width, on the first `count` of a, b, c, d
#[unsafe(no_mangle)]
pub extern "C" fn ql_fixnum(
    width: u64,
    code: u64,
    count: u64,
    a: i64,
    b: i64,
    c: i64,
    d: i64,
) -> Answer
    ensures { result ≡ fixnum_answer width code (a ∷ b ∷ c ∷ d ∷ []) count }
{
    fixnum::call(width, code, [a, b, c, d], count)
}

// bitwise-not
#[unsafe(no_mangle)]
pub extern "C" fn ql_bitwise_not(x: &[u32], out: &mut [u32], first: u64) -> Written
    ensures { Writes (not_outcome x.now) out.old first result out.new }
{
    limbs::bitwise_not(x, out, first).into()
}

// bitwise-and of two
#[unsafe(no_mangle)]
pub extern "C" fn ql_bitwise_and(x: &[u32], y: &[u32], out: &mut [u32], first: u64) -> Written
    ensures { Writes (bitwise_outcome ◌&&◌ x.now y.now) out.old first result out.new }
{
    limbs::bitwise_and(x, y, out, first).into()
}

// bitwise-ior of two
#[unsafe(no_mangle)]
pub extern "C" fn ql_bitwise_ior(x: &[u32], y: &[u32], out: &mut [u32], first: u64) -> Written
    ensures { Writes (bitwise_outcome ◌||◌ x.now y.now) out.old first result out.new }
{
    limbs::bitwise_ior(x, y, out, first).into()
}

// bitwise-xor of two
#[unsafe(no_mangle)]
pub extern "C" fn ql_bitwise_xor(x: &[u32], y: &[u32], out: &mut [u32], first: u64) -> Written
    ensures { Writes (bitwise_outcome xor x.now y.now) out.old first result out.new }
{
    limbs::bitwise_xor(x, y, out, first).into()
}

// bitwise-if
#[unsafe(no_mangle)]
pub extern "C" fn ql_bitwise_if(
    x: &[u32],
    y: &[u32],
    z: &[u32],
    out: &mut [u32],
    first: u64,
) -> Written
    ensures { Writes (if_outcome x.now y.now z.now) out.old first result out.new }
{
    limbs::bitwise_if(x, y, z, out, first).into()
}

// bitwise-copy-bit
#[unsafe(no_mangle)]
pub extern "C" fn ql_bitwise_copy_bit(
    x: &[u32],
    position: i64,
    bit: i64,
    out: &mut [u32],
    first: u64,
) -> Written
    ensures { Writes (copy_bit_outcome x.now position bit) out.old first result out.new }
{
    limbs::bitwise_copy_bit(x, position, bit, out, first).into()
}

// bitwise-bit-field
#[unsafe(no_mangle)]
pub extern "C" fn ql_bitwise_bit_field(
    x: &[u32],
    start: i64,
    end: i64,
    out: &mut [u32],
    first: u64,
) -> Written
    ensures { Writes (bit_field_outcome x.now start end) out.old first result out.new }
{
    limbs::bitwise_bit_field(x, start, end, out, first).into()
}

// bitwise-copy-bit-field
#[unsafe(no_mangle)]
pub extern "C" fn ql_bitwise_copy_bit_field(
    x: &[u32],
    start: i64,
    end: i64,
    y: &[u32],
    out: &mut [u32],
    first: u64,
) -> Written
    ensures { Writes (copy_bit_field_outcome x.now start end y.now) out.old first result out.new }
{
    limbs::bitwise_copy_bit_field(x, start, end, y, out, first).into()
}

// bitwise-arithmetic-shift
#[unsafe(no_mangle)]
pub extern "C" fn ql_bitwise_shift(x: &[u32], distance: i64, out: &mut [u32], first: u64) -> Written
    ensures { Writes (shift_outcome x.now distance) out.old first result out.new }
{
    limbs::bitwise_shift(x, distance, out, first).into()
}

// bitwise-arithmetic-shift-left
#[unsafe(no_mangle)]
pub extern "C" fn ql_bitwise_shift_left(
    x: &[u32],
    distance: i64,
    out: &mut [u32],
    first: u64,
) -> Written
    ensures { Writes (shift_left_outcome x.now distance) out.old first result out.new }
{
    limbs::bitwise_shift_left(x, distance, out, first).into()
}

// bitwise-arithmetic-shift-right
#[unsafe(no_mangle)]
pub extern "C" fn ql_bitwise_shift_right(
    x: &[u32],
    distance: i64,
    out: &mut [u32],
    first: u64,
) -> Written
    ensures { Writes (shift_right_outcome x.now distance) out.old first result out.new }
{
    limbs::bitwise_shift_right(x, distance, out, first).into()
}

// bitwise-rotate-bit-field
#[unsafe(no_mangle)]
pub extern "C" fn ql_bitwise_rotate(
    x: &[u32],
    start: i64,
    end: i64,
    count: i64,
    out: &mut [u32],
    first: u64,
) -> Written
    ensures { Writes (rotate_outcome x.now start end count) out.old first result out.new }
{
    limbs::bitwise_rotate(x, start, end, count, out, first).into()
}

// bitwise-reverse-bit-field
#[unsafe(no_mangle)]
pub extern "C" fn ql_bitwise_reverse(
    x: &[u32],
    start: i64,
    end: i64,
    out: &mut [u32],
    first: u64,
) -> Written
    ensures { Writes (reverse_outcome x.now start end) out.old first result out.new }
{
    limbs::bitwise_reverse(x, start, end, out, first).into()
}

// The shortest form of limbs that may be padded
#[unsafe(no_mangle)]
pub extern "C" fn ql_bitwise_trim(x: &[u32], out: &mut [u32], first: u64) -> Written
    ensures { Writes (trim_outcome x.now) out.old first result out.new }
{
    limbs::bitwise_trim(x, out, first).into()
}

// bitwise-bit-count
#[unsafe(no_mangle)]
pub extern "C" fn ql_bitwise_bit_count(x: &[u32]) -> Number
    ensures { result ≡ number (bit_count_outcome x.now) }
{
    limbs::bitwise_bit_count(x).into()
}

// bitwise-length
#[unsafe(no_mangle)]
pub extern "C" fn ql_bitwise_length(x: &[u32]) -> Number
    ensures { result ≡ number (length_outcome x.now) }
{
    limbs::bitwise_length(x).into()
}

// bitwise-first-bit-set
#[unsafe(no_mangle)]
pub extern "C" fn ql_bitwise_first_bit_set(x: &[u32]) -> Number
    ensures { result ≡ number (first_bit_set_outcome x.now) }
{
    limbs::bitwise_first_bit_set(x).into()
}

// bitwise-bit-set?
#[unsafe(no_mangle)]
pub extern "C" fn ql_bitwise_bit_set(x: &[u32], position: i64) -> Number
    ensures { result ≡ number (bit_set_outcome x.now position) }
{
    limbs::bitwise_bit_set(x, position).into()
}

// Limbs as a fixnum at a width
#[unsafe(no_mangle)]
pub extern "C" fn ql_limbs_to_fixnum(width: u64, x: &[u32]) -> Number
    ensures { result ≡ number (to_fixnum_outcome width x.now) }
{
    convert::limbs_to_fixnum(width, x).into()
}

// A fixnum at a width as limbs
#[unsafe(no_mangle)]
pub extern "C" fn ql_fixnum_to_limbs(width: u64, n: i64, out: &mut [u32], first: u64) -> Written
    ensures { Writes (to_limbs_outcome width n) out.old first result out.new }
{
    convert::fixnum_to_limbs(width, n, out, first).into()
}
