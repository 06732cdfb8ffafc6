// `bitwise`: one bitwise call on long integers.
ghost use Rattle.std.specs.Result.{IfOk};
ghost use Rattle.output.specs.Counts.{IsPrefixLen};

use super::explain::RefusedCall;
use super::rules::{arity, counts, numbers_of};
use line::Line;
use line::refusal::{Refused, WrongCount};
use line::trouble::{Expected, Status, Trouble};
use names::{Bitwise, Operation};
use outcomes::refusal::Refusal;
use output::buffer::Output;
use output::numerals::Both;
use text::ReadError;

// Room for an operand: 1,024 limbs of digits and one for the sign.
pub const OPERAND: usize = 1025;

pub const RESULT: usize = 1024;

// Room for the text of a result.
const TEXT: usize = 8200;

// An integer, in decimal too where a word holds it. The limbs are work space.
pub fn print_limbs(x: &mut [u32], out: &mut Output) {
    if let Ok(value) = limbs::to_word(x) {
        out.print(format_args!("{value} "));
    }
    let mut space = [0u8; TEXT];
    let n = spelling::spell_limbs(x, &mut space);
    out.put(&space[..n]);
}

// A word as the limbs of an integer, in a buffer.
fn read_operand<'a>(line: Line, i: usize, space: &'a mut [u32]) -> Result<&'a [u32], Trouble> {
    let word = line.word(i).unwrap_or(b"");
    match text::read_limbs(word, space) {
        Ok(n) => Ok(&space[..n]),
        Err(error) => Err(Trouble {
            word: i,
            expected: match error {
                ReadError::Malformed => Expected::Integer,
                ReadError::TooLarge => Expected::IntegerOfFewDigits,
            },
        }),
    }
}

// The operands of a call, and its numbers, each at its place among the arguments. What an operation does not take is empty, or 0.
#[derive(Clone, Copy)]
struct Arguments<'a> {
    x: &'a [u32],
    y: &'a [u32],
    z: &'a [u32],
    numbers: [i64; 4],
}

// What a call answers that counts bits or asks for one. Any other writes an integer.
fn count(operation: Bitwise, arguments: Arguments) -> Option<Result<i64, Refusal>> {
    let x = arguments.x;
    match operation {
        Bitwise::BitCount => Some(limbs::bitwise_bit_count(x)),
        Bitwise::Length => Some(limbs::bitwise_length(x)),
        Bitwise::FirstBitSet => Some(limbs::bitwise_first_bit_set(x)),
        Bitwise::BitSet => Some(limbs::bitwise_bit_set(x, arguments.numbers[1])),
        _ => None,
    }
}

// How many limbs of its integer a call has put into a buffer. The calls above put none.
fn write(operation: Bitwise, arguments: Arguments, out: &mut [u32]) -> Result<usize, Refusal>
    ensures { IfOk result (λ n. IsPrefixLen n out.new) }
{
    let Arguments { x, y, z, numbers } = arguments;
    let [_, n, m, k] = numbers;
    match operation {
        Bitwise::Not => limbs::bitwise_not(x, out, 0),
        Bitwise::And => limbs::bitwise_and(x, y, out, 0),
        Bitwise::Ior => limbs::bitwise_ior(x, y, out, 0),
        Bitwise::Xor => limbs::bitwise_xor(x, y, out, 0),
        Bitwise::If => limbs::bitwise_if(x, y, z, out, 0),
        Bitwise::BitCount | Bitwise::Length | Bitwise::FirstBitSet | Bitwise::BitSet => Ok(0),
        Bitwise::CopyBit => limbs::bitwise_copy_bit(x, n, m, out, 0),
        Bitwise::BitField => limbs::bitwise_bit_field(x, n, m, out, 0),
        Bitwise::CopyBitField => limbs::bitwise_copy_bit_field(x, n, m, y, out, 0),
        Bitwise::ArithmeticShift => limbs::bitwise_shift(x, n, out, 0),
        Bitwise::ArithmeticShiftLeft => limbs::bitwise_shift_left(x, n, out, 0),
        Bitwise::ArithmeticShiftRight => limbs::bitwise_shift_right(x, n, out, 0),
        Bitwise::RotateBitField => limbs::bitwise_rotate(x, n, m, k, out, 0),
        Bitwise::ReverseBitField => limbs::bitwise_reverse(x, n, m, out, 0),
    }
}

// The answer of a call that writes limbs, put into the output as a line.
fn print_integer(
    operation: Bitwise,
    arguments: Arguments,
    out: &mut Output,
) -> Result<(), Refusal> {
    let mut space = [0; RESULT];
    let n = write(operation, arguments, &mut space)?;
    print_limbs(&mut space[..n], out);
    out.put(b"\n");
    Ok(())
}

// The answer of a call, put into the output as a line.
fn print_answer(operation: Bitwise, arguments: Arguments, out: &mut Output) -> Result<(), Refusal> {
    match count(operation, arguments) {
        Some(answer) => {
            out.print(format_args!("{}\n", Both(answer?)));
            Ok(())
        }
        None => print_integer(operation, arguments, out),
    }
}

fn reply_call(operation: Bitwise, arguments: Arguments, out: &mut Output) -> Status {
    match print_answer(operation, arguments, out) {
        Ok(()) => Status::Done,
        Err(refusal) => {
            out.print(RefusedCall {
                operation,
                numbers: arguments.numbers,
                refusal,
            });
            Status::Refused
        }
    }
}

// The operands after the first, each in its buffer.
fn read_others<'a>(
    line: Line,
    operation: Bitwise,
    ys: &'a mut [u32],
    zs: &'a mut [u32],
) -> Result<(&'a [u32], &'a [u32]), Trouble> {
    match operation {
        Bitwise::And | Bitwise::Ior | Bitwise::Xor => Ok((read_operand(line, 4, ys)?, &[])),
        Bitwise::CopyBitField => Ok((read_operand(line, 6, ys)?, &[])),
        Bitwise::If => Ok((read_operand(line, 4, ys)?, read_operand(line, 5, zs)?)),
        _ => Ok((&[], &[])),
    }
}

// A call with operands after the first.
fn reply_others(
    line: Line,
    operation: Bitwise,
    x: &[u32],
    numbers: [i64; 4],
    out: &mut Output,
) -> Result<Status, Trouble> {
    let mut ys = [0; OPERAND];
    let mut zs = [0; OPERAND];
    let (y, z) = read_others(line, operation, &mut ys, &mut zs)?;
    let arguments = Arguments { x, y, z, numbers };
    Ok(reply_call(operation, arguments, out))
}

// A call with as many arguments as it takes. A function's buffers are cleared when it begins, so those that not each call needs are in
// functions of their own.
fn reply_operands(line: Line, operation: Bitwise, out: &mut Output) -> Result<Status, Trouble> {
    let mut xs = [0; OPERAND];
    let x = read_operand(line, 3, &mut xs)?;
    let [first, second, third, _] = line.numbers(3, 3 + numbers_of(operation))?;
    let numbers = [0, first, second, third];
    if arity(operation) != 1 + numbers_of(operation) {
        return reply_others(line, operation, x, numbers, out);
    }
    let arguments = Arguments {
        x,
        y: &[],
        z: &[],
        numbers,
    };
    Ok(reply_call(operation, arguments, out))
}

// `bitwise-not takes 1 argument, not 2`
fn wrong_count(operation: Bitwise, count: usize) -> WrongCount {
    WrongCount {
        operation: Operation::Bitwise(operation),
        counts: counts(operation),
        count: count as u64,
    }
}

pub fn reply_bitwise(line: Line, out: &mut Output) -> Result<Status, Trouble> {
    let operation = line.word(2).and_then(Bitwise::named).ok_or(Trouble {
        word: 2,
        expected: Expected::BitwiseOperation,
    })?;
    let count = line.count_past(2);
    if count != arity(operation) {
        let head = Refused(Refusal::Count);
        out.print(format_args!("{head}{}\n", wrong_count(operation, count)));
        return Ok(Status::Refused);
    }
    reply_operands(line, operation, out)
}
