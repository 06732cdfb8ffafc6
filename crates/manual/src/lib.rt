// The long texts of `help`: what the command, each of its commands and each operation do, and an example of each operation.
#![tactic(auto)]

use names::{Bitwise, Command, FlonumOperation, Operation};

// What an operation does, and arguments of it that make a short example.
#[derive(Clone, Copy)]
pub struct Entry {
    pub meaning: &'static str,
    pub sample: &'static str,
}

fn row(meaning: &'static str, sample: &'static str) -> Entry {
    Entry { meaning, sample }
}

// The fixnum operations on numbers, codes 1 to 24.
fn number_entry(code: u64) -> Entry {
    match code {
        1 => row("whether each argument equals the next", "3 3 3"),
        2 => row("whether each argument is greater than the next", "3 2 1"),
        3 => row("whether each argument is less than the next", "1 2 3"),
        4 => row("whether each argument is at least the next", "3 3 1"),
        5 => row("whether each argument is at most the next", "1 3 3"),
        6 => row("whether x is 0", "0"),
        7 => row("whether x is greater than 0", "5"),
        8 => row("whether x is less than 0", "-5"),
        9 => row("whether x is odd", "5"),
        10 => row("whether x is even", "6"),
        11 => row("the greatest argument", "3 -7 5"),
        12 => row("the least argument", "3 -7 5"),
        13 => row("x + y", "40 2"),
        14 => row("x * y", "6 7"),
        15 => row("x - y, or -x", "50 8"),
        16 => row(
            "the quotient of x by y that leaves a remainder from 0 to |y| - 1",
            "-7 2",
        ),
        17 => row("the remainder of x by y that is from 0 to |y| - 1", "-7 2"),
        18 => row(
            "the quotient and the remainder, which is from 0 to |y| - 1",
            "-7 2",
        ),
        19 => row(
            "the quotient of x by y that leaves a remainder from -|y|/2 up to, but not at, |y|/2",
            "-7 4",
        ),
        20 => row(
            "the remainder of x by y that is from -|y|/2 up to, but not at, |y|/2",
            "-7 4",
        ),
        21 => row(
            "the quotient and the remainder, which is from -|y|/2 up to, but not at, |y|/2",
            "-7 4",
        ),
        22 => row(
            "x + y + z in two parts: what a fixnum holds of it, and the carry, which counts for 2^width",
            "0x7fffff 1 0",
        ),
        23 => row(
            "x - y - z in two parts: what a fixnum holds of it, and the carry, which counts for 2^width",
            "-0x800000 1 0",
        ),
        24 => row(
            "x * y + z in two parts: what a fixnum holds of it, and the carry, which counts for 2^width",
            "0x7fffff 0x7fffff 1",
        ),
        _ => row("", ""),
    }
}

// The operations on bits: the bitwise operations, and the fixnum operations that they are at every width.
fn bit_entry(operation: Bitwise) -> Entry {
    match operation {
        Bitwise::Not => row("each bit of x turned over: -1 - x", "5"),
        Bitwise::And => row("the bits that are 1 in every argument", "12 10"),
        Bitwise::Ior => row("the bits that are 1 in some argument", "12 10"),
        Bitwise::Xor => row("the bits that are 1 in an odd number of arguments", "12 10"),
        Bitwise::If => row(
            "the bits of y where x has a 1, and those of z where it has a 0",
            "12 10 3",
        ),
        Bitwise::BitCount => row(
            "how many bits of x are 1; of a negative x, -1 less how many are 0",
            "-8",
        ),
        Bitwise::Length => row("how many bits x has without its sign", "255"),
        Bitwise::FirstBitSet => row(
            "the position of the lowest bit of x that is 1, or -1 where there is none",
            "40",
        ),
        Bitwise::BitSet => row("whether the bit of x at a position is 1", "5 2"),
        Bitwise::CopyBit => row("x with the bit at a position replaced", "5 1 1"),
        Bitwise::BitField => row(
            "the bits of x from start up to, but not at, end, as a number",
            "0x1234 4 12",
        ),
        Bitwise::CopyBitField => row(
            "x with its bits from start up to, but not at, end replaced by the lowest of y",
            "0x1234 4 12 0xff",
        ),
        Bitwise::ArithmeticShift => row("x * 2^distance, rounded down", "-5 -1"),
        Bitwise::ArithmeticShiftLeft => row("x * 2^distance", "5 4"),
        Bitwise::ArithmeticShiftRight => row("x / 2^distance, rounded down", "-5 1"),
        Bitwise::RotateBitField => row(
            "x with its bits from start up to, but not at, end rotated by count towards the high end",
            "0x1234 4 12 3",
        ),
        Bitwise::ReverseBitField => row(
            "x with its bits from start up to, but not at, end in reverse order",
            "0x1234 4 12",
        ),
    }
}

fn flonum_entry(operation: FlonumOperation) -> Entry {
    match operation {
        FlonumOperation::FromFixnum => row(
            "the flonum nearest to the fixnum n; of two that are as near, the one whose last bit is 0",
            "24 -7",
        ),
        FlonumOperation::Floor => row("x rounded down to a whole number", "-2.5"),
        FlonumOperation::Ceiling => row("x rounded up to a whole number", "-2.5"),
        FlonumOperation::Truncate => row("x rounded toward zero to a whole number", "-2.5"),
        FlonumOperation::Round => row(
            "the whole number nearest to x; of two that are as near, the even one",
            "-2.5",
        ),
        FlonumOperation::Abs => row("x without its sign", "-2.5"),
        FlonumOperation::Nan => row("whether x is a NaN", "nan"),
        FlonumOperation::Finite => row("whether x is neither a NaN nor an infinity", "inf"),
        FlonumOperation::Extremes => row(
            "the smallest and the largest argument; of equal ones the first",
            "0.5 -0.0 0.0",
        ),
    }
}

pub fn entry_of(operation: Operation) -> Entry {
    match operation {
        Operation::Fixnum(code) => match Bitwise::at_code(code) {
            Some(alike) => bit_entry(alike),
            None => number_entry(code),
        },
        Operation::Bitwise(operation) => bit_entry(operation),
        Operation::Flonum(operation) => flonum_entry(operation),
    }
}

pub const USAGE: &str = "ql: the fixnum, bitwise and some flonum operations of R6RS, proved

  ql fx WIDTH OP ARG..                    a fixnum operation at a width
  ql widths OP ARG..                      the same at every width, and which widths agree
  ql bitwise OP ARG..                     a bitwise operation on integers of up to 1024 limbs of 32 bits
  ql trim LIMB..                          limbs of 32 bits, the least significant first, without padding, and their integer
  ql fl OP ARG..                          a flonum operation on numbers of 64 bits
  ql list WIDTH START END NUMBER CALL..   calls rot:COUNT and rev on one field, and the one rotation they equal
  ql fold WIDTH START END COUNT [ACCUMULATOR] [FILE..]
                                          an identifier of the bytes of standard input, or of each file
  ql widths fold START END COUNT [ACCUMULATOR] [FILE..]
                                          the same at every width, and which widths agree
  ql join WIDTH START END COUNT ACCUMULATOR PIECE LENGTH
                                          the identifier after a piece that was folded by itself
  ql rule read RULE                       the width and the form of a stored rule, or where it offends
  ql rule run RULE INPUT..                a stored rule run
  ql rule widths RULE INPUT..             the same at every width, and which widths agree
  ql batch                                calls of fx, bitwise and fl, a line each, from standard input
  ql ops [OP]                             the operations: codes, names, arguments
  ql help [WORD]                          this, or what a command or an operation does
  ql --version

OP is a name of R6RS, or the code of a fixnum operation. A number is written in decimal, or in hexadecimal after 0x or #x,
in binary after 0b or #b, in octal after #o. A result is printed in decimal and in hexadecimal, or as 'refused' with a
number and the reason. The exit status is 0 where a call is done and 1 where it is refused, or where widths differ; it is
2 where a word or an input cannot be read or an answer cannot be written.

  ql fx 24 fxrotate-bit-field 0x1234 4 12 4
  ql widths fxarithmetic-shift 1 30
  ql bitwise bitwise-xor -1 #xffffffffffffffffffffffff
  ql list 24 4 12 0x1234 rot:3 rev rot:1
  ql fold 62 0 61 7 FILE
  ql rule read 00021c0202280401000000001d000700ff01
";

// What a command does.
pub fn command_help(command: Command) -> &'static str {
    match command {
        Command::Fx => FX_HELP,
        Command::Widths => WIDTHS_HELP,
        Command::Bitwise => BITWISE_HELP,
        Command::Trim => TRIM_HELP,
        Command::Fl => FL_HELP,
        Command::List => LIST_HELP,
        Command::Fold => FOLD_HELP,
        Command::Join => JOIN_HELP,
        Command::Rule => RULE_HELP,
        Command::Ops => OPS_HELP,
        Command::Help => USAGE,
        Command::Batch => BATCH_HELP,
    }
}

const FX_HELP: &str = "ql fx WIDTH OP ARG..
One fixnum operation of R6RS at a width, which is how many bits a fixnum has. OP is its name or its code. Booleans are 1 and 0.
Where an operation has two results they stand on two lines. A call outside its domain is refused, with a number from 1 to 6 and
the reason.
";

const WIDTHS_HELP: &str = "ql widths OP ARG..
ql widths fold START END COUNT [ACCUMULATOR] [FILE..]
One fixnum operation at every width that is accepted, as R6RS says it and this project settles what R6RS leaves open; or the fold of
standard input, or of each file, as 'ql help fold' says it. A line has the widths with one answer. A call or a fold that is done at a
width is done at every larger one and answers the same there, but for fx+/carry, fx-/carry and fx*/carry, and for fxcopy-bit where it
changes the sign bit of the smaller width. The exit status is 0 where all widths agree, and for a fold only where they accept it.
Whether a Scheme system does what R6RS says is another question: docs/HOSTS.md has what some of them do.
";

const BITWISE_HELP: &str = "ql bitwise OP ARG..
One bitwise operation of R6RS on integers of up to 1024 limbs of 32 bits, in two's complement. Long integers are written and printed
in hexadecimal. A call outside its domain is refused, with a number from 3 to 8 and the reason.
";

const TRIM_HELP: &str = "ql trim LIMB..
The shortest limbs of the integer that limbs are, and the integer. A limb is 32 bits, written as a number from 0 to 0xffffffff. The
least significant stands first, and the highest bit of the last one is the sign, in two's complement. A last limb is padding where the
limbs before it are the same integer; the shortest limbs have none. They are the one spelling of an integer that the library's other calls
take as an operand. The lines have the limbs that were given, the shortest, and the integer. There must be 1 to 1024 limbs; any other
number of them is refused, with the number 7.
";

const FL_HELP: &str = "ql fl fixnum->flonum WIDTH N
ql fl flfloor X
ql fl flceiling X
ql fl fltruncate X
ql fl flround X
ql fl flabs X
ql fl flnan? X
ql fl flfinite? X
ql fl flextremes X [Y [Z [W]]]
One flonum operation of R6RS on IEEE numbers of 64 bits, or the smallest and the largest of one to four, on two lines. A flonum is written
in decimal, as 2.5, -1e-5, .5 or 1., or in hexadecimal as C prints it by %a, as 0x1.8p+1; or inf or nan, with a sign or none. +inf.0,
-inf.0 and +nan.0 are read too. It is printed in decimal, as C does by %a, and as bits. A question is answered by 1 or 0. WIDTH and N
are integers: a width that is not from 24 to 64 is refused, with the number 1, and an N that is no fixnum at it with 4. flextremes is refused
with 3, unless it has one to four flonums.
";

const LIST_HELP: &str = "ql list WIDTH START END NUMBER CALL..
Calls on one field of a number, one after the other: rot:COUNT rotates it, rev reverses it. Each line has a call and its result. Then
come the net count, and the one rotation, of the number or of its reversal, that the whole list equals.
";

const FOLD_HELP: &str = "ql fold WIDTH START END COUNT [ACCUMULATOR] [FILE..]
An identifier of bytes, those of standard input or of each file. For each byte the accumulator, a fixnum at the width, has its bits from
START up to, but not at, END rotated by COUNT, as by fxrotate-bit-field, and is then xored with the byte. The last accumulator is the
identifier. It does not depend on how the bytes come in pieces, nor on the width, as long as the width is accepted. The word after COUNT is
the accumulator at the start where it is a number; otherwise that is 0, and the word is the first file. A file whose name is a number is
written ./5, and - is standard input. Of several files, each line ends with the name. The exit status is 1 where the settings are refused;
nothing is read then. It is 2 where a file cannot be read; the others are still answered.
";

const JOIN_HELP: &str = "ql join WIDTH START END COUNT ACCUMULATOR PIECE LENGTH
The identifier that ql fold would answer after LENGTH further bytes, from the identifier so far, ACCUMULATOR, and the identifier PIECE of
these bytes by themselves, folded from 0 with the same settings. So pieces can be folded side by side, and joined in their order.
";

const RULE_HELP: &str = "ql rule read RULE
ql rule run RULE INPUT..
ql rule widths RULE INPUT..
A stored rule: its bytes in hexadecimal, or @ and the name of a file that has them, @- for standard input. A rule is a width, 0 for 30, and
one form. A form is 0 and a constant, or 1 and the index of an input, 0 to 15, or 2, a code, an argument count and that many forms. A
constant is signed LEB128, any other number unsigned, in its shortest form. There are at most 4096 bytes, nested at most 32 forms deep, and
no operation with two results.
read prints the width and the form as Scheme writes it, x3 for input 3. run takes the inputs x0, x1 and so on, as many as the rule needs,
and prints its value. widths does so at every width from 24 to 64, whichever is stored, and a line has the widths with one answer. Bytes
that are no rule are refused, with a number, 10, and the byte and the item that offend; a rule that is run is refused with the call, the
constant or the input that is. The exit status of widths is 0 where all widths agree.
";

const OPS_HELP: &str = "ql ops [OP]
The operations: code, name, how many arguments, and which.
";

const BATCH_HELP: &str = "ql batch
Reads calls from standard input, a line each, such as 'fx 24 fxand 12 10', 'bitwise bitwise-not 5' or 'fl flabs -1', and answers a line for
each, in order. A line that cannot be read is answered by the reason. An empty line is answered by an empty one. The exit status is 2 where
a line cannot be read, else 1 where a call is refused, else 0.
";
