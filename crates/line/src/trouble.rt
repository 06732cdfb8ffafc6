// What the command says: the exit status, and what is said of a word that cannot be read.
ghost use Rattle.std.specs.Prelude.{◌≡◌};
ghost use Rattle.line.specs.Exit.{number_of};

use super::Line;
use super::refusal::Span;
use fxtable::width::{LARGEST_WIDTH, LEAST_WIDTH};
use output::buffer::Output;
use std::fmt;

// The exit status, from the best to the worst.
#[derive(Clone, Copy, Debug, PartialEq, Eq, PartialOrd, Ord)]
pub enum Status {
    Done,
    // A call was refused, or widths differ.
    Refused,
    // A word or an input cannot be read, or an answer cannot be written.
    Trouble,
}

impl From<Status> for u8 {
    ghost from_gives = { λ s n. n ≡ number_of s };

    #[tactic(auto, unfolding(crate::specs::Exit::number_of))]
    fn from(status: Status) -> u8 {
        match status {
            Status::Done => 0,
            Status::Refused => 1,
            Status::Trouble => 2,
        }
    }
}

// What is expected in the place of a word.
#[derive(Clone, Copy, Debug, PartialEq, Eq)]
pub enum Expected {
    Command,
    Topic,
    Number,
    NumberOfOneWord,
    Width,
    FixnumOperation,
    BitwiseOperation,
    Integer,
    IntegerOfFewDigits,
    Limb,
    FlonumOperation,
    Flonum,
    FlonumOfFewDigits,
    ListCall,
    Length,
    RuleCommand,
    Rule,
    EvenDigits,
    LineCommand,
    End,
}

const WIDTHS: Span = Span {
    first: LEAST_WIDTH,
    last: LARGEST_WIDTH,
};

impl fmt::Display for Expected {
    fn fmt<W: fmt::Write>(&self, f: &mut fmt::Formatter<W>) -> fmt::Result {
        let text = match self {
            Expected::Command => {
                "fx, widths, bitwise, trim, fl, list, fold, join, rule, batch, ops or help"
            }
            Expected::Topic => {
                "a command or an operation, such as widths or fxand (ql ops lists operations),"
            }
            Expected::Number => "a number, such as 31, -0x1f, #x1f or #b11111,",
            Expected::NumberOfOneWord => "a number from -2^63 to 2^63 - 1",
            Expected::Width => return write!(f, "a width from {WIDTHS}"),
            Expected::FixnumOperation => "an operation, such as fxand or 26 (ql ops lists them),",
            Expected::BitwiseOperation => {
                "a bitwise operation, such as bitwise-and (ql ops lists them),"
            }
            Expected::Integer => "an integer, such as 31, -0x1f, #x1f or #b11111,",
            Expected::IntegerOfFewDigits => {
                "an integer of at most 8192 hexadecimal digits, or below 2^64 in another base,"
            }
            Expected::Limb => "a limb from 0 to 0xffffffff",
            Expected::FlonumOperation => "a flonum operation, such as flfloor (ql ops lists them),",
            Expected::Flonum => "a number, such as 2.5, -1e-5, 0x1.8p+1, inf or nan,",
            Expected::FlonumOfFewDigits => {
                "a number of at most 1500 digits, with an exponent from -1500 to 1500,"
            }
            Expected::ListCall => "rev, or rot: and a count, such as rot:3,",
            Expected::Length => "a length from 0 to 2^63 - 1",
            Expected::RuleCommand => "read, run or widths",
            Expected::Rule => "a rule in hexadecimal, such as 1e0100, or @ and the name of a file",
            Expected::EvenDigits => "an even number of hexadecimal digits",
            Expected::LineCommand => "fx, bitwise or fl",
            Expected::End => "no further word",
        };
        write!(f, "{text}")
    }
}

// A word that cannot be read, and what was expected there.
#[derive(Clone, Copy, Debug, PartialEq, Eq)]
pub struct Trouble {
    pub word: usize,
    pub expected: Expected,
}

impl Trouble {
    // What is said of it.
    pub fn about<'a>(self, line: Line<'a>) -> About<'a> {
        About {
            trouble: self,
            line,
        }
    }
}

// `ql: word 3 is 'x', and a width from 24 to 64 was expected`, a line.
#[derive(Clone, Copy)]
pub struct About<'a> {
    trouble: Trouble,
    line: Line<'a>,
}

impl<'a> fmt::Display for About<'a> {
    fn fmt<W: fmt::Write>(&self, f: &mut fmt::Formatter<W>) -> fmt::Result {
        let Trouble { word: i, expected } = self.trouble;
        match self.line.word(i) {
            Some(word) => {
                let word = Shown::word(word);
                writeln!(f, "ql: word {i} is '{word}', and {expected} was expected")
            }
            None => writeln!(f, "ql: word {i} is missing: {expected} was expected"),
        }
    }
}

impl<'a> Line<'a> {
    // The status of a reply. Where a word cannot be read, what is said of it is all that the output has.
    pub fn conclude(self, reply: Result<Status, Trouble>, out: &mut Output) -> Status {
        match reply {
            Ok(status) => status,
            Err(trouble) => {
                out.clear();
                out.print(trouble.about(self));
                Status::Trouble
            }
        }
    }
}

// A word as it is, or its first bytes and two dots.
#[derive(Clone, Copy)]
pub struct Shown<'a> {
    bytes: &'a [u8],
    most: usize,
}

// How many bytes the name of a file has at most, and the 0 that ends it.
const LONGEST_PATH: usize = 4096;

impl<'a> Shown<'a> {
    // A word of the line: its first 40 bytes.
    pub fn word(bytes: &'a [u8]) -> Shown<'a> {
        Shown { bytes, most: 40 }
    }

    // The name of a file: whole, unless no file can have it.
    pub fn file_name(bytes: &'a [u8]) -> Shown<'a> {
        Shown {
            bytes,
            most: LONGEST_PATH,
        }
    }
}

// A byte that is no letter, digit or sign of ASCII's is shown as a question mark, so that a line stays a line.
fn visible(byte: u8) -> char {
    match byte {
        b' '..=b'~' => char::from(byte),
        _ => '?',
    }
}

impl<'a> fmt::Display for Shown<'a> {
    fn fmt<W: fmt::Write>(&self, f: &mut fmt::Formatter<W>) -> fmt::Result {
        for byte in self.bytes.iter().take(self.most) {
            write!(f, "{}", visible(*byte))?;
        }
        let dots = if self.most < self.bytes.len() {
            ".."
        } else {
            ""
        };
        write!(f, "{dots}")
    }
}
