// The commands and the operations by name.
#![tactic(auto)]

use std::fmt;

#[derive(Clone, Copy, Debug, PartialEq, Eq)]
pub enum Command {
    Fx,
    Widths,
    Bitwise,
    Trim,
    Fl,
    List,
    Fold,
    Join,
    Rule,
    Ops,
    Help,
    Batch,
}

impl Command {
    pub const ALL: [Command; 12] = [
        Command::Fx,
        Command::Widths,
        Command::Bitwise,
        Command::Trim,
        Command::Fl,
        Command::List,
        Command::Fold,
        Command::Join,
        Command::Rule,
        Command::Ops,
        Command::Help,
        Command::Batch,
    ];

    pub fn name(self) -> &'static str {
        match self {
            Command::Fx => "fx",
            Command::Widths => "widths",
            Command::Bitwise => "bitwise",
            Command::Trim => "trim",
            Command::Fl => "fl",
            Command::List => "list",
            Command::Fold => "fold",
            Command::Join => "join",
            Command::Rule => "rule",
            Command::Ops => "ops",
            Command::Help => "help",
            Command::Batch => "batch",
        }
    }

    pub fn named(word: &[u8]) -> Option<Command> {
        Command::ALL
            .into_iter()
            .find(|command| command.name().as_bytes() == word)
    }
}

// The fixnum operations in the order of their codes: their names and their arguments.
const FIXNUM: [(&str, &str); 41] = [
    ("fx=?", "x y .."),
    ("fx>?", "x y .."),
    ("fx<?", "x y .."),
    ("fx>=?", "x y .."),
    ("fx<=?", "x y .."),
    ("fxzero?", "x"),
    ("fxpositive?", "x"),
    ("fxnegative?", "x"),
    ("fxodd?", "x"),
    ("fxeven?", "x"),
    ("fxmax", "x .."),
    ("fxmin", "x .."),
    ("fx+", "x y"),
    ("fx*", "x y"),
    ("fx-", "x, or x y"),
    ("fxdiv", "x y"),
    ("fxmod", "x y"),
    ("fxdiv-and-mod", "x y"),
    ("fxdiv0", "x y"),
    ("fxmod0", "x y"),
    ("fxdiv0-and-mod0", "x y"),
    ("fx+/carry", "x y z"),
    ("fx-/carry", "x y z"),
    ("fx*/carry", "x y z"),
    ("fxnot", "x"),
    ("fxand", ".."),
    ("fxior", ".."),
    ("fxxor", ".."),
    ("fxif", "x y z"),
    ("fxbit-count", "x"),
    ("fxlength", "x"),
    ("fxfirst-bit-set", "x"),
    ("fxbit-set?", "x position"),
    ("fxcopy-bit", "x position new-bit"),
    ("fxbit-field", "x start end"),
    ("fxcopy-bit-field", "x start end y"),
    ("fxarithmetic-shift", "x distance"),
    ("fxarithmetic-shift-left", "x distance"),
    ("fxarithmetic-shift-right", "x distance"),
    ("fxrotate-bit-field", "x start end count"),
    ("fxreverse-bit-field", "x start end"),
];

// The code of the fixnum operation that a word names.
pub fn code_named(word: &[u8]) -> Option<u64> {
    let index = FIXNUM.iter().position(|(name, _)| name.as_bytes() == word)?;
    Some(index as u64 + 1)
}

// The name and the arguments of a fixnum operation; nothing of a number that is no code.
fn fixnum_entry(code: u64) -> (&'static str, &'static str) {
    let Some(index) = code.checked_sub(1) else {
        return ("", "");
    };
    FIXNUM.get(index as usize).copied().unwrap_or(("", ""))
}

// The name of the fixnum operation with a code, as a value that is printed.
#[derive(Clone, Copy)]
pub struct FixnumName(pub u64);

impl fmt::Display for FixnumName {
    fn fmt<W: fmt::Write>(&self, f: &mut fmt::Formatter<W>) -> fmt::Result {
        write!(f, "{}", fixnum_entry(self.0).0)
    }
}

#[derive(Clone, Copy, Debug, PartialEq, Eq)]
pub enum Bitwise {
    Not,
    And,
    Ior,
    Xor,
    If,
    BitCount,
    Length,
    FirstBitSet,
    BitSet,
    CopyBit,
    BitField,
    CopyBitField,
    ArithmeticShift,
    ArithmeticShiftLeft,
    ArithmeticShiftRight,
    RotateBitField,
    ReverseBitField,
}

impl Bitwise {
    // In the order of the fixnum operations that they are at every width, codes 25 to 41.
    pub const ALL: [Bitwise; 17] = [
        Bitwise::Not,
        Bitwise::And,
        Bitwise::Ior,
        Bitwise::Xor,
        Bitwise::If,
        Bitwise::BitCount,
        Bitwise::Length,
        Bitwise::FirstBitSet,
        Bitwise::BitSet,
        Bitwise::CopyBit,
        Bitwise::BitField,
        Bitwise::CopyBitField,
        Bitwise::ArithmeticShift,
        Bitwise::ArithmeticShiftLeft,
        Bitwise::ArithmeticShiftRight,
        Bitwise::RotateBitField,
        Bitwise::ReverseBitField,
    ];

    // The code of the fixnum operation that it is at every width.
    pub fn code(self) -> u64 {
        self as u64 + 25
    }

    // The operation that the fixnum operation with a code is at every width.
    pub fn at_code(code: u64) -> Option<Bitwise> {
        let index = code.checked_sub(25)?;
        Bitwise::ALL.get(index as usize).copied()
    }

    fn entry(self) -> (&'static str, &'static str) {
        match self {
            Bitwise::Not => ("bitwise-not", "x"),
            Bitwise::And => ("bitwise-and", "x y"),
            Bitwise::Ior => ("bitwise-ior", "x y"),
            Bitwise::Xor => ("bitwise-xor", "x y"),
            Bitwise::If => ("bitwise-if", "x y z"),
            Bitwise::BitCount => ("bitwise-bit-count", "x"),
            Bitwise::Length => ("bitwise-length", "x"),
            Bitwise::FirstBitSet => ("bitwise-first-bit-set", "x"),
            Bitwise::BitSet => ("bitwise-bit-set?", "x position"),
            Bitwise::CopyBit => ("bitwise-copy-bit", "x position new-bit"),
            Bitwise::BitField => ("bitwise-bit-field", "x start end"),
            Bitwise::CopyBitField => ("bitwise-copy-bit-field", "x start end y"),
            Bitwise::ArithmeticShift => ("bitwise-arithmetic-shift", "x distance"),
            Bitwise::ArithmeticShiftLeft => ("bitwise-arithmetic-shift-left", "x distance"),
            Bitwise::ArithmeticShiftRight => ("bitwise-arithmetic-shift-right", "x distance"),
            Bitwise::RotateBitField => ("bitwise-rotate-bit-field", "x start end count"),
            Bitwise::ReverseBitField => ("bitwise-reverse-bit-field", "x start end"),
        }
    }

    pub fn name(self) -> &'static str {
        self.entry().0
    }

    pub fn named(word: &[u8]) -> Option<Bitwise> {
        Bitwise::ALL
            .into_iter()
            .find(|operation| operation.name().as_bytes() == word)
    }
}

#[derive(Clone, Copy, Debug, PartialEq, Eq)]
pub enum FlonumOperation {
    FromFixnum,
    Floor,
    Ceiling,
    Truncate,
    Round,
    Abs,
    Nan,
    Finite,
    Extremes,
}

impl FlonumOperation {
    pub const ALL: [FlonumOperation; 9] = [
        FlonumOperation::FromFixnum,
        FlonumOperation::Floor,
        FlonumOperation::Ceiling,
        FlonumOperation::Truncate,
        FlonumOperation::Round,
        FlonumOperation::Abs,
        FlonumOperation::Nan,
        FlonumOperation::Finite,
        FlonumOperation::Extremes,
    ];

    fn entry(self) -> (&'static str, &'static str) {
        match self {
            FlonumOperation::FromFixnum => ("fixnum->flonum", "width n"),
            FlonumOperation::Floor => ("flfloor", "x"),
            FlonumOperation::Ceiling => ("flceiling", "x"),
            FlonumOperation::Truncate => ("fltruncate", "x"),
            FlonumOperation::Round => ("flround", "x"),
            FlonumOperation::Abs => ("flabs", "x"),
            FlonumOperation::Nan => ("flnan?", "x"),
            FlonumOperation::Finite => ("flfinite?", "x"),
            FlonumOperation::Extremes => ("flextremes", "x .."),
        }
    }

    pub fn name(self) -> &'static str {
        self.entry().0
    }

    pub fn named(word: &[u8]) -> Option<FlonumOperation> {
        FlonumOperation::ALL
            .into_iter()
            .find(|operation| operation.name().as_bytes() == word)
    }
}

// An operation of any kind. A fixnum operation is its code, a number, since the C interface and `ql fx` have it so.
#[derive(Clone, Copy, Debug, PartialEq, Eq)]
pub enum Operation {
    Fixnum(u64),
    Bitwise(Bitwise),
    Flonum(FlonumOperation),
}

impl Operation {
    pub fn named(word: &[u8]) -> Option<Operation> {
        if let Some(code) = code_named(word) {
            return Some(Operation::Fixnum(code));
        }
        if let Some(operation) = Bitwise::named(word) {
            return Some(Operation::Bitwise(operation));
        }
        FlonumOperation::named(word).map(Operation::Flonum)
    }

    fn entry(self) -> (&'static str, &'static str) {
        match self {
            Operation::Fixnum(code) => fixnum_entry(code),
            Operation::Bitwise(operation) => operation.entry(),
            Operation::Flonum(operation) => operation.entry(),
        }
    }

    pub fn name(self) -> &'static str {
        self.entry().0
    }

    // The names of the arguments, as `x start end`.
    pub fn arguments(self) -> &'static str {
        self.entry().1
    }
}
