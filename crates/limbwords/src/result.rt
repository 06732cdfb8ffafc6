// Which operation a result is of, and with which numbers.
// Not is of the first operand, whatever the second is.
#[derive(Clone, Copy)]
pub enum Logic {
    And,
    Ior,
    Xor,
    Not,
}

// A field has the bits from start up to, but not at, end. CopyField takes its bits from the second operand.
#[derive(Clone, Copy)]
pub enum Operation {
    Logical(Logic),
    If,
    ShiftLeft { by: u64 },
    ShiftRight { by: u64 },
    Field { start: u64, end: u64 },
    CopyField { start: u64, end: u64 },
    Rotate { start: u64, end: u64, by: u64 },
    Reverse { start: u64, end: u64 },
}
