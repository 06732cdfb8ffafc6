// What a stored rule is: no code but the answers' shapes. The meaning is in specs/, its laws are in proofs/.
#![tactic(auto)]

// What reading answers: the refusal number, 0 for done; the offset where the earliest offending item begins; the width that the rule runs at.
#[repr(C)]
#[derive(Clone, Copy, Debug, PartialEq, Eq)]
pub struct ReadAnswer {
    pub refusal: u64,
    pub offset: u64,
    pub width: u64,
}

// What evaluation answers: the refusal number; the place of the argument that a call of the rule is refused for, counted from 1, or 0;
// the offset, with refusal 10; the rule's value.
#[repr(C)]
#[derive(Clone, Copy, Debug, PartialEq, Eq)]
pub struct RuleAnswer {
    pub refusal: u64,
    pub place: u64,
    pub offset: u64,
    pub value: i64,
}
