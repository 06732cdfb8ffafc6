// The numbers of a call that a check has found legal.
ghost use Rattle.std.specs.Prelude.{◌≤◌};

// The bits of an integer from `start` on, up to, but not at, `end`.
#[derive(Clone, Copy, Debug, PartialEq, Eq)]
pub struct Field {
    pub start: u64,
    pub end: u64,
    pub ghost ordered: { start ≤ end },
    pub ghost within: { end ≤ 32767 },
}

// By how many bits a field is rotated.
#[derive(Clone, Copy, Debug, PartialEq, Eq)]
pub struct Rotation {
    pub field: Field,
    pub count: u64,
}

// What the bit at a position becomes.
#[derive(Clone, Copy, Debug, PartialEq, Eq)]
pub struct NewBit {
    pub position: u64,
    pub bit: u32,
    pub ghost within: { position ≤ 32766 },
    pub ghost small: { bit ≤ 1 },
}
