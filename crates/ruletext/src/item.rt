// The item of a rule that offends: which one it is, and where it begins.
ghost use Rattle.std.specs.Prelude.{◌<◌, IfSome, length};

use super::walk::{Walk, walk_form};
use names::FixnumName;
use rulereader::heads::is_stored_code;
use rulereader::is_stored_width;
use rulereader::numbers::read_number;
use std::fmt;

// A form as a part of a rule: the whole form, or an argument of a call.
#[derive(Clone, Copy, Debug, PartialEq, Eq)]
pub enum Part {
    Whole,
    Argument { place: u64, code: u64 },
}

// `Form` is a form that is nested too deep, and `After` what stands after the rule's form.
#[derive(Clone, Copy, Debug, PartialEq, Eq)]
pub enum Item {
    Width,
    Tag(Part),
    Constant,
    Index,
    Code,
    Count { code: u64 },
    Form(Part),
    After,
}

// An item and where it begins.
#[derive(Clone, Copy, Debug, PartialEq, Eq)]
pub struct Placed {
    pub item: Item,
    pub start: usize,
}

// `the form`, or `argument 2 of fxxor`
impl fmt::Display for Part {
    fn fmt<W: fmt::Write>(&self, f: &mut fmt::Formatter<W>) -> fmt::Result {
        match self {
            Part::Whole => write!(f, "the form"),
            Part::Argument { place, code } => {
                write!(f, "argument {place} of {}", FixnumName(*code))
            }
        }
    }
}

// `the argument count of fxand`
impl fmt::Display for Item {
    fn fmt<W: fmt::Write>(&self, f: &mut fmt::Formatter<W>) -> fmt::Result {
        match self {
            Item::Width => write!(f, "the width"),
            Item::Tag(part) => write!(f, "the tag of {part}"),
            Item::Constant => write!(f, "a constant"),
            Item::Index => write!(f, "the index of an input"),
            Item::Code => write!(f, "the code of a call"),
            Item::Count { code } => write!(f, "the argument count of {}", FixnumName(*code)),
            Item::Form(part) => write!(f, "{part}"),
            Item::After => write!(f, "after the form"),
        }
    }
}

// The number of one group at an offset.
fn group_at(rule: &[u8], at: usize) -> Option<u64>
    ensures { IfSome result (λ _. at < length rule.now) }
{
    if at < rule.len() {
        read_number(rule, at).ok()
    } else {
        None
    }
}

// The form that a walk has come to.
fn part_at(walk: &Walk) -> Part {
    match walk.innermost() {
        Some(call) => Part::Argument {
            place: call.count.saturating_sub(call.left.saturating_sub(1)),
            code: call.code,
        },
        None => Part::Whole,
    }
}

// The code of a call, or its argument count where the code is good.
fn call_item(rule: &[u8], start: usize) -> Placed {
    match group_at(rule, start) {
        Some(code) if is_stored_code(code) => Placed {
            item: Item::Count { code },
            start: start + 1,
        },
        _ => Placed {
            item: Item::Code,
            start,
        },
    }
}

// The item of a head that offends.
fn head_item(rule: &[u8], walk: &Walk) -> Placed {
    let start = walk.at;
    match group_at(rule, start) {
        Some(0) => Placed {
            item: Item::Constant,
            start: start + 1,
        },
        Some(1) => Placed {
            item: Item::Index,
            start: start + 1,
        },
        Some(2) => call_item(rule, start + 1),
        _ => Placed {
            item: Item::Tag(part_at(walk)),
            start,
        },
    }
}

// The item that offends, of a rule that is not too long.
pub fn offending_item(rule: &[u8]) -> Placed {
    if !group_at(rule, 0).is_some_and(is_stored_width) {
        return Placed {
            item: Item::Width,
            start: 0,
        };
    }
    let walk = walk_form(rule, 1);
    if walk.ended {
        Placed {
            item: Item::After,
            start: walk.at,
        }
    } else if walk.is_deepest() {
        Placed {
            item: Item::Form(part_at(&walk)),
            start: walk.at,
        }
    } else {
        head_item(rule, &walk)
    }
}
