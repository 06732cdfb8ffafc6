// Why bytes are no rule, in words. The offset is the reader's, and the item that begins there comes from a walk of its own.
use super::groups::{groups_at, is_padded, value_of};
use super::item::{Item, Placed, offending_item};
use fxtable::table::{CODES, has_two_results, signature_of};
use fxtable::width::{LARGEST_WIDTH, LEAST_WIDTH};
use line::refusal::Span;
use names::FixnumName;
use rulereader::heads::INPUTS;
use rulereader::{DEEPEST, LONGEST};
use std::fmt;

// How many groups a number may have, or a constant.
const NUMBER_GROUPS: usize = 9;

const CONSTANT_GROUPS: usize = 10;

// The numbers that are allowed: `from 2 to 4`, or `4`
#[derive(Clone, Copy)]
struct Allowed(Span);

impl Allowed {
    fn from_to(first: u64, last: u64) -> Allowed {
        Allowed(Span { first, last })
    }
}

impl fmt::Display for Allowed {
    fn fmt<W: fmt::Write>(&self, f: &mut fmt::Formatter<W>) -> fmt::Result {
        let from = if self.0.first < self.0.last {
            "from "
        } else {
            ""
        };
        write!(f, "{from}{}", self.0)
    }
}

// The rule that a number breaks, an item of a rule. A code must be one of an operation, with one result.
#[derive(Clone, Copy)]
struct Broken {
    item: Item,
    value: u64,
}

impl fmt::Display for Broken {
    fn fmt<W: fmt::Write>(&self, f: &mut fmt::Formatter<W>) -> fmt::Result {
        match self.item {
            Item::Width => write!(
                f,
                "it must be 0 or {}",
                Allowed::from_to(LEAST_WIDTH, LARGEST_WIDTH)
            ),
            Item::Index => write!(f, "it must be {}", Allowed::from_to(0, INPUTS - 1)),
            Item::Code if has_two_results(self.value) => {
                let name = FixnumName(self.value);
                write!(
                    f,
                    "{name} has two results, and a call of a rule must have one"
                )
            }
            Item::Code => write!(f, "it must be {}", Allowed::from_to(1, CODES)),
            Item::Count { code } => {
                let signature = signature_of(code);
                write!(
                    f,
                    "it must be {}",
                    Allowed::from_to(signature.least, signature.most)
                )
            }
            _ => write!(
                f,
                "it must be 0 for a constant, 1 for an input or 2 for a call"
            ),
        }
    }
}

// What is wrong with a number or a constant, an item of a rule: ` is 3: it must be 4`
#[derive(Clone, Copy)]
struct Wrong<'a> {
    rule: &'a [u8],
    placed: Placed,
}

impl<'a> fmt::Display for Wrong<'a> {
    fn fmt<W: fmt::Write>(&self, f: &mut fmt::Formatter<W>) -> fmt::Result {
        let Placed { item, start } = self.placed;
        let is_constant = item == Item::Constant;
        let most = if is_constant {
            CONSTANT_GROUPS
        } else {
            NUMBER_GROUPS
        };
        let Some(groups) = groups_at(self.rule, start, most) else {
            return write!(
                f,
                " has more than {most} groups: it must have at most {most}"
            );
        };
        if is_padded(groups, is_constant) {
            write!(
                f,
                " has {} groups: it must have as few as hold it",
                groups.len()
            )
        } else if is_constant {
            write!(
                f,
                " is no signed 64-bit number: it must be from -2^63 to 2^63 - 1"
            )
        } else {
            let value = value_of(groups);
            write!(f, " is {value}: {}", Broken { item, value })
        }
    }
}

// The reason of refusal 10, by the reader's offset.
#[derive(Clone, Copy)]
pub struct Breach<'a> {
    pub rule: &'a [u8],
    pub offset: usize,
}

impl<'a> fmt::Display for Breach<'a> {
    fn fmt<W: fmt::Write>(&self, f: &mut fmt::Formatter<W>) -> fmt::Result {
        let Breach { rule, offset } = *self;
        if LONGEST < rule.len() {
            return write!(
                f,
                "byte {offset} is one too many: a rule has at most {LONGEST} bytes"
            );
        }
        let placed = offending_item(rule);
        let Placed { item, start } = placed;
        match item {
            Item::Form(_) => {
                let depth = DEEPEST + 1;
                write!(
                    f,
                    "byte {offset}, {item}, is nested {depth} deep: it must be nested at most {DEEPEST} deep"
                )
            }
            _ if rule.len() <= offset => {
                if start < offset {
                    write!(f, "the rule ends at byte {offset}, within {item}")
                } else {
                    write!(
                        f,
                        "the rule ends at byte {offset}, where {item} was expected"
                    )
                }
            }
            Item::After => write!(
                f,
                "byte {offset}, {item}, is one too many: the rule must end there"
            ),
            _ => write!(f, "byte {offset}, {item},{}", Wrong { rule, placed }),
        }
    }
}
