// How many words an operation takes behind its name.
use line::refusal::Counts;
use names::FlonumOperation;

pub fn counts(operation: FlonumOperation) -> Counts {
    let (least, most) = match operation {
        FlonumOperation::FromFixnum => (2, 2),
        FlonumOperation::Extremes => (1, 4),
        _ => (1, 1),
    };
    Counts { least, most }
}
