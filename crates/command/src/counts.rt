// How many arguments an operation of any kind takes.
use line::refusal::Counts;
use names::Operation;

pub fn counts(operation: Operation) -> Counts {
    match operation {
        Operation::Fixnum(code) => fxcalls::domains::counts(code),
        Operation::Bitwise(operation) => limbcalls::rules::counts(operation),
        Operation::Flonum(operation) => flcalls::counts::counts(operation),
    }
}
