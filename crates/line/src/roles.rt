// What the arguments of an operation are for. Those of a bitwise operation have the roles of the fixnum operation that it is.
use fxtable::domains::Domain;
use fxtable::table::signature_of;

// The domain of an argument, by its place from 1.
pub fn domain_of(code: u64, place: u64) -> Domain {
    let signature = signature_of(code);
    match place {
        2 => signature.second,
        3 => signature.third,
        4 => signature.fourth,
        _ => Domain::Fixnum,
    }
}

// The position of a bit, or the start of a field where an end follows.
fn position_role(code: u64) -> &'static str {
    match domain_of(code, 3) {
        Domain::FieldEnd => "the start",
        _ => "the position",
    }
}

// The role of an argument. One that may be any fixnum has none.
pub fn role(code: u64, place: u64) -> Option<&'static str> {
    match domain_of(code, place) {
        Domain::Fixnum => None,
        Domain::Divisor => Some("the divisor"),
        Domain::Position => Some(position_role(code)),
        Domain::FieldEnd => Some("the end"),
        Domain::NewBit => Some("the new bit"),
        Domain::SignedDistance | Domain::Distance => Some("the distance"),
        Domain::Rotation => Some("the count"),
    }
}
