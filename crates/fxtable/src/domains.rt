// Where an argument must lie, beyond being a fixnum; `Domain::Fixnum` asks for no more.
#[derive(Clone, Copy)]
pub enum Domain {
    Fixnum,
    Divisor,
    Position,
    FieldEnd,
    NewBit,
    SignedDistance,
    Distance,
    Rotation,
}
