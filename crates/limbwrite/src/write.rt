// The limbs of a described result, by a writer for each operation. Limbs that lie whole inside or outside a field are copied;
// only those at its ends are put together bit by bit.
ghost use Rattle.std.specs.Prelude.{◌-◌, ◌<◌, ◌≤◌, ◌^◌, pos, length};
ghost use Rattle.bits.specs.Shift.{shift_left, shift_right};
ghost use Rattle.bits.specs.Field.{bit_field, copy_bit_field, rotate_bit_field, reverse_bit_field};
ghost use Rattle.limbwords.specs.Value.{value};
ghost use Rattle.limbwords.specs.Results.{limb_at};
ghost use Rattle.limbwords.specs.Described.{described};
ghost use Rattle.outcomes.specs.Puts.{Puts};
ghost use Rattle.limbwrite.specs.Inner.{Moved};

use limbsegments::each::put_each;
use limbsegments::index::first_past;
use limbsegments::logical::{write_if, write_logical};
use limbsegments::segment::{put_limbs, put_windows};
use limbwords::described::Described;
use limbwords::field::reverse_limb;
use limbwords::result::Operation;

// Bits of the result, from one position up to another, that are bits of an operand: `up` positions higher there and `down` lower.
#[derive(Drop)]
pub struct Piece {
    pub from: u64,
    pub to: u64,
    pub up: u64,
    pub down: u64,
}

// A position past every limb.
const FAR: u64 = 0x100_0000_0000;

// The limbs from an index on up to the first that does not lie whole below the end of a piece. Those that lie whole in the piece
// are windows of its source. Answers where it has stopped.
fn put_piece(d: &Described, source: &[u32], piece: Piece, from: usize, part: &mut [u32]) -> usize
    requires source_nonzero { 0 < length source.now }
    requires moved { Moved (described d.now) (value source.now) piece.from piece.to piece.up piece.down }
    requires from_bound { (piece.from < 2 ^ 33) × (piece.up < 2 ^ 33) }
    requires from_le_length { (from ≤ length part.old) × (length part.old < 2 ^ 32) }
    ensures { ((from ≤ result) × (result ≤ length part.old)) × Puts 0 (limb_at (described d.now)) part.old part.new from result }
{
    let inner = first_past(piece.from + 31, from, part.len());
    let stop = first_past(piece.to, inner, part.len());
    put_limbs(d, from, &mut part[from..inner]);
    let at = (32 * (inner as u64) + piece.up).saturating_sub(piece.down);
    put_windows(source, at, &mut part[inner..stop]);
    stop
}

// The last piece, which is of the first operand, and what is left after it limb by limb.
fn put_last(d: &Described, piece: Piece, from: usize, part: &mut [u32])
    requires moved { Moved (described d.now) (value d.now.x.now) piece.from piece.to piece.up piece.down }
    requires from_bound { (piece.from < 2 ^ 33) × (piece.up < 2 ^ 33) }
    requires from_le_length { (from ≤ length part.old) × (length part.old < 2 ^ 32) }
    ensures { Puts 0 (limb_at (described d.now)) part.old part.new from (length part.old) }
{
    let rest = put_piece(d, d.x, piece, from, part);
    put_limbs(d, rest, &mut part[rest..]);
}

#[tactic(auto, unfolding(limbwords::specs::Results::Proper))]
fn write_shift_left(x: &[u32], by: u64, part: &mut [u32])
    requires x_nonzero { (0 < length x.now) × (by < 2 ^ 32) }
    requires part_bound { length part.old < 2 ^ 32 }
    ensures { Puts 0 (limb_at (shift_left (value x.now) by)) part.old part.new 0 (length part.old) }
{
    let d = Described {
        operation: Operation::ShiftLeft { by },
        x,
        y: x,
        z: x,
    };
    let low = first_past(by, 0, part.len());
    part[..low].fill(0);
    let above = Piece {
        from: by,
        to: FAR,
        up: 0,
        down: by,
    };
    put_last(&d, above, low, part);
}

// The first limbs of x as they are.
pub fn copy(x: &[u32], part: &mut [u32])
    requires x_nonzero { 0 < length x.now }
    requires part_bound { length part.old < 2 ^ 32 }
    ensures { Puts 0 (limb_at (value x.now)) part.old part.new 0 (length part.old) }
{
    put_windows(x, 0, part);
}

fn write_shift_right(x: &[u32], by: u64, part: &mut [u32])
    requires x_nonzero { (0 < length x.now) × (by < 2 ^ 32) }
    requires part_bound { length part.old < 2 ^ 32 }
    ensures { Puts 0 (limb_at (shift_right (value x.now) by)) part.old part.new 0 (length part.old) }
{
    put_windows(x, by, part);
}

#[tactic(auto, unfolding(limbwords::specs::Results::Proper))]
fn write_field(x: &[u32], start: u64, end: u64, part: &mut [u32])
    requires x_nonzero { 0 < length x.now }
    requires start_le_end { (start ≤ end) × (end < 2 ^ 32) }
    requires part_bound { length part.old < 2 ^ 32 }
    ensures { Puts 0 (limb_at (bit_field (value x.now) start end)) part.old part.new 0 (length part.old) }
{
    let d = Described {
        operation: Operation::Field { start, end },
        x,
        y: x,
        z: x,
    };
    let whole = Piece {
        from: 0,
        to: end - start,
        up: start,
        down: 0,
    };
    put_last(&d, whole, 0, part);
}

// Each bit of the result, from which operand and which bit of it; for the field from 2 to 8:
//
//     result    .. 10  9  8 |  7  6  5  4  3  2 |  1  0
//     x         .. 10  9  8 |                   |  1  0
//     y                     |  5  4  3  2  1  0 |
//                    above       inside           below
//
// A limb that lies whole in one of the three pieces is a window of its operand. One that lies across an end of the field is put
// together bit by bit; in such a limb the field may both begin and end.
#[tactic(auto, unfolding(limbwords::specs::Results::Proper))]
fn write_copy_field(x: &[u32], y: &[u32], start: u64, end: u64, part: &mut [u32])
    requires x_nonzero { (0 < length x.now) × (0 < length y.now) }
    requires start_le_end { (start ≤ end) × (end < 2 ^ 32) }
    requires part_bound { length part.old < 2 ^ 32 }
    ensures { Puts 0 (limb_at (copy_bit_field (value x.now) start end (value y.now))) part.old part.new 0 (length part.old) }
{
    let d = Described {
        operation: Operation::CopyField { start, end },
        x,
        y,
        z: x,
    };
    let below = Piece {
        from: 0,
        to: start,
        up: 0,
        down: 0,
    };
    let inside = Piece {
        from: start,
        to: end,
        up: 0,
        down: start,
    };
    let above = Piece {
        from: end,
        to: FAR,
        up: 0,
        down: 0,
    };
    let low = put_piece(&d, x, below, 0, part);
    let top = put_piece(&d, y, inside, low, part);
    put_last(&d, above, top, part);
}

// The upper bits of the field come to its low end, and the others move up. Each bit of the result, by the bit of x that it is; for the
// field from 2 to 8, rotated by 2:
//
//     result    .. 10  9  8 |  7  6  5  4 |  3  2 |  1  0
//     x         .. 10  9  8 |  5  4  3  2 |  7  6 |  1  0
//                    above       others     upper   below
//                          end         middle   start
//
// Limbs are written as in write_copy_field, from four pieces.
#[tactic(auto, unfolding(limbwords::specs::Results::Proper))]
fn write_rotate(x: &[u32], start: u64, end: u64, by: u64, part: &mut [u32])
    requires x_nonzero { 0 < length x.now }
    requires start_le_end { (start ≤ end) × (end < 2 ^ 32) }
    requires by_bound { by ≤ end - start }
    requires part_bound { length part.old < 2 ^ 32 }
    ensures { Puts 0 (limb_at (rotate_bit_field (value x.now) start end (pos by))) part.old part.new 0 (length part.old) }
{
    let d = Described {
        operation: Operation::Rotate { start, end, by },
        x,
        y: x,
        z: x,
    };
    let middle = start + by;
    let below = Piece {
        from: 0,
        to: start,
        up: 0,
        down: 0,
    };
    let upper = Piece {
        from: start,
        to: middle,
        up: end - middle,
        down: 0,
    };
    let others = Piece {
        from: middle,
        to: end,
        up: 0,
        down: by,
    };
    let above = Piece {
        from: end,
        to: FAR,
        up: 0,
        down: 0,
    };
    let low = put_piece(&d, x, below, 0, part);
    let between = put_piece(&d, x, upper, low, part);
    let top = put_piece(&d, x, others, between, part);
    put_last(&d, above, top, part);
}

fn write_reverse(x: &[u32], start: u64, end: u64, part: &mut [u32])
    requires x_nonzero { 0 < length x.now }
    requires start_le_end { (start ≤ end) × (end < 2 ^ 32) }
    requires part_bound { length part.old < 2 ^ 32 }
    ensures { Puts 0 (limb_at (reverse_bit_field (value x.now) start end)) part.old part.new 0 (length part.old) }
{
    put_each(|j| reverse_limb(x, start, end, j), part);
}

// The first limbs, by the operation's own writer.
#[tactic(auto, unfolding(limbwords::specs::Results::Proper, limbwords::specs::Results::meaning))]
pub fn write(d: &Described, part: &mut [u32])
    requires part_bound { length part.old < 2 ^ 32 }
    ensures { Puts 0 (limb_at (described d.now)) part.old part.new 0 (length part.old) }
{
    match d.operation {
        Operation::Logical(by) => write_logical(by, d.x, d.y, part),
        Operation::If => write_if(d.x, d.y, d.z, part),
        Operation::ShiftLeft { by } => write_shift_left(d.x, by, part),
        Operation::ShiftRight { by } => write_shift_right(d.x, by, part),
        Operation::Field { start, end } => write_field(d.x, start, end, part),
        Operation::CopyField { start, end } => write_copy_field(d.x, d.y, start, end, part),
        Operation::Rotate { start, end, by } => write_rotate(d.x, start, end, by, part),
        Operation::Reverse { start, end } => write_reverse(d.x, start, end, part),
    }
}
