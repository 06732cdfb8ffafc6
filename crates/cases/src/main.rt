// The cases that document 01 has a program run: each line has a call and its answer.
#![tactic(auto)]

use outcomes::refusal::Refusal;
use std::fmt;

// The integer that a call has answered, or the number of its refusal.
#[derive(Clone, Copy)]
struct Reply(Result<i64, u64>);

impl fmt::Display for Reply {
    fn fmt<W: fmt::Write>(&self, f: &mut fmt::Formatter<W>) -> fmt::Result {
        match self.0 {
            Ok(n) => write!(f, "is {n}"),
            Err(refusal) => write!(f, "is refused {refusal}"),
        }
    }
}

fn shift_fixnum(rt: &impl Print, width: u64, x: i64, distance: i64) {
    let answer = fixnum::call(width, 37, [x, distance, 0, 0], 2);
    let reply = Reply(match answer.refusal {
        0 => Ok(answer.first),
        refusal => Err(refusal),
    });
    let _ = println!(rt; "fixnum, width {width}: shift {x} by {distance} {reply}");
}

// The integer of the limbs that are written.
fn shifted(x: &[u32], distance: i64, out: &mut [u32]) -> Result<i64, Refusal> {
    let n = limbs::bitwise_shift(x, distance, out, 0)?;
    limbs::to_word(&out[..n])
}

fn shift_limbs(rt: &impl Print, x: &[u32], distance: i64, out: &mut [u32]) {
    let capacity = out.len();
    let n = limbs::to_word(x).unwrap_or(0);
    let reply = Reply(shifted(x, distance, out).map_err(u64::from));
    let _ = println!(rt; "limbs, capacity {capacity}: shift {n} by {distance} {reply}");
}

fn main(rt: HostRuntime) {
    let fixnums = [
        (24, 1, 22),
        (24, 1, 23),
        (24, 1, 24),
        (24, -1, 23),
        (23, 1, 22),
        (65, 1, 22),
        (64, 1, 63),
        (64, -1, 63),
    ];
    for (width, x, distance) in fixnums {
        shift_fixnum(&rt, width, x, distance);
    }
    let mut one = [7u32];
    let mut two = [7u32, 7];
    shift_limbs(&rt, &[1], 32, &mut one);
    shift_limbs(&rt, &[1], 32, &mut two);
    shift_limbs(&rt, &[0], i64::MAX, &mut one);
    shift_limbs(&rt, &[0xFFFF_FFFB], i64::MIN, &mut one);
}
