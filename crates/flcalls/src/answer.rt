// What a call answers, as text.
use fldecimal::put_shortest;
use flonum::answer::Answer;
use flonum::ieee::bits;
use flspelling::spell_flonum;
use output::buffer::Output;
use output::numerals::Both;

fn put_decimal(x: f64, out: &mut Output) {
    let mut space = [0u8; 32];
    let n = put_shortest(x, &mut space);
    out.put(&space[..n]);
}

fn put_hexadecimal(x: f64, out: &mut Output) {
    let mut space = [0u8; 24];
    if let Ok(n) = spell_flonum(x, &mut space) {
        out.put(&space[..n]);
    }
}

// `3.0 0x1.8p+1 0x4008000000000000`: a flonum in decimal, as C prints it by %a, and its bits.
pub fn put_flonum(x: f64, out: &mut Output) {
    put_decimal(x, out);
    out.put(b" ");
    put_hexadecimal(x, out);
    out.print(format_args!(" 0x{:016x}", bits(x)));
}

// The value of a done call, a line. A refusal has none.
pub fn put_value(answer: Answer, out: &mut Output) {
    match answer {
        Answer::Flonum(x) => put_flonum(x, out),
        Answer::Fixnum(n) => out.print(Both(n)),
        Answer::Refused(_) => {}
    }
    out.put(b"\n");
}
