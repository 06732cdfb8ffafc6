// `list`: rotate and reverse calls on one field, one after the other.
use super::explain::RefusedCall;
use super::request::Request;
use line::Line;
use line::trouble::{Expected, Shown, Status, Trouble};
use net::{after_reverse, after_rotate};
use output::buffer::Output;
use output::numerals::Both;
use std::fmt;

#[derive(Clone, Copy)]
enum Call {
    Rotate(i64),
    Reverse,
}

impl Call {
    // `rev`, or `rot:` and a count.
    fn named(word: &[u8]) -> Option<Call> {
        if word == b"rev".as_slice() {
            return Some(Call::Reverse);
        }
        let count = word.strip_prefix(b"rot:")?;
        text::read_word(count).ok().map(Call::Rotate)
    }

    fn read(line: Line, i: usize) -> Result<Call, Trouble> {
        line.word(i).and_then(Call::named).ok_or(Trouble {
            word: i,
            expected: Expected::ListCall,
        })
    }
}

#[derive(Clone, Copy)]
struct Field {
    width: u64,
    start: i64,
    end: i64,
}

// The codes of fxrotate-bit-field and fxreverse-bit-field.
const ROTATE: u64 = 40;

const REVERSE: u64 = 41;

impl Field {
    // A call on the field of a number. A reversal takes no count.
    fn request(self, x: i64, call: Call) -> Request {
        let Field { start, end, .. } = self;
        match call {
            Call::Rotate(count) => Request {
                code: ROTATE,
                args: [x, start, end, count],
                count: 4,
            },
            Call::Reverse => Request {
                code: REVERSE,
                args: [x, start, end, 0],
                count: 3,
            },
        }
    }

    // The result of a call that is known to be done.
    fn result(self, x: i64, call: Call) -> i64 {
        match self.request(x, call).call(self.width) {
            Ok(results) => results.first,
            Err(_) => 0,
        }
    }

    // How many positions the field has, whose start and end are not negative.
    fn size(self) -> u64 {
        self.end
            .unsigned_abs()
            .saturating_sub(self.start.unsigned_abs())
    }
}

impl fmt::Display for Field {
    fn fmt<W: fmt::Write>(&self, f: &mut fmt::Formatter<W>) -> fmt::Result {
        write!(f, "{} {}", self.start, self.end)
    }
}

// What the calls have come to: the number, the net count, whether an odd number of reversals was done, and whether a call was refused.
#[derive(Clone, Copy)]
struct State {
    number: i64,
    net: u64,
    odd: bool,
    status: Status,
}

impl State {
    // One call that is done or refused; the line says which.
    fn step(self, field: Field, call: Call, out: &mut Output) -> State {
        let width = field.width;
        let request = field.request(self.number, call);
        match request.call(width) {
            Ok(results) => {
                out.print(format_args!("{}\n", Both(results.first)));
                self.after(field, call, results.first)
            }
            Err(refused) => {
                out.print(RefusedCall {
                    width,
                    request,
                    refused,
                });
                State {
                    status: Status::Refused,
                    ..self
                }
            }
        }
    }

    // After a call that is done, with its result.
    fn after(self, field: Field, call: Call, number: i64) -> State {
        match call {
            Call::Rotate(count) => State {
                number,
                net: after_rotate(field.size(), self.net, count.unsigned_abs()),
                ..self
            },
            Call::Reverse => State {
                number,
                net: after_reverse(field.size(), self.net),
                odd: !self.odd,
                ..self
            },
        }
    }
}

// A number, or the call that reverses its field: `(fxreverse-bit-field 4660 4 12)`.
#[derive(Clone, Copy)]
struct Turned {
    field: Field,
    x: i64,
    odd: bool,
}

impl Turned {
    fn value(self) -> i64 {
        if self.odd {
            self.field.result(self.x, Call::Reverse)
        } else {
            self.x
        }
    }
}

impl fmt::Display for Turned {
    fn fmt<W: fmt::Write>(&self, f: &mut fmt::Formatter<W>) -> fmt::Result {
        if self.odd {
            write!(f, "(fxreverse-bit-field {} {})", self.x, self.field)
        } else {
            write!(f, "{}", self.x)
        }
    }
}

// The net count, and the one rotation that the list equals, of a number or of its reversal, with its result.
fn print_end(field: Field, x: i64, state: State, out: &mut Output) {
    if field.size() == 0 {
        out.put(b"the field is empty: there is no net count\n");
        return;
    }
    let State { net, odd, .. } = state;
    let reversed = if odd {
        ", after a reversal, since an odd number of them was done"
    } else {
        ""
    };
    out.print(format_args!("net count: {net}{reversed}\n"));
    let turned = Turned { field, x, odd };
    let result = field.result(turned.value(), Call::Rotate((net % 64) as i64));
    out.print(format_args!(
        "one rotation: (fxrotate-bit-field {turned} {field} {net}) is {}\n",
        Both(result)
    ));
}

// The calls, from a number that the field can be taken of.
fn reply_calls(line: Line, field: Field, x: i64, out: &mut Output) -> Result<Status, Trouble> {
    let mut state = State {
        number: x,
        net: 0,
        odd: false,
        status: Status::Done,
    };
    for i in 6..=line.count() {
        let call = Call::read(line, i)?;
        let word = Shown::word(line.word(i).unwrap_or(b""));
        out.print(format_args!("{word}: "));
        state = state.step(field, call, out);
    }
    print_end(field, x, state, out);
    Ok(state.status)
}

// The calls are done where the reversal of the field is.
pub fn reply_list(line: Line, out: &mut Output) -> Result<Status, Trouble> {
    let width = line.width(2)?;
    let [start, end, x, _] = line.numbers(2, 5)?;
    for i in 6..=line.count() {
        Call::read(line, i)?;
    }
    let field = Field { width, start, end };
    let request = field.request(x, Call::Reverse);
    if let Err(refused) = request.call(width) {
        out.print(RefusedCall {
            width,
            request,
            refused,
        });
        return Ok(Status::Refused);
    }
    reply_calls(line, field, x, out)
}
