// `batch`: a call on each line of standard input, and its answer on a line of standard output.
#![tactic(auto)]

ghost use Rattle.std.specs.Prelude.{◌≤◌, length};

use flcalls::reply_fl;
use fxcalls::fx::reply_fx;
use limbcalls::bitwise::reply_bitwise;
use line::Line;
use line::trouble::{Expected, Status, Trouble};
use output::buffer::Output;
use std::io::Read;
use streams::Console;

// Answers are written when there are so many bytes of them, and before standard input is read again.
const MUCH: usize = 32768;

// What a line is answered: always one line.
fn reply_line(line: Line, out: &mut Output) -> Result<Status, Trouble> {
    if line.count() == 0 {
        out.put(b"\n");
        return Ok(Status::Done);
    }
    if line.is_word(1, b"fx") {
        return reply_fx(line, ", ", out);
    }
    if line.is_word(1, b"bitwise") {
        return reply_bitwise(line, out);
    }
    if line.is_word(1, b"fl") {
        return reply_fl(line, ", ", out);
    }
    Err(Trouble {
        word: 1,
        expected: Expected::LineCommand,
    })
}

// The trouble of a word stands among the answers, so that questions and answers can be paired by counting.
fn answer_line(text: &[u8], words: &mut [u8], answers: &mut Output) -> Status {
    let line = Line::split(text, words);
    match reply_line(line, answers) {
        Ok(status) => status,
        Err(trouble) => {
            answers.print(trouble.about(line));
            Status::Trouble
        }
    }
}

// The answers that are not written yet, room for the words of a line, and the worst status so far. `skipping` says that the rest of a line
// that is too long is passed over, and `failed` that an answer could not be written.
#[derive(Drop)]
struct Batch<'a, R, E> {
    console: &'a Console<'a, R, E>,
    answers: Output<'a>,
    words: &'a mut [u8],
    status: Status,
    skipping: bool,
    failed: bool,
}

impl<'a, R: Input + Print, E: Print> Batch<'a, R, E> {
    // Writes the answers so far.
    fn flush(&mut self) {
        if self.console.write_answer(self.answers.text()).is_err() {
            self.status = Status::Trouble;
            self.failed = true;
        }
        self.answers.clear();
    }

    // A line, or the rest of one that was too long.
    fn take_line(&mut self, text: &[u8]) {
        if self.skipping {
            self.skipping = false;
            return;
        }
        if MUCH < self.answers.text().len() {
            self.flush();
        }
        let status = answer_line(text, self.words, &mut self.answers);
        self.status = self.status.max(status);
    }

    // Answers each whole line of what has been read, keeps the rest, and answers how many bytes that are.
    fn take_lines(&mut self, input: &mut [u8], have: usize) -> usize
        requires { have ≤ length input.old }
        ensures { result ≤ length input.new }
    {
        let Some(last) = input[..have].iter().rposition(|byte| *byte == b'\n') else {
            return have;
        };
        for line in input[..last].split(|byte| *byte == b'\n') {
            self.take_line(line);
        }
        input.copy_within(last + 1..have, 0);
        have - (last + 1)
    }

    // A line that fills the whole input is too long. It is answered once, and its rest passed over.
    fn too_long(&mut self) {
        if !self.skipping {
            self.answers.put(b"ql: a line has more than 65535 bytes\n");
        }
        self.status = Status::Trouble;
        self.skipping = true;
    }

    // All whole lines of standard input, and how many bytes of a last one have no end.
    fn take_input(&mut self, input: &mut [u8]) -> usize
        ensures { result ≤ length input.new }
    {
        let mut reader = self.console.rt.reader();
        let mut have = 0;
        for _ in 0..u64::MAX {
            let Ok(n) = reader.read(&mut input[have..]) else {
                self.console.report_input();
                self.status = Status::Trouble;
                break;
            };
            if n == 0 {
                break;
            }
            have = self.take_lines(input, have + n);
            if have == input.len() {
                self.too_long();
                have = 0;
            }
            self.flush();
            if self.failed {
                break;
            }
        }
        have
    }

    // All lines, of which the last may have no end, and the exit status.
    fn run(&mut self, input: &mut [u8]) -> Status {
        let have = self.take_input(input);
        if 0 < have && !self.failed {
            self.take_line(&input[..have]);
            self.flush();
        }
        self.status
    }
}

// The input is read into one lent buffer, and answers are put into another. It is not built into its caller: each command would have its
// buffers on the stack.
#[inline(never)]
pub fn run_batch<R: Input + Print, E: Print>(
    console: &Console<R, E>,
    input: &mut [u8],
    answers: &mut [u8],
) -> Status {
    let mut words = output::large_buffer();
    let mut batch = Batch {
        console,
        answers: Output::new(answers),
        words: &mut words,
        status: Status::Done,
        skipping: false,
        failed: false,
    };
    batch.run(input)
}
