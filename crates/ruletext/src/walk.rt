// A walk through the bytes of a form: each call is opened, its arguments follow, and it is closed.
ghost use Rattle.std.specs.Prelude.{◌≡◌, ◌≤◌};
ghost use Rattle.std.specs.Iterator.{at_most};

use rulereader::heads::{Head, read_head};
use rulereader::{DEEPEST, LONGEST};

// How many calls can be open.
const MOST_OPEN: usize = DEEPEST as usize;

// A walk through a rule has at most two steps for each byte, and one to end.
const MOST_STEPS: usize = 2 * LONGEST + 1;

// What a step comes to.
#[derive(Clone, Copy, Debug, PartialEq, Eq)]
pub enum Event {
    Constant(i64),
    Input(u64),
    Opens { code: u64 },
    Closes,
}

// A call that is open: its code, its argument count and how many arguments are still to come.
#[derive(Clone, Copy, Debug, Default)]
pub struct Call {
    pub code: u64,
    pub count: u64,
    pub left: u64,
}

// Where the next form begins, and the calls that are open, the innermost last. At the end of the form, or where it offends, the walk stays.
#[derive(Clone, Copy)]
pub struct Walk<'a> {
    rule: &'a [u8],
    pub at: usize,
    pub ended: bool,
    calls: [Call; MOST_OPEN],
    depth: usize,
    steps_left: usize,
    ghost room: { depth ≤ 32 },
}

impl<'a> Walk<'a> {
    // Before the form that begins at an offset.
    pub fn new(rule: &'a [u8], from: usize) -> Walk<'a> {
        Walk {
            rule,
            at: from,
            ended: false,
            calls: [Call::default(); MOST_OPEN],
            depth: 0,
            steps_left: MOST_STEPS,
        }
    }

    // The innermost open call.
    pub fn innermost(&self) -> Option<Call> {
        self.calls[..self.depth].last().copied()
    }

    // Whether no further call can be opened.
    pub fn is_deepest(&self) -> bool {
        self.depth == MOST_OPEN
    }

    // After a whole form: an argument of the innermost open call, or the last.
    fn pass(&mut self)
        ensures { self.new.steps_left ≡ self.old.steps_left }
    {
        match self.depth.checked_sub(1) {
            Some(top) => self.calls[top].left = self.calls[top].left.saturating_sub(1),
            None => self.ended = true,
        }
    }

    fn close(&mut self) -> Event
        ensures { self.new.steps_left ≡ self.old.steps_left }
    {
        self.depth = self.depth.saturating_sub(1);
        self.pass();
        Event::Closes
    }

    fn step(&mut self) -> Option<Event>
        ensures { self.new.steps_left ≡ self.old.steps_left }
    {
        if self.innermost().is_some_and(|call| call.left == 0) {
            return Some(self.close());
        }
        if self.ended || self.rule.len() < self.at || self.depth == MOST_OPEN {
            return None;
        }
        let (head, end) = read_head(self.rule, self.at).ok()?;
        self.at = end;
        match head {
            Head::Constant(value) => {
                self.pass();
                Some(Event::Constant(value))
            }
            Head::Input(index) => {
                self.pass();
                Some(Event::Input(index))
            }
            Head::Call { code, count } => {
                let left = count;
                self.calls[self.depth] = Call { code, count, left };
                self.depth += 1;
                Some(Event::Opens { code })
            }
        }
    }
}

impl<'a> Iterator for Walk<'a> {
    type Item = Event;

    ghost remaining = { λ w. at_most w.steps_left };

    fn next(&mut self) -> Option<Event> {
        if self.steps_left == 0 {
            return None;
        }
        let event = self.step()?;
        self.steps_left -= 1;
        Some(event)
    }
}

// The walk at the end of the form that begins at an offset, or where it offends.
pub fn walk_form<'a>(rule: &'a [u8], from: usize) -> Walk<'a> {
    let mut walk = Walk::new(rule, from);
    for _ in walk.by_ref() {}
    walk
}

// Where the form that begins at an offset ends, or offends.
pub fn form_end(rule: &[u8], from: usize) -> usize {
    walk_form(rule, from).at
}
