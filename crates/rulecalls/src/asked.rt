// What the words of `rule` ask for.
use line::Line;
use line::trouble::{Expected, Trouble};

// The words before the inputs.
pub const BEFORE: usize = 3;

#[derive(Clone, Copy, Debug, PartialEq, Eq)]
pub enum Task {
    Read,
    Run,
    Widths,
}

impl Task {
    fn named(word: &[u8]) -> Option<Task> {
        match word {
            b"read" => Some(Task::Read),
            b"run" => Some(Task::Run),
            b"widths" => Some(Task::Widths),
            _ => None,
        }
    }
}

// How many inputs are given, and the inputs: those that are not given are 0.
#[derive(Clone, Copy)]
pub struct Asked {
    pub task: Task,
    pub given: usize,
    pub inputs: [i64; 16],
}

impl Asked {
    // The words of `rule read RULE`, `rule run RULE INPUT..` or `rule widths RULE INPUT..`. The rule itself is not read yet.
    pub fn read(line: Line) -> Result<Asked, Trouble> {
        let task = line.word(2).and_then(Task::named).ok_or(Trouble {
            word: 2,
            expected: Expected::RuleCommand,
        })?;
        let mut inputs = [0; 16];
        let most = if task == Task::Read { 0 } else { inputs.len() };
        for (i, word) in (BEFORE + 1..=line.count()).enumerate() {
            if most <= i {
                return Err(Trouble {
                    word,
                    expected: Expected::End,
                });
            }
            inputs[i] = line.number(word)?;
        }
        Ok(Asked {
            task,
            given: line.count_past(BEFORE),
            inputs,
        })
    }
}
