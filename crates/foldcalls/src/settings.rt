// The settings of a fold, as a line gives them.
ghost use Rattle.std.specs.Prelude.{◌≡◌};
ghost use Rattle.fold.specs.Fold.{settings};
ghost use Rattle.fold.specs.Calls.{opening, opening_of};

use fold::{Fold, Refused};
use fxtable::width::LARGEST_WIDTH;
use line::Line;
use line::trouble::{Expected, Trouble};

// fxrotate-bit-field, which opening is refused as, at each width.
pub const ROTATE: u64 = 40;

// No width asks for all of them.
#[derive(Clone, Copy)]
pub struct Settings {
    pub width: Option<u64>,
    pub start: i64,
    pub end: i64,
    pub count: i64,
    pub accumulator: i64,
}

impl Settings {
    // The settings of `fold WIDTH START END COUNT ..`, or of `widths fold START END COUNT ..`, and how many words stand before the files.
    pub fn read(line: Line) -> Result<(Settings, usize), Trouble> {
        let width = if line.is_word(1, b"widths") {
            None
        } else {
            Some(line.width(2)?)
        };
        let [start, end, count, _] = line.numbers(2, 5)?;
        // The word after the count is the accumulator where it is a number, be it too large, and else the first file.
        let (accumulator, few) = match line.number(6) {
            Ok(accumulator) => (accumulator, 6),
            Err(trouble) if trouble.expected == Expected::NumberOfOneWord => return Err(trouble),
            Err(_) => (0, 5),
        };
        let settings = Settings {
            width,
            start,
            end,
            count,
            accumulator,
        };
        Ok((settings, few))
    }

    pub fn open_at(self, width: u64) -> Result<Fold, Refused>
        ensures { opening_of result ≡ opening (settings width self.start self.end self.count self.accumulator) }
    {
        fold::open(width, self.start, self.end, self.count, self.accumulator)
    }

    // Where all widths are asked for, the largest opens if any does.
    pub fn open(self) -> Result<Fold, Refused> {
        self.open_at(self.width.unwrap_or(LARGEST_WIDTH))
    }

    // What stands at a place of an opening.
    pub fn at(self, place: u64) -> i64 {
        match place {
            2 => self.start,
            3 => self.end,
            4 => self.count,
            _ => self.accumulator,
        }
    }
}
