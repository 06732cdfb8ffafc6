// The flonums that words are.
use fltext::{FlonumError, read_flonum};
use line::Line;
use line::trouble::{Expected, Trouble};

pub fn flonum(line: Line, i: usize) -> Result<f64, Trouble> {
    let word = line.word(i).unwrap_or(b"");
    read_flonum(word).map_err(|error| Trouble {
        word: i,
        expected: match error {
            FlonumError::Malformed => Expected::Flonum,
            FlonumError::TooLong => Expected::FlonumOfFewDigits,
        },
    })
}

// The words past the first few. The first four are kept, and where there are fewer the others are 0.
pub fn flonums(line: Line, few: usize) -> Result<[f64; 4], Trouble> {
    let mut values = [0.0; 4];
    for i in few..line.count() {
        let value = flonum(line, i + 1)?;
        if let Some(kept) = values.get_mut(i - few) {
            *kept = value;
        }
    }
    Ok(values)
}

// Nothing more stands on the line.
pub fn ends_before(line: Line, i: usize) -> Result<(), Trouble> {
    match line.word(i) {
        Some(_) => Err(Trouble {
            word: i,
            expected: Expected::End,
        }),
        None => Ok(()),
    }
}
