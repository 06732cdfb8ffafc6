// `join`: a piece that was folded by itself, as if its bytes came now.
use super::answer::{Behind, reply_identifier, reply_unopened};
use super::explain::RefusedPiece;
use super::settings::Settings;
use line::Line;
use line::trouble::{Expected, Status, Trouble};
use output::buffer::Output;

pub fn reply_join(line: Line, out: &mut Output) -> Result<Status, Trouble> {
    let width = line.width(2)?;
    let [start, end, count, accumulator] = line.numbers(2, 6)?;
    let piece = line.number(7)?;
    let length = line.length(8)?;
    if 8 < line.count() {
        return Err(Trouble {
            word: 9,
            expected: Expected::End,
        });
    }
    let settings = Settings {
        width: Some(width),
        start,
        end,
        count,
        accumulator,
    };
    let opened = match settings.open() {
        Ok(opened) => opened,
        Err(refused) => return Ok(reply_unopened(settings, refused, out)),
    };
    match fold::join(opened, piece, length) {
        Ok(joined) => Ok(reply_identifier(settings, joined, Behind(None), out)),
        Err(refusal) => {
            out.print(RefusedPiece {
                width,
                refusal,
                piece,
            });
            Ok(Status::Refused)
        }
    }
}
