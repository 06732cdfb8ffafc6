// A piece of the bytes that was folded by itself, from 0: its fold is xored to the accumulator, which is rotated as if those bytes had come.
ghost use Rattle.std.specs.Prelude.{◌≡◌, IfOk, IfErr};
ghost use Rattle.outcomes.specs.Refusal.{code_of};
ghost use Rattle.fold.specs.Calls.{after, net_count, joining};

use super::record::Open;
use fxtable::width::is_fixnum;
use outcomes::refusal::Refusal;
use words::rotation::reduced;

impl Open {
    // The count of one rotation that equals `length` of the record's.
    fn net_count(self, length: u64) -> u64
        ensures { result ≡ net_count self.fold length }
    {
        let size = self.size();
        reduced(self.count() * reduced(length, size), size)
    }

    // Refused where the piece is no fixnum.
    pub fn join(self, piece: i64, length: u64) -> Result<Open, Refusal>
        ensures ok { IfOk result (λ o. after 0 o.fold ≡ joining self.fold piece length) }
        ensures err { IfErr result (λ e. after (code_of e) self.fold ≡ joining self.fold piece length) }
    {
        if !is_fixnum(self.fold.width, piece) {
            return Err(Refusal::NotFixnum);
        }
        Ok(self.rotate_and_xor(self.net_count(length), piece))
    }
}
