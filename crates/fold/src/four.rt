// Four bytes in one turn. In a run of bytes each rotation waits for the one before; here three of four do not wait for the accumulator:
// the bytes are folded from 0 by themselves, and joined, as a piece is.
ghost use Rattle.std.specs.Prelude.{◌≡◌, [], ◌∷◌, ◌≤◌, ◌<◌};
ghost use Rattle.fold.specs.Fold.{fold_bytes};
ghost use Rattle.fold.specs.Inner as inner;

use super::record::Open;

// The count of one rotation that equals two by a count, in a field of some size.
#[tactic(auto, unfolding(crate::specs::Inner::doubled))]
fn doubled(size: u64, count: u64) -> u64
    requires { (count ≤ size) × (size < 64) }
    ensures { result ≡ inner.doubled size count }
{
    let twice = count + count;
    if twice < size { twice } else { twice - size }
}

impl Open {
    // The count of one rotation that equals four of the record's.
    pub fn fourfold(self) -> u64
        ensures { result ≡ inner.fourfold self.fold }
    {
        let size = self.size();
        doubled(size, doubled(size, self.count()))
    }

    pub fn fold_four(self, count: u64, a: u8, b: u8, c: u8, d: u8) -> Open
        requires { count ≡ inner.fourfold self.fold }
        ensures value { result.fold ≡ fold_bytes self.fold (a ∷ b ∷ c ∷ d ∷ []) }
        ensures same_count { inner.fourfold result.fold ≡ inner.fourfold self.fold }
    {
        let piece = self.with_accumulator(0);
        let piece = piece.fold_byte(a);
        let piece = piece.fold_byte(b);
        let piece = piece.fold_byte(c);
        let piece = piece.fold_byte(d);
        self.rotate_and_xor(count, piece.fold.accumulator)
    }
}
