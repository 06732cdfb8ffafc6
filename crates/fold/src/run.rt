// The bytes of a chunk: four in a turn, and then those that are left.
ghost use Rattle.std.specs.Prelude.{◌≡◌};
ghost use Rattle.fold.specs.Fold.{fold_bytes};

use super::record::Open;

impl Open {
    pub fn fold_bytes(self, bytes: &[u8]) -> Open
        ensures { result.fold ≡ fold_bytes self.fold bytes.now }
    {
        let count = self.fourfold();
        let (fours, rest) = bytes.as_chunks::<4>();
        let mut folded = self;
        for &[a, b, c, d] in fours {
            folded = folded.fold_four(count, a, b, c, d);
        }
        for &byte in rest {
            folded = folded.fold_byte(byte);
        }
        folded
    }
}
