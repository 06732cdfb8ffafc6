// One byte, folded into a record that is open: nothing is checked, and no code is looked up.
ghost use Rattle.std.specs.Prelude.{◌≡◌, true, ◌-◌, ◌≤◌, pos, nat_abs};
ghost use Rattle.bits.specs.Testbit.{fits};
ghost use Rattle.bits.specs.Field.{rotate_bit_field};
ghost use Rattle.bits.specs.Logical.{bitwise_xor};
ghost use Rattle.fold.specs.Fold.{with_accumulator, fold_byte};

use super::record::Open;
use words::logical::xor;
use words::rotation::rotate_bit_field;

impl Open {
    // The accumulator rotated in its field by a count, and then xored with a fixnum.
    pub fn rotate_and_xor(self, count: u64, y: i64) -> Open
        requires inside { count ≤ nat_abs self.fold.end - nat_abs self.fold.start }
        requires fixnum { fits self.fold.width y ≡ true }
        ensures { result.fold ≡ with_accumulator self.fold (bitwise_xor (rotate_bit_field self.fold.accumulator (nat_abs self.fold.start) (nat_abs self.fold.end) (pos count)) y) }
    {
        let rotated = rotate_bit_field(self.fold.accumulator, self.start(), self.end(), count);
        self.with_accumulator(xor(rotated, y))
    }

    // Code 40 on the accumulator, and then code 28 on that and the byte.
    pub fn fold_byte(self, byte: u8) -> Open
        ensures { result.fold ≡ fold_byte self.fold byte }
    {
        self.rotate_and_xor(self.count(), i64::from(byte))
    }
}
