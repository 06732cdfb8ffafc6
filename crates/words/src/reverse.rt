// The reversal of a word's 64 bits: neighbours, then pairs, fours, bytes, pairs of bytes and halves change places.
ghost use Rattle.std.specs.Prelude.{◌≡◌, ℕ, ◌*◌, ◌-◌, ◌/◌, ◌%◌, ◌<◌, ◌^◌, pos};
ghost use Rattle.std.specs.Int.Bits.{bit_and, bit_or};
ghost use Rattle.bits.specs.Testbit.{testbit};

// The bits at the ones of the mask, and those k above them, change places.
fn swap(w: u64, k: u64, mask: u64) -> u64
    requires { k < 64 }
    ensures { result ≡ bit_or (bit_and (w / 2 ^ k) mask) (bit_and w mask * 2 ^ k % 2 ^ 64) }
{
    (w >> k & mask) | ((w & mask) << k)
}

pub fn reverse_word(w: u64) -> u64
    ensures { (t : ℕ) → t < 64 → testbit (pos result) t ≡ testbit (pos w) (63 - t) }
{
    let a = swap(w, 1, 0x5555_5555_5555_5555);
    let b = swap(a, 2, 0x3333_3333_3333_3333);
    let c = swap(b, 4, 0x0F0F_0F0F_0F0F_0F0F);
    let d = swap(c, 8, 0x00FF_00FF_00FF_00FF);
    let e = swap(d, 16, 0x0000_FFFF_0000_FFFF);
    swap(e, 32, 0x0000_0000_FFFF_FFFF)
}
