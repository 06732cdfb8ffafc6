// The loop of every writer.
ghost use Rattle.std.specs.Prelude.{◌≡◌, ℕ, ◌<◌, length};
ghost use Rattle.outcomes.specs.Puts.{Puts};

// Limbs that are each what a function gives for its index.
pub fn put_each<F: Fn(usize) -> u32>(limb_at: F, part: &mut [u32])
    requires { (j : ℕ) → j < length part.old → F.pre limb_at j }
    ensures { (f : ℕ → ℕ) → ((j v : ℕ) → j < length part.old → F.post limb_at j v → v ≡ f j) → Puts 0 f part.old part.new 0 (length part.old) }
{
    for (j, limb) in part.iter_mut().enumerate() {
        *limb = limb_at(j);
    }
}
