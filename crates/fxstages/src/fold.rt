// A fold from the left of the arguments up to the count.
ghost use Rattle.std.specs.Prelude.{◌≡◌, ℤ, ◌≤◌};
ghost use Rattle.fxtable.specs.Operations.{fold_from};
ghost use Rattle.fxtable.specs.Calls.{counted};
ghost use Rattle.fxstages.specs.Inner.{Computes};

// The fold of all arguments, from a first value on: two, the most usual count, without a loop.
pub fn fold_all<F: Fn(i64, i64) -> i64>(f: F, first: i64, args: [i64; 4], count: u64) -> i64
    requires few { count ≤ 4 }
    requires callable { F.IsAlwaysCallable f }
    ensures { (step : ℤ → ℤ → ℤ) → Computes (F.post f) step → result ≡ fold_from step first (counted args count) }
{
    if count == 2 {
        return f(f(first, args[0]), args[1]);
    }
    let mut value = first;
    for x in &args[..count as usize] {
        value = f(value, *x);
    }
    value
}
