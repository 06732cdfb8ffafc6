// Whether each argument stands in a relation to the next.
ghost use Rattle.std.specs.Prelude.{◌≡◌, ℤ, Bool, ◌≤◌};
ghost use Rattle.fxtable.specs.Calls.{counted};
ghost use Rattle.fxtable.specs.Operations as operations;
ghost use Rattle.fxstages.specs.Inner.{Computes};

// No way out of the loop depends on the arguments: which relation holds of two is hard to predict.
pub fn chain<F: Fn(i64, i64) -> bool>(holds: F, args: [i64; 4], count: u64) -> bool
    requires few { count ≤ 4 }
    requires callable { F.IsAlwaysCallable holds }
    ensures { (relation : ℤ → ℤ → Bool) → Computes (F.post holds) relation → result ≡ operations.chain relation (counted args count) }
{
    let mut all = true;
    for i in 1..count as usize {
        all &= holds(args[i - 1], args[i]);
    }
    all
}
