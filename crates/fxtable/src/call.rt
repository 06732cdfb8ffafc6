// A call that no stage before overflow refuses: its arguments are the first `count` elements of `args`.
ghost use Rattle.std.specs.Prelude.{◌≡◌};
ghost use Rattle.fxtable.specs.Inner.{Accepted};

#[derive(Clone, Copy)]
pub struct Call {
    pub width: u64,
    pub code: u64,
    pub args: [i64; 4],
    pub count: u64,
    ghost accepted: { Accepted width code args count },
}

impl Call {
    // The arguments, one by one: a loop over an array of their own leaves the rest of the call in registers.
    #[inline(always)]
    pub fn slots(self) -> [i64; 4]
        ensures { result ≡ self.args }
    {
        let [a, b, c, d] = self.args;
        [a, b, c, d]
    }
}
