// What a flonum call answers: an enum of three cases with the refusal number, a form that a rule of the project asks for (docs/DECISIONS.md).
ghost use Rattle.std.specs.Prelude.{◌≡◌};
ghost use Rattle.flonum.specs.Calls.{flat, truth};

#[derive(Clone, Copy)]
pub enum Answer {
    Refused(u64),
    Fixnum(i64),
    Flonum(f64),
}

// The same for C, where an enum with data has no shape. The kind is 0 for a refusal, 1 for a fixnum and 2 for a flonum.
#[repr(C)]
#[derive(Clone, Copy)]
pub struct FlatAnswer {
    pub refusal: u64,
    pub kind: u64,
    pub fixnum: i64,
    pub flonum: f64,
}

impl From<Answer> for FlatAnswer {
    ghost from_gives = { λ a f. f ≡ flat a };

    fn from(answer: Answer) -> FlatAnswer {
        let nothing = FlatAnswer {
            refusal: 0,
            kind: 0,
            fixnum: 0,
            flonum: 0.0,
        };
        match answer {
            Answer::Refused(refusal) => FlatAnswer { refusal, ..nothing },
            Answer::Fixnum(fixnum) => FlatAnswer {
                kind: 1,
                fixnum,
                ..nothing
            },
            Answer::Flonum(flonum) => FlatAnswer {
                kind: 2,
                flonum,
                ..nothing
            },
        }
    }
}

// The answer to a question: 1 for yes, 0 for no.
impl From<bool> for Answer {
    ghost from_gives = { λ b a. a ≡ truth b };

    fn from(yes: bool) -> Answer {
        Answer::Fixnum(i64::from(yes))
    }
}
