// The value of a form, as the evaluator of stored rules answers it: leaves, a call's answer, and a rule's. The evaluator itself is in
// `quebralua`, where it calls `ql_fixnum`.
#![tactic(auto)]

ghost use Rattle.std.specs.Prelude.{◌≡◌, true, ◌≤◌, drop, length};
ghost use Rattle.bits.specs.Testbit.{fits};
ghost use Rattle.fxtable.specs.Domains.{is_width};
ghost use Rattle.rules.specs.Answers.{bad_rule};
ghost use Rattle.rules.specs.Evaluate.{fixnum, result_of};
ghost use Rattle.rules.specs.Parse.{read_constant};
ghost use Rattle.rulevalues.specs.Evaluated.{told, answered, refused_for_none, Has, EvaluatesConstant};

use fxtable::answer::Answer;
use outcomes::refusal::Refusal;
use rulereader::constants::read_constant;
use rules::RuleAnswer;
use words::sign::is_fixnum;

// The refusal that was met first, and its place. It is a number, as in the answers of calls, from which it comes and to which it goes.
#[derive(Clone, Copy, Debug, PartialEq, Eq)]
pub struct Refused {
    pub refusal: u64,
    pub place: u64,
}

// For no argument.
impl From<Refusal> for Refused {
    ghost from_gives = { λ r e. e ≡ refused_for_none r };

    fn from(refusal: Refusal) -> Refused {
        Refused {
            refusal: u64::from(refusal),
            place: 0,
        }
    }
}

// The value of a constant or an input, which ends before p.
pub fn evaluate_leaf(width: u64, z: i64, p: usize) -> Result<(i64, usize), Refused>
    requires { is_width width ≡ true }
    ensures { result ≡ told p (fixnum width z) }
{
    if is_fixnum(width, z) {
        Ok((z, p))
    } else {
        Err(Refused::from(Refusal::NotFixnum))
    }
}

// The value of the constant from `at` on, which has been read before, and where it ends. One of a group that is no negative number is a
// fixnum at every width.
pub fn evaluate_constant(s: &[u8], at: usize, width: u64) -> Result<(i64, usize), Refused>
    requires { (is_width width ≡ true) × Has (read_constant (drop at s.now)) }
    ensures { EvaluatesConstant width s.now (read_constant (drop at s.now)) result }
{
    let b = s[at];
    if b < 64 {
        return Ok((i64::from(b), at + 1));
    }
    let (value, end) = read_constant(s, at).unwrap();
    evaluate_leaf(width, value, end)
}

// The value of a call that ends before p, from its answer.
pub fn evaluated_call(answer: Answer, p: usize) -> Result<(i64, usize), Refused>
    requires { fits 64 answer.first ≡ true }
    ensures { result ≡ told p (result_of answer) }
{
    if answer.refusal == 0 {
        Ok((answer.first, p))
    } else {
        Err(Refused {
            refusal: answer.refusal,
            place: answer.place,
        })
    }
}

// The answer for bytes that are no rule, or inputs that are not sixteen.
#[tactic(auto, unfolding(rules::specs::Answers::bad_rule))]
pub fn bad_rule(refusal: u64, offset: u64) -> RuleAnswer
    ensures { result ≡ bad_rule refusal offset }
{
    RuleAnswer {
        refusal,
        place: 0,
        offset,
        value: 0,
    }
}

// The answer of a rule, from its form's.
#[tactic(auto, unfolding(crate::specs::Evaluated::answered, rules::specs::Answers::value_of))]
pub fn rule_answer(evaluated: Result<(i64, usize), Refused>) -> RuleAnswer
    ensures { result ≡ answered evaluated }
{
    match evaluated {
        Ok((value, _)) => RuleAnswer {
            refusal: 0,
            place: 0,
            offset: 0,
            value,
        },
        Err(Refused { refusal, place }) => RuleAnswer {
            refusal,
            place,
            offset: 0,
            value: 0,
        },
    }
}
