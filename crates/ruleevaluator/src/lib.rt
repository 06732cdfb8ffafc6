// The evaluation of stored rules. A rule is read whole, and then its bytes are gone through again: there is no heap, and the calls are nested
// no deeper than the rule's forms.
#![tactic(auto)]

ghost use Rattle.std.specs.Prelude.{◌≡◌, true, false, drop, length, take};
ghost use Rattle.fxtable.specs.Calls.{answer_of};
ghost use Rattle.fxtable.specs.Domains.{is_width};
ghost use Rattle.fxtable.specs.Inner.{Checked};
ghost use Rattle.fxtable.specs.Operations.{has_two};
ghost use Rattle.fxtable.specs.Table.{row_of};
ghost use Rattle.rules.specs.Answers.{default_width, lent_answer, rule_answer};
ghost use Rattle.rules.specs.Evaluate.{result_of};
ghost use Rattle.rules.specs.Parse.{read_form};
ghost use Rattle.rulevalues.specs.Evaluated.{told, Evaluates, Has};

use fixnum::accepted::call_checked;
use outcomes::refusal::Refusal;
use rulereader::{DEEPEST, read_rule, runs_at};
use rules::RuleAnswer;
use rulevalues::{
    Refused, bad_rule, evaluate_constant, evaluate_leaf, evaluated_call, rule_answer,
};

// A call that ends before p, with the first n values for its arguments.
fn evaluate_call(
    width: u64,
    code: u64,
    values: [i64; 4],
    n: u64,
    p: usize,
) -> Result<(i64, usize), Refused>
    requires checked { Checked width code values n }
    requires code_value { has_two (row_of code).results ≡ false }
    ensures { result ≡ told p (result_of (answer_of width code (take n values))) }
{
    evaluated_call(call_checked(width, code, values, n), p)
}

// The form from `at` on, which may be nested `depth` deep and has been read before: its numbers, but for constants, are one byte each.
fn evaluate_form(
    s: &[u8],
    at: usize,
    depth: u64,
    width: u64,
    inputs: &[i64],
) -> Result<(i64, usize), Refused>
    requires has { Has (read_form depth (drop at s.now)) }
    requires width_value { (is_width width ≡ true) × (length inputs.now ≡ 16) }
    ensures { Evaluates width inputs.now s.now (read_form depth (drop at s.now)) result }
{
    let tag = s[at];
    if tag == 0 {
        return evaluate_constant(s, at + 1, width);
    }
    let number = s[at + 1];
    if tag == 1 {
        return evaluate_leaf(width, inputs[usize::from(number)], at + 2);
    }
    let count = s[at + 2];
    let mut values = [0; 4];
    let mut p = at + 3;
    for i in 0..usize::from(count) {
        let (value, end) = evaluate_form(s, p, depth - 1, width, inputs)?;
        values[i] = value;
        p = end;
    }
    evaluate_call(width, u64::from(number), values, u64::from(count), p)
}

// A rule whose inputs are sixteen. Refusal 10, with its offset, for bytes that are no rule; else the first refusal that evaluation
// meets, with its place: 4 for a constant or an input that is no fixnum, 5 and 6 for a call.
fn evaluate_rule(rule: &[u8], inputs: &[i64]) -> RuleAnswer
    requires { length inputs.now ≡ 16 }
    ensures { result ≡ rule_answer default_width rule.now inputs.now }
{
    match read_rule(rule) {
        Ok(stored) => {
            let width = runs_at(stored.width);
            rule_answer(evaluate_form(rule, stored.form, DEEPEST, width, inputs))
        }
        Err(offence) => bad_rule(Refusal::BadRule.into(), offence.offset as u64),
    }
}

// Evaluates a rule for sixteen inputs.
pub fn evaluate(rule: &[u8], inputs: [i64; 16]) -> RuleAnswer
    ensures { result ≡ rule_answer default_width rule.now inputs }
{
    evaluate_rule(rule, &inputs[..])
}

// Evaluates a rule for the inputs that a caller lends. Refusal 3, before all else, unless they are sixteen.
pub fn evaluate_lent(rule: &[u8], inputs: &[i64]) -> RuleAnswer
    ensures { result ≡ lent_answer default_width rule.now inputs.now }
{
    if inputs.len() == 16 {
        evaluate_rule(rule, inputs)
    } else {
        bad_rule(Refusal::Count.into(), 0)
    }
}
