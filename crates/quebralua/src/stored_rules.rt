// Stored rules under plain C names.
ghost use Rattle.std.specs.Prelude.{◌≡◌};
ghost use Rattle.rules.specs.Answers.{default_width, lent_answer, read_answer};

use rules::{ReadAnswer, RuleAnswer};

// Reads a rule: the width that it runs at
#[unsafe(no_mangle)]
pub extern "C" fn ql_rule_read(rule: &[u8]) -> ReadAnswer
    ensures { result ≡ read_answer default_width rule.now }
{
    rulereader::read(rule)
}

// Evaluates a rule for sixteen inputs
#[unsafe(no_mangle)]
pub extern "C" fn ql_rule_evaluate(rule: &[u8], inputs: &[i64]) -> RuleAnswer
    ensures { result ≡ lent_answer default_width rule.now inputs.now }
{
    ruleevaluator::evaluate_lent(rule, inputs)
}
