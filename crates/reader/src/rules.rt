// The rules of an institute's steps, by which its choice goes.
ghost use Rattle.std.specs.Prelude.{◌≡◌, ◌≤◌, ◌<◌, length, take};
ghost use Rattle.questions.specs.Steps.{step_count};
ghost use Rattle.questions.specs.Read.{as_head, LawfulSteps};
ghost use Rattle.reader.specs.RulesRead.{RuleRead, RulesRead};

use questions::institute::Steps;
use round::entry::Category;
use round::rule::Rule;

// Reads the rule of step k, from 0, into its place in a table. Not returned, since a rule that is returned is copied.
fn read_rule(steps: &Steps<'_>, k: usize, rule: &mut Rule)
    requires { k < step_count (as_head steps.now.head) steps.now.body.now }
    ensures { RuleRead (as_head steps.now.head) steps.now.body.now k rule.new }
{
    rule.category = Category::from(steps.code(k) as u8);
    rule.receiver = steps.receiver(k);
    rule.positions = steps.positions(k);
    for (t, own) in rule.reserved[..steps.head.types].iter_mut().enumerate() {
        *own = steps.reserved(k, t);
    }
}

// Puts the rules of the steps of an institute's body at the front of a table, and returns how many there are; under policy 1 that of step 6 stands behind them.
// Not the rules themselves, since of a table that is lent out in parts a contract can't say what it holds afterwards.
pub fn rules_of(steps: &Steps<'_>, table: &mut [Rule]) -> usize
    requires lawful_steps { LawfulSteps (as_head steps.now.head) steps.now.body.now }
    requires in_bounds { 12 ≤ length table.old }
    ensures count { result ≤ 12 }
    ensures rules { RulesRead (as_head steps.now.head) steps.now.body.now (take result table.new) }
{
    let count = steps.count();
    // Copied, since the compiler reads what is behind a reference anew after each write.
    let own = *steps;
    for (k, rule) in table[..count].iter_mut().enumerate() {
        read_rule(&own, k, rule);
    }
    if steps.head.policy == 1 {
        table[5] = Rule::NONE;
        6
    } else {
        count
    }
}
