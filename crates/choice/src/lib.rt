// One institute's choice: the steps of a list of rules, one after the other.
#![tactic(auto)]

pub mod account;
pub mod fill;
pub mod step;

ghost use Rattle.std.specs.Prelude.{◌≡◌, true, length, replicate};
ghost use Rattle.round.specs.Rules.{rules_in, RuleTable};
ghost use Rattle.choice.specs.Choice;
ghost use Rattle.choice.specs.Account.{account, types_in};
ghost use Rattle.placing.specs.Offers.{offered_by, Places};
ghost use Rattle.choice.specs.Noted.{nothing_noted, noted_of};

use round::rule::Rule;
use step::{Numbers, step};

// The step at which each place is taken, 0 for none as C has it, by the rules of the steps, the marks and the offers at the places, and with `first`
// also the type used there, 0 where it is not taken for use; with `told` the account of the steps as numbers is put into a table. A sweep asks for no
// account, and lends no table.
// Tables side by side, as they come from C (`tazbilk_choose`). Flags beside the tables of types and numbers, since of an `Option<&mut [u8]>` a contract
// has no `new`.
pub fn choose_into(
    rules: &[Rule],
    types: usize,
    marks: &[u8],
    offers: &[u8],
    first: bool,
    told: bool,
    steps: &mut [u8],
    used: &mut [u8],
    noted: &mut [Numbers],
)
    requires rule_table { RuleTable types rules.now }
    requires places { Places marks.now offers.now steps.old used.old }
    requires noted_value { told ≡ true → noted.old ≡ replicate 12 nothing_noted }
    ensures { (steps.new ≡ Choice.choose marks.now (offered_by offers.now) (rules_in types rules.now))
        × (first ≡ true → used.new ≡ types_in (length marks.now) (account marks.now (offered_by offers.now) (rules_in types rules.now)))
        × (told ≡ true → noted.new ≡ noted_of (account marks.now (offered_by offers.now) (rules_in types rules.now))) }
{
    let n = marks.len();
    steps.fill(0);
    used.fill(0);
    let mut placed = [0; 512];
    let mut handed = [0; 13];
    for (k, rule) in rules.iter().enumerate() {
        let positions = rule.positions + handed[k + 1];
        let number = (k + 1) as u8;
        let numbers = step(
            rule,
            types,
            positions,
            number,
            marks,
            offers,
            first,
            &mut placed[..n],
            steps,
            used,
        );
        handed[rule.receiver] += numbers.vacant;
        if told {
            noted[k] = numbers;
        }
    }
}

// The same, with the account of the steps as numbers returned.
pub fn choose(
    rules: &[Rule],
    types: usize,
    marks: &[u8],
    offers: &[u8],
    first: bool,
    steps: &mut [u8],
    used: &mut [u8],
) -> [Numbers; 12]
    requires rule_table { RuleTable types rules.now }
    requires places { Places marks.now offers.now steps.old used.old }
    ensures { (steps.new ≡ Choice.choose marks.now (offered_by offers.now) (rules_in types rules.now))
        × (first ≡ true → used.new ≡ types_in (length marks.now) (account marks.now (offered_by offers.now) (rules_in types rules.now)))
        × (result ≡ noted_of (account marks.now (offered_by offers.now) (rules_in types rules.now))) }
{
    let mut noted = [Numbers::NONE; 12];
    choose_into(
        rules, types, marks, offers, first, true, steps, used, &mut noted,
    );
    noted
}
