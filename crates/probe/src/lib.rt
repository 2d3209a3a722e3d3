// The reader and one institute's choice as functions for C and Rust, so that each can be compared with the second program by
// itself; `probe_c` has them in one archive. Not part of the unit.
#![tactic(auto)]

ghost use Rattle.std.specs.Prelude.{◌≡◌};
ghost use Rattle.questions.specs.Refusal.{verdict};
ghost use Rattle.probe.specs.Probe.{verdict_in, head_with, body_fits, places_fit, Chosen};
ghost use Rattle.questions.specs.Read.{as_head};

use choice::choose;
use questions::form::Form;
use questions::head::{Head, own_steps};
use questions::institute::Steps;
use reader::reader::read_round;
use reader::records::institute_allowed;
use reader::rules::rules_of;
use round::rule::Rule;

// The number of the first of the questions about a file that is answered no, and its byte; 0 and 0 where each is answered yes.
pub fn tazbilk_verdict(file: &[u8], res: &mut [u64; 2])
    ensures { res.new ≡ verdict_in res.old (verdict file.now) }
{
    let mut starts = [0; 2512];
    match read_round(file, &mut starts) {
        Ok(_) => {
            res[0] = 0;
            res[1] = 0;
        }
        Err(refusal) => {
            res[0] = refusal.question.number() as u64;
            res[1] = refusal.offset as u64;
        }
    }
}

// A head with so many types and a policy, numbers as C gives them.
fn head_with(types: usize, policy: usize) -> Head
    ensures { as_head result ≡ head_with types policy }
{
    Head {
        form: Form::Narrow,
        candidates: 1,
        institutes: 1,
        types,
        policy,
    }
}

// Whether a body has steps that a choice can go by; types and policy are numbers as C gives them.
fn body_fits(body: &[u8], types: usize, policy: usize) -> bool
    ensures { result ≡ body_fits (head_with types policy) body.now }
{
    let head = head_with(types, policy);
    types <= 8
        && policy <= 2
        && institute_allowed(head, body.len())
        && (!own_steps(head) || Steps { body, head }.ask_list().is_ok())
}

// Whether there are at most 512 places, and as many offers, steps and types used.
fn places_fit(places: usize, offers: usize, steps: usize, used: usize) -> bool
    ensures { result ≡ places_fit places offers steps used }
{
    places <= 512 && offers == places && steps == places && used == places
}

// The step of each place by an institute's choice, and the type used there, from the marks and the set of offers; where body and lengths do not
// fit, nothing happens. Numbers and tables side by side, as C gives them.
pub fn tazbilk_choose(
    body: &[u8],
    types: usize,
    policy: usize,
    marks: &[u8],
    offers: &[u8],
    steps: &mut [u8],
    used: &mut [u8],
)
    ensures { Chosen body.now types policy marks.now offers.now
        steps.old used.old steps.new used.new }
{
    if !body_fits(body, types, policy) {
        return;
    }
    if !places_fit(marks.len(), offers.len(), steps.len(), used.len()) {
        return;
    }
    let head = head_with(types, policy);
    let mut table = [Rule::NONE; 12];
    let count = rules_of(&Steps { body, head }, &mut table);
    choose(&table[..count], types, marks, offers, true, steps, used);
}
