// The functions of `probe` for C and Rust, in one archive: each export hands its call on to the function of its name. Not part of the unit.
#![tactic(auto)]

ghost use Rattle.std.specs.Prelude.{◌≡◌};
ghost use Rattle.questions.specs.Refusal.{verdict};
ghost use Rattle.probe.specs.Probe.{verdict_in, Chosen};

// The number of the first of the questions about a file that is answered no, and its byte; 0 and 0 where each is answered yes.
#[unsafe(no_mangle)]
pub extern "C" fn tazbilk_verdict(file: &[u8], res: &mut [u64; 2])
    ensures { res.new ≡ verdict_in res.old (verdict file.now) }
{
    probe::tazbilk_verdict(file, res);
}

// The step of each place by an institute's choice, and the type used there, from the marks and the set of offers; where body and lengths do not
// fit, nothing happens. Numbers and tables side by side, as C gives them.
#[unsafe(no_mangle)]
pub extern "C" fn tazbilk_choose(
    body: &[u8],
    types: usize,
    policy: usize,
    marks: &[u8],
    offers: &[u8],
    steps: &mut [u8],
    used: &mut [u8],
)
    ensures { Chosen body.now types policy marks.now offers.now
        steps.old used.old steps.new used.new }
{
    probe::tazbilk_choose(body, types, policy, marks, offers, steps, used);
}
