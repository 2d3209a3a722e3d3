// The public call: a round file in, the answer out, both lent areas written.
ghost use Rattle.std.specs.Prelude.{◌≡◌, ◌++◌, ◌≤◌, length, drop, replicate};
ghost use Rattle.reader.specs.AtHand.{round_at};
ghost use Rattle.offers.specs.Process.{offers_made};
ghost use Rattle.allotment.specs.Areas.{answer_bytes, answer_size};
ghost use Rattle.allotment.specs.Outcome.{Called, answer_of};
ghost use Rattle.allotment.specs.Promise.{Promise};

use crate::Answer;
use crate::areas::Seated;
use crate::sizes::answer_size;
use questions::head::own_steps;
use questions::question::Question;
use reader::opened::Opened;
use reader::reader::read_round;
use reader::refusal::Refusal;
use sweeps::process::run_offers;

// The offers of the opened round and its answer area; two tables are for the seats, side by side as `run_offers` takes them.
fn seat_all(o: &Opened<'_, '_>, holders: &mut [u16], steps: &mut [u8], answer: &mut [u8]) -> usize
    requires holders_value { (holders.old ≡ replicate o.now.head.candidates 0) × (steps.old ≡ replicate o.now.head.candidates 0) }
    requires r_in_bounds { answer_size o.now.head.form (round_at o.now) ≤ length answer.old }
    ensures { (result ≡ offers_made (round_at o.now))
        × (answer.new ≡ answer_bytes o.now.head.form (round_at o.now) ++ drop (answer_size o.now.head.form (round_at o.now)) answer.old) }
{
    let offers = run_offers(o, holders, steps);
    let seated = Seated {
        o: *o,
        holders,
        steps,
    };
    seated.write_answer(answer);
    offers
}

// Question 14, and the allotment of the opened round.
fn allot_round(o: &Opened<'_, '_>, answer: &mut [u8], work: &mut [u8]) -> Result<usize, Refusal>
    ensures { Called o.now.head.form (round_at o.now) answer.old work.old (answer_of result) answer.new work.new }
{
    let h = o.head;
    let n = h.candidates;
    if answer.len() < answer_size(h.form, own_steps(h), n, h.institutes) || work.len() < 8 * n {
        return Err(Question::Areas.into());
    }
    let mut holders = [0; 512];
    let mut steps = [0; 512];
    let offers = seat_all(o, &mut holders[..n], &mut steps[..n], answer);
    work[..8 * n].fill(0);
    Ok(offers)
}

// The allotment of a round file: the number of offers, or the refusal. Areas side by side, as C lends them.
fn allot_file(file: &[u8], answer: &mut [u8], work: &mut [u8]) -> Result<usize, Refusal>
    ensures { Promise file.now answer.old work.old (answer_of result) answer.new work.new }
{
    let mut starts = [0; 2512];
    let head = read_round(file, &mut starts)?;
    allot_round(&Opened::unchanged(file, head, &starts), answer, work)
}

// The allotment of a round file: the seats, the closing places and the types used in the answer area, the first bytes of the work area cleared.
pub fn allot(file: &[u8], answer: &mut [u8], work: &mut [u8]) -> Answer
    ensures { Promise file.now answer.old work.old result answer.new work.new }
{
    Answer::from(allot_file(file, answer, work))
}
