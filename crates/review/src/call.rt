// The public call: a round file and a list of seats in, what is found out, the work area cleared.
ghost use Rattle.std.specs.Prelude.{◌≡◌, length, replicate};
ghost use Rattle.reader.specs.AtHand.{round_at};
ghost use Rattle.offers.specs.AtHand.{seats_at};
ghost use Rattle.review.specs.Finding.{finding};
ghost use Rattle.review.specs.Outcome.{finding_of, Called};
ghost use Rattle.review.specs.Promise.{Promise};

use crate::Judgement;
use crate::entries::find_entry;
use crate::steps::{first_wrong, give_steps};
use offers::listed::Listed;
use questions::form::seats_size;
use questions::question::Question;
use reader::opened::Opened;
use reader::reader::read_round;
use reader::refusal::Refusal;

// What is found on a list; three tables are for the offers and the steps, as a choice takes them.
fn find(listed: &Listed<'_>, asked: &mut [u16], wanted: &mut [u8], steps: &mut [u8]) -> Judgement
    requires { (asked.old ≡ replicate listed.now.o.head.candidates 0) × (length wanted.old ≡ listed.now.o.head.candidates) × (steps.old ≡ replicate listed.now.o.head.candidates 0) }
    ensures { finding_of result ≡ finding (round_at listed.now.o) (seats_at listed.now) }
{
    listed.read_seats(asked, wanted);
    give_steps(&listed.o, asked, wanted, steps);
    match first_wrong(listed, asked, steps) {
        Some(i) => Judgement::WrongSeat { candidate: i + 1 },
        None => find_entry(listed, asked, wanted, steps),
    }
}

// Questions 15 and 14, and the review of a list for the opened round.
fn review_round(o: &Opened<'_, '_>, list: &[u8], work: &mut [u8]) -> Result<Judgement, Refusal>
    ensures { Called o.now.head.form (round_at o.now) list.now work.old result work.new }
{
    let n = o.head.candidates;
    if list.len() != seats_size(o.head.form, n) {
        return Err(Question::List.into());
    }
    if work.len() < 8 * n {
        return Err(Question::Areas.into());
    }
    let mut asked = [0; 512];
    let mut wanted = [0; 512];
    let mut steps = [0; 512];
    let found = find(
        &Listed { o: *o, list },
        &mut asked[..n],
        &mut wanted[..n],
        &mut steps[..n],
    );
    work[..8 * n].fill(0);
    Ok(found)
}

// The review of a list of seats for a round file: where nothing is refused the list passes if it is stable, else what is found first is named.
pub fn review(file: &[u8], list: &[u8], work: &mut [u8]) -> Result<Judgement, Refusal>
    ensures { Promise file.now list.now work.old result work.new }
{
    let mut starts = [0; 2512];
    let head = read_round(file, &mut starts)?;
    review_round(&Opened::unchanged(file, head, &starts), list, work)
}
