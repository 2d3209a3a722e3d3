// What is printed for an input.
ghost use Rattle.std.specs.Prelude.{◌≡◌, ◌+◌, ◌≤◌, length};
ghost use Rattle.questions.specs.Reading.{round_of};
ghost use Rattle.text.specs.Put.{Put, Front};
ghost use Rattle.page.specs.Page.{page as Page·page, printed};
ghost use Rattle.page.specs.Reads.{Answered};

use crate::lines::put_refusal;
use crate::reads::Allotment;
use allotment::{Answer, allot};
use questions::form::form_of;
use questions::head::head_in;
use questions::question::Question;
use text::Text;

// Room for the longest page; a function, since each program makes its room by it.
pub fn page_room() -> [u8; 94208]
    ensures { length result ≡ 94208 }
{
    [0; 94208]
}

// The page of a round that was allotted.
fn put_answered(page: &mut Text<'_>, file: &[u8], offers: usize, answer: &[u8])
    requires answered { Answered file.now offers answer.now }
    requires in_bounds { page.old.len + 94208 ≤ length page.old.area.now }
    ensures { Put page.old (Page·page (round_of file.now)) page.new }
{
    let head = head_in(&file[4..12], form_of(file));
    let allotment = Allotment { head, answer };
    allotment.put(page, offers);
}

// What is printed for an input: its page, or the line of its refusal.
fn put_printed(page: &mut Text<'_>, input: &[u8])
    requires { page.old.len + 94208 ≤ length page.old.area.now }
    ensures { Put page.old (printed input.now) page.new }
{
    if 65536 < input.len() {
        return put_refusal(page, Question::Input.number(), 0);
    }
    // The areas of the largest round.
    let mut answer = [0; 26560];
    let mut work = [0; 4096];
    match allot(input, &mut answer, &mut work) {
        Answer::Allotted(offers) => put_answered(page, input, offers, &answer),
        Answer::Refused { number, offset } => put_refusal(page, number, offset),
    }
}

// What is printed for an input, at the front of an area of 94,208 bytes.
pub fn put_page(page: &mut [u8], input: &[u8]) -> usize
    requires { 94208 ≤ length page.old }
    ensures { Front page.old (printed input.now) page.new result }
{
    let mut text = Text::new(page);
    put_printed(&mut text, input);
    text.len
}
