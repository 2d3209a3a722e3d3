// The page of an allotment, read off its answer area.
ghost use Rattle.std.specs.Prelude.{◌≤◌, length};
ghost use Rattle.questions.specs.Records.{own_steps};
ghost use Rattle.questions.specs.Read.{as_head};
ghost use Rattle.allotment.specs.Areas.{size_for};

use crate::lines::put_offers;
use allotment::sizes::{closing_count, closing_width};
use lists::word::word;
use offers::list::SeatList;
use questions::form::seats_size;
use questions::head::{Head, own_steps};
use text::Text;

// The head of a round's file, and the answer area.
#[derive(Drop)]
pub struct Allotment<'a> {
    pub head: Head,
    pub answer: &'a [u8],
    ghost few: { (head.candidates ≤ 512) × (head.institutes ≤ 1000) },
    ghost stands: { size_for head.form (own_steps (as_head head)) head.candidates head.institutes ≤ length answer.now },
}

impl Allotment<'_> {
    ghost use Rattle.std.specs.Prelude.{◌+◌, ◌*◌, ◌<◌};
    ghost use Rattle.allotment.specs.Areas.{closing_count};
    ghost use Rattle.text.specs.Put.{Fits, Put};
    ghost use Rattle.page.specs.Parts.{seat_of, seats_of, places_of, closing_of, closings_of, page_of};

    // The seat of candidate i, from 0, with the type.
    fn put_seat(&self, page: &mut Text<'_>, i: usize)
        requires i_bound { i < self.now.head.candidates }
        requires fits { Fits page.old (seat_of self.now i) }
        ensures { Put page.old (seat_of self.now i) page.new }
    {
        let h = self.head;
        let listed = own_steps(h);
        let closings = seats_size(h.form, h.candidates);
        let types = closings + closing_width(listed) * h.institutes;
        let kind = usize::from(self.answer[types + i]);
        let seats = SeatList {
            bytes: self.answer,
            form: h.form,
        };
        page.put_number(i + 1);
        page.put_next(seats.institute(i));
        page.put_next(seats.step(i));
        page.put_next(kind);
        page.put_line_end();
    }

    // A line for each candidate; by number, which the line has.
    fn put_seats(&self, page: &mut Text<'_>)
        requires { Fits page.old (seats_of self.now) }
        ensures { Put page.old (seats_of self.now) page.new }
    {
        for i in 0..self.head.candidates {
            self.put_seat(page, i);
        }
    }

    // The closing places that stand from a byte on, each behind a space; by number, since each is two bytes of the area.
    fn put_places(&self, page: &mut Text<'_>, from: usize)
        requires in_bounds { from + 2 * closing_count (own_steps (as_head self.now.head)) ≤ length self.now.answer.now }
        requires fits { Fits page.old (places_of self.now from) }
        ensures { Put page.old (places_of self.now from) page.new }
    {
        for k in 0..closing_count(own_steps(self.head)) {
            page.put_next(word(self.answer, from + 2 * k));
        }
    }

    // Institute j, from 0, with its closing places.
    fn put_closing(&self, page: &mut Text<'_>, j: usize)
        requires j_bound { j < self.now.head.institutes }
        requires fits { Fits page.old (closing_of self.now j) }
        ensures { Put page.old (closing_of self.now j) page.new }
    {
        let h = self.head;
        let seats = seats_size(h.form, h.candidates);
        page.put_named(b"closing", j + 1);
        self.put_places(page, seats + closing_width(own_steps(h)) * j);
        page.put_line_end();
    }

    // A line for each institute; by number, which the line has.
    fn put_closings(&self, page: &mut Text<'_>)
        requires { Fits page.old (closings_of self.now) }
        ensures { Put page.old (closings_of self.now) page.new }
    {
        for j in 0..self.head.institutes {
            self.put_closing(page, j);
        }
    }

    // The offers, the seats with the types, the closing places.
    pub fn put(&self, page: &mut Text<'_>, offers: usize)
        requires { Fits page.old (page_of self.now offers) }
        ensures { Put page.old (page_of self.now offers) page.new }
    {
        put_offers(page, offers);
        self.put_seats(page);
        self.put_closings(page);
    }
}
