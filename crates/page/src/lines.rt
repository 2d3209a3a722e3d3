// The first line of a page, and the one line of a refusal.
ghost use Rattle.text.specs.Put.{Fits, Put};
ghost use Rattle.page.specs.Page.{offers_line, refused_line};

use text::Text;

// The number of offers.
pub fn put_offers(page: &mut Text<'_>, offers: usize)
    requires { Fits page.old (offers_line offers) }
    ensures { Put page.old (offers_line offers) page.new }
{
    page.put_named(b"offers", offers);
    page.put_line_end();
}

// The number of a refusal, and its byte.
pub fn put_refusal(page: &mut Text<'_>, number: usize, offset: usize)
    requires { Fits page.old (refused_line number offset) }
    ensures { Put page.old (refused_line number offset) page.new }
{
    page.put_named(b"refused", number);
    page.put_named(b" at", offset);
    page.put_line_end();
}
