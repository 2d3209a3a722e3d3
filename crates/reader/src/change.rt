// What makes the opened round differ from that of the file.
ghost use Rattle.std.specs.Prelude.{◌≡◌, ◌≤◌};
ghost use Rattle.reader.specs.Opened as opened;
ghost use Rattle.round.specs.Changed as changed;

// How the opened round differs from the file's. Candidates, institutes and places have numbers from 0.
#[derive(Clone, Copy, Debug, PartialEq, Eq)]
pub enum Change {
    Nothing,
    Row {
        candidate: usize,
    },
    Rise {
        institute: usize,
        place: usize,
        by: usize,
    },
}

impl Change {
    // Whether the change is to candidate i's row.
    pub fn replaces(self, i: usize) -> bool
        ensures { result ≡ opened.replaces self i }
    {
        match self {
            Change::Row { candidate } => i == candidate,
            Change::Nothing | Change::Rise { .. } => false,
        }
    }

    // Where the one at place q of institute j's merit list stands in the file.
    pub fn stood(self, j: usize, q: usize) -> usize
        requires { opened.Rises self }
        ensures { result ≡ opened.stood self j q }
    {
        match self {
            Change::Rise {
                institute,
                place,
                by,
            } if j == institute => stood_at(place, by, q),
            _ => q,
        }
    }
}

// Where, before the one at a place was raised by so many places, the one stood who is at place q.
#[tactic(auto, unfolding(round::specs::Changed::stood_at))]
fn stood_at(place: usize, by: usize, q: usize) -> usize
    requires { by ≤ place }
    ensures { result ≡ changed.stood_at place by q }
{
    if q == place - by {
        place
    } else if place - by < q && q <= place {
        q - 1
    } else {
        q
    }
}
