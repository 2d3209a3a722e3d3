// The positions left of each type while a step is filled: a table that starts as the positions and goes along with the places.
ghost use Rattle.std.specs.Prelude.{◌≡◌, suc, ◌≤◌, ◌<◌, length, get_or, set, take};
ghost use Rattle.matching.specs.Use.{one_less};
ghost use Rattle.placing.specs.Left.{given_back, Vacating};

// The positions of each type, in an area of their own.
pub fn positions_of(reserved: &[usize]) -> [usize; 8]
    requires { length reserved.now ≤ 8 }
    ensures { (length result ≡ 8) × (take (length reserved.now) result ≡ reserved.now) }
{
    let mut room = [0usize; 8];
    // By index, since a copy of so few is a call, and over the elements the compiler fills the table and then copies it.
    for t in 0..reserved.len() {
        room[t] = reserved[t];
    }
    room
}

// Takes away the type of the one at c, if there is one, and gives its position back.
pub fn vacate(left: &mut [usize], placed: &mut [u8], c: usize)
    requires { Vacating left.old placed.old c }
    ensures { (left.new ≡ given_back left.old (get_or placed.old c 0)) × (placed.new ≡ set placed.old c 0) }
{
    let had = usize::from(placed[c]);
    placed[c] = 0;
    if 0 < had {
        left[had - 1] += 1;
    }
}

// Moves the one at c to type t: gives back the position of the type before, if there is one, and takes one of type t.
pub fn settle(left: &mut [usize], placed: &mut [u8], c: usize, t: usize)
    requires { Vacating left.old placed.old c × (t < 8) × (t < length left.old) × (0 < get_or left.old t 0) }
    ensures { (left.new ≡ one_less (given_back left.old (get_or placed.old c 0)) t) × (placed.new ≡ set placed.old c (suc t)) }
{
    vacate(left, placed, c);
    left[t] -= 1;
    placed[c] = (t + 1) as u8;
}
