// One step: taking for use, the types of those taken, then filling by merit.
ghost use Rattle.std.specs.Prelude.{◌≡◌, true, ◌≤◌, length, take};
ghost use Rattle.round.specs.Category.{code_of};
ghost use Rattle.placing.specs.Offers.{considers_by, Places};
ghost use Rattle.choice.specs.Fill.{step_given, step_types, step_numbers};

use crate::fill::fill;
use round::rule::Rule;
use types::first::take_typed;

// What a step comes to: its positions, how many it took for use and how many by merit, the positions that it leaves vacant, and its closing
// place, from 1; 0 for nobody, as `closing_place` has it.
#[derive(Clone, Copy)]
pub struct Numbers {
    pub positions: usize,
    pub used: usize,
    pub merit: usize,
    pub vacant: usize,
    pub closing: usize,
}

impl Numbers {
    // A step that did nothing.
    pub const NONE: Numbers = Numbers {
        positions: 0,
        used: 0,
        merit: 0,
        vacant: 0,
        closing: 0,
    };
}

// Does one step by its rule, with so many positions, and returns its numbers; with `first` the types used are those of the first placing, else nothing
// is said of them. A table is for the types of those taken for use. Tables side by side, and a flag beside that of the types, as `choose` has them.
pub fn step(
    rule: &Rule,
    types: usize,
    positions: usize,
    number: u8,
    marks: &[u8],
    offers: &[u8],
    first: bool,
    placed: &mut [u8],
    steps: &mut [u8],
    used: &mut [u8],
) -> Numbers
    requires types_most { types ≤ 8 }
    requires places { Places marks.now offers.now steps.old used.old }
    requires placed_len { length placed.old ≡ length marks.now }
    ensures { (steps.new ≡ step_given number (take types rule.now.reserved) marks.now (considers_by offers.now steps.old (code_of rule.now.category)) positions steps.old)
        × (result ≡ step_numbers (take types rule.now.reserved) marks.now (considers_by offers.now steps.old (code_of rule.now.category)) positions)
        × (first ≡ true → used.new ≡ step_types (take types rule.now.reserved) marks.now (considers_by offers.now steps.old (code_of rule.now.category)) used.old) }
{
    let reserved = &rule.reserved[..types];
    placed.fill(0);
    let count = take_typed(first, reserved, marks, offers, steps, rule.category, placed);
    let free = positions.saturating_sub(count);
    let merit = fill(free, number, offers, rule.category, placed, steps, used);
    let vacant = free.saturating_sub(merit.filled);
    Numbers {
        positions,
        used: count,
        merit: merit.filled,
        vacant,
        closing: merit.closing,
    }
}
