// The rules of an institute's steps.
use crate::entry::Category;

// A step: the category that it considers, the number of the step that gets its vacancies, 0 for none as `StepRule` has it, its own positions, and
// those of them that are reserved for each type.
#[derive(Clone, Copy)]
pub struct Rule {
    pub category: Category,
    pub receiver: usize,
    pub positions: usize,
    pub reserved: [usize; 8],
}

impl Rule {
    // A step with no positions.
    pub const NONE: Rule = Rule {
        category: Category::Open,
        receiver: 0,
        positions: 0,
        reserved: [0; 8],
    };
}
