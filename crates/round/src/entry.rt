// Entries: an institute together with a category.
ghost use Rattle.std.specs.Prelude.{◌≡◌, ◌^◌};
ghost use Rattle.round.specs.Category.{code_of, category_of};

// The five categories; `Open` of a candidate is the general category.
#[derive(Clone, Copy, Debug, PartialEq, Eq)]
pub enum Category {
    Open,
    SC,
    ST,
    OBC,
    EWS,
}

// An entry: the number of an institute, and a category there.
#[derive(Clone, Copy, Debug, PartialEq, Eq)]
pub struct Entry {
    pub institute: usize,
    pub category: Category,
}

// The code of a category.
impl From<Category> for u8 {
    ghost from_gives = { λ category code. code ≡ code_of category };

    fn from(category: Category) -> u8 {
        match category {
            Category::Open => 0,
            Category::SC => 1,
            Category::ST => 2,
            Category::OBC => 3,
            Category::EWS => 4,
        }
    }
}

// The category of a code that stands in an accepted file; open for a number that is no code.
impl From<u8> for Category {
    ghost from_gives = { λ code category. category ≡ category_of code };

    fn from(code: u8) -> Category {
        match code {
            1 => Category::SC,
            2 => Category::ST,
            3 => Category::OBC,
            4 => Category::EWS,
            _ => Category::Open,
        }
    }
}

impl Category {
    // The set of this category alone: the bit of its code.
    pub fn set(self) -> u8
        ensures { result ≡ 2 ^ code_of self }
    {
        1 << u8::from(self)
    }
}
