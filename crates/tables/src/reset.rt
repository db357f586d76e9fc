// Records made free, segments ended, strings forgotten: what set-up does to every place of a table.
ghost use Rattle.std.specs.Prelude.{◌≡◌, ℕ, length, Some, None};
ghost use Rattle.std.specs.List.{slice_get};
ghost use Rattle.tables.specs.declared.span.Mark.TheVariants.{Free};

use crate::segment::Segment;
use crate::span::{Mark, Span};
use texts::Text;

// A place of a table that can be made empty.
pub trait Reset {
    ghost empty: { Self → Type 0 };

    fn reset(&mut self)
        ensures { empty self.new };
}

// A free record.
impl<T: Text> Reset for Span<T> {
    ghost empty = { λ x. x.mark ≡ Free };

    fn reset(&mut self) {
        self.mark = Mark::Free;
    }
}

// A record in which no segment stands.
impl<T: Text> Reset for Segment<T> {
    ghost empty = { λ x. x.count ≡ 0 };

    fn reset(&mut self) {
        self.count = 0;
    }
}

// No string.
impl<T: Text> Reset for Option<T> {
    ghost empty = { λ x. x ≡ None };

    fn reset(&mut self) {
        *self = None;
    }
}

pub fn reset_all<R: Reset>(table: &mut [R])
    ensures len { length table.new ≡ length table.old }
    ensures items { (k : ℕ) (x : R) → slice_get table.new k ≡ Some x → R.empty x }
{
    for place in table {
        place.reset();
    }
}
