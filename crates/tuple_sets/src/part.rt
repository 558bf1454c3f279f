// A part of a row, seen as a tuple.
ghost use Rattle.std.specs.Prelude.{◌≡◌, ◌<◌, All, List, length};
ghost use Rattle.tuple_schema.specs.Words.{part};

use tuple_schema::{FieldRef, Fields};

/// The fields of a row at some of its places, each of which it has.
#[derive(Drop)]
pub(crate) struct Part<'a, F: Fields> {
    pub(crate) row: &'a F,
    pub(crate) cols: &'a [usize],
    ghost within: { All (λ c. c < length (F.tuple row.now)) cols.now },
}

impl<'a, F: Fields> Fields for Part<'a, F> {
    ghost tuple = { λ p. part (F.tuple p.row.now) p.cols.now };

    fn count(&self) -> usize {
        self.cols.len()
    }

    fn field(&self, i: usize) -> FieldRef<'_> {
        let (row, cols) = (self.row, self.cols);
        row.field(cols[i])
    }
}
