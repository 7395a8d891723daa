//! Iterators over items that are lent, whose rows come at once.
ghost use Rattle.std.specs.Prelude.{◌≡◌, ◌<◌, ◌++◌, [], List, MatchOption, Option};
ghost use Rattle.nd_access.specs.LentRow.{row_items};

use crate::rows::LentRow;

/// Iterators over items that are lent, which give them row by row as well.
pub trait RowByRow<'a, T: 'a> {
    // The items that are left.
    ghost left: { Self → List (Option T) };

    /// The items that come next and lie evenly, at once: what is left of the row in progress, or else the next row; `None` after
    /// the last item.
    fn next_row(&mut self) -> Option<LentRow<'a, T>>
        ensures { MatchOption result ((left self.old ≡ []) × (left self.new ≡ []))
            (λ row. (0 < row.row.len) × (left self.old ≡ row_items row ++ left self.new)) };

    /// The last items that lie evenly, at once: what is left of the row in progress at the back, or else the last row; `None` before
    /// the first item.
    fn next_row_back(&mut self) -> Option<LentRow<'a, T>>
        ensures { MatchOption result ((left self.old ≡ []) × (left self.new ≡ []))
            (λ row. (0 < row.row.len) × (left self.old ≡ left self.new ++ row_items row)) };
}
