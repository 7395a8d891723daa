//! Elements of a slice by their places, lent to be read or written at the price of a pointer, alone or row by row. The `unsafe`
//! of the layer stands here, but for one line of `nd_lent`: the contracts say which elements a value has the right to.
#![tactic(auto)]

mod cells;
mod row_by_row;
mod row_items;
mod rows;

pub use cells::{Cells, Reader, Taken};
pub use row_by_row::RowByRow;
pub use row_items::RowItems;
pub use rows::{LentRow, LentRows, LentRowsOf, is_contiguous, place_in_row};
