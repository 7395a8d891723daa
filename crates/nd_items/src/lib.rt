//! Items that are lent one after another, from both ends, to be read or written, with their indices, and row by row.
#![tactic(auto)]

mod copying;
mod indexed_of;
mod into_rows;
mod items;
mod iterating;
mod next_index;

pub use indexed_of::{IndexedIter, IndexedIterMut, IndexedOf, LentItems};
pub use into_rows::IntoRows;
pub use items::IterMut;
pub use iterating::{Iter, IterOf, ViewIter};
pub use next_index::NextIndex;
