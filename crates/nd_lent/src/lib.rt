//! Items that are kept elsewhere, lent as an array or in parts, to be read or written by the places of a layout.
#![tactic(auto)]

mod array_view;
mod array_view_mut;
mod axis_last;
mod indexing;
mod memory_range;
mod rest;
mod split_views;
mod views;
mod whole;
mod zip;

pub use array_view::{ArrayView, Arrays, AxisChunksIter, AxisIter, BlocksIter, IntoArray};
pub use array_view_mut::{
    ArrayViewMut, AxisChunksIterMut, AxisIterMut, LanesMut, Parts, RowParts, SliceParts, TilesMut,
};
pub use nd_access::{LentRow, LentRows, LentRowsOf, RowItems, Taken};
pub use nd_items::{IndexedIter, IndexedIterMut, IntoRows, Iter, IterMut, ViewIter};
pub use nd_loops::{EqualTo, Unsigned};
pub use rest::Rest;
pub use split_views::SplitViews;
pub use views::Views;
pub use views::numbered::Numbered;
pub use whole::Whole;
pub use zip::Zip;
