//! Arrays that own their items, over the layout layer: parts of one array, picked by slices, are read and written by the places
//! of its layout. What lends items is re-exported.
#![tactic(auto)]

mod even_rows;
mod iterating;
mod multi_set;
mod one_or_many;
mod owned;
mod picked_view;
mod ready;
mod rows;

pub use iterating::Items;
pub use nd_lent::{
    ArrayView, ArrayViewMut, Arrays, AxisChunksIter, AxisChunksIterMut, AxisIter, AxisIterMut,
    BlocksIter, EqualTo, IndexedIter, IndexedIterMut, IntoRows, Iter, IterMut, LanesMut, LentRow,
    LentRows, Parts, Rest, RowItems, SliceParts, SplitViews, Taken, TilesMut, Unsigned, ViewIter,
    Whole,
};
pub use owned::OwnedArray;
pub use ready::ReadySlice;
