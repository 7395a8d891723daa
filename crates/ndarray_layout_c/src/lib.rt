//! The layer as C calls it: one export for each task, over lists and numbers alone. Each tests what the layer asks of its
//! callers, and returns a status; nothing is kept between calls. `bindings/c/ndarray_layout.h` declares them.
//!
//! A list of strides has the `usize` of the same bits as C's `ptrdiff_t` for each, as the layer keeps them.
#![tactic(auto)]

mod aliases;
mod arguments;
mod axis_reasons;
mod block_reasons;
mod blocks;
mod broadcast_reasons;
mod diagonals;
mod elements;
mod index_reasons;
mod indices;
mod intersections;
mod joined_layouts;
mod layout_reasons;
mod layouts;
mod lists;
mod permute_reasons;
mod reasons;
mod reshape_reasons;
mod rows;
mod shapes;
mod sizes;
mod slice_reasons;
mod slices;
mod splits;
mod status_texts;
mod statuses;
mod stretches;
mod version;
