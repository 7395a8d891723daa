//! Tests of `nd_base`, `nd_dim` and `nd_shape`, by their public calls. They stand in one crate, since a crate of tests
//! costs the check some 20 seconds before its first test.
//!
//! A row is a call, what it takes as lists, and its answer: `calls` reads it, and `rows` has the worked rows. Further
//! rows, at each dimension type, are in `rust/tests/rows/shapes`, where nothing is proved of a test.
#![tactic(auto)]

#[cfg(test)]
mod calls;
#[cfg(test)]
mod dims;
#[cfg(test)]
mod iterators;
#[cfg(test)]
mod layouts;
#[cfg(test)]
mod own_strides;
#[cfg(test)]
mod rows;
#[cfg(test)]
mod small_layouts;
#[cfg(test)]
mod texts;
#[cfg(test)]
mod values;
