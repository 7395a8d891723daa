//! Tests of `ndarray_layout` and of arrays that own their items, by public calls: the worked rows of views, of reshapes, of
//! runs and of arrays. Further rows are in `rust/tests/rows/views`, where nothing is proved of a test.
#![tactic(auto)]

#[cfg(test)]
mod arrays;
#[cfg(test)]
mod calls;
#[cfg(test)]
mod parts;
#[cfg(test)]
mod reshape_rows;
#[cfg(test)]
mod reshapes;
#[cfg(test)]
mod rows;
#[cfg(test)]
mod runs;
#[cfg(test)]
mod views;
