//! Tests of `nd_slice`, by its public calls: the worked rows, all slices of short axes compared coordinate by coordinate, and
//! numbers under them over whole ranges. Further rows are in `rust/tests/rows/slices`, where nothing is proved of a test.
#![tactic(auto)]

#[cfg(test)]
mod arguments;
#[cfg(test)]
mod axis;
#[cfg(test)]
mod calls;
#[cfg(test)]
mod equations;
#[cfg(test)]
mod rows;
#[cfg(test)]
mod twin;
#[cfg(test)]
mod values;
