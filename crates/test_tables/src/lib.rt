//! What the tests of several crates share: rows of tables and their words, questions asked at a dimension type that a
//! row names, the names of errors, hashes, what is printed, requests for memory.
//!
//! A table is lines, and each is a row: `CALL ARG ARG .. => ANSWER`. Rows of one call and one answer may stand in one
//! line: `CALL ARG .. / ARG .. => ANSWER`. Spaces separate words. A word is a name, a number, a list of numbers
//! (`2,3,-1`, or `-` for none), slice elements (`1..4;2`, `-1`, `NewAxis`, with commas between them), or the name of a
//! dimension type (`Ix0` to `Ix6`, `IxDyn`). Negative lengths and strides are kept by their bits. A row that can't be
//! read fails its test, and so does an empty table.
#![tactic(auto)]

mod equality;
mod faults;
mod lists;
mod memory;
mod row;
mod slices;
mod tables;
mod texts;
mod types;

pub use equality::hash_of;
pub use faults::{fault_of, layout_fault_name, name_of, or_fault};
pub use lists::{List, Lists, made};
pub use memory::grants;
pub use row::{Reading, Row, Words};
pub use tables::{Asked, first_failing, meaning, row_holds};
pub use texts::is_printed;
pub use types::{AtType, at_each_type, at_type};
