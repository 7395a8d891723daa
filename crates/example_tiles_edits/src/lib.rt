//! Pictures in grey in the binary format PGM (`P5`), edits of them, and the words that spell edits.
#![tactic(auto)]

mod edit;
mod editing;
mod picture;
mod printing;
mod reading;
mod words;

pub use edit::{Edit, Misfit, Span};
pub use editing::{EditError, edited};
pub use picture::{Extent, Picture};
pub use printing::print_picture;
pub use reading::{ReadError, read_picture};
pub use words::{WordsError, read_edits};
