//! Reads a script to its end, and writes the whole answer to it.
#![tactic(auto)]

mod answer;
mod devices;
mod script;
mod text;

pub use devices::session::session;
pub use devices::watched::Watched;
pub use script::data_line::DataLayout;
pub use script::{ReadError, Script, read_script};
