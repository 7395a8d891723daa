//! Reads a script from standard input, a layout and the steps to take from it, and prints the places of the elements that
//! remain, and nothing else. The exit status is that of `session`.
#![tactic(auto)]

use ndl_session::{Watched, session};
use std::process::ExitCode;

fn main(rt: HostRuntime) -> ExitCode {
    let mut reader = Watched::new(rt.stdin());
    let mut writer = Watched::new(rt.stdout());
    ExitCode::from(session(rt.alloc(), &mut reader, &mut writer))
}
