//! Reads a picture in the binary format PGM (`P5`) from standard input, edits it as the arguments say, and prints it in that
//! format.
#![tactic(auto)]

use anyhow::Result;
use example_tiles_edits::{Edit, edited, print_picture, read_edits, read_picture};
use std::io::{Read, Write};
use std::rt::Env;
use std::{env, io};

/// The edits that the arguments spell.
fn edits_of_arguments<R: Env + AllocGlobal>(rt: &R) -> Result<Vec<Edit>> {
    let arguments: Vec<String> = env::args(rt)?.skip(1).collect(rt.alloc())?;
    let mut words = Vec::new(rt.alloc());
    for argument in &arguments {
        words.push(argument.as_str())?;
    }
    Ok(read_edits(rt.alloc(), words.as_slice())?)
}

fn main(rt: HostRuntime) -> Result<()> {
    let edits = edits_of_arguments(&rt)?;
    let mut text = Vec::new(rt.alloc());
    rt.stdin().read_to_end(&mut text)?;
    let picture = read_picture(rt.alloc(), text.as_slice())?;
    let picture = edited(rt.alloc(), &picture, edits.as_slice())?;
    rt.stdout()
        .write_all(print_picture(rt.alloc(), &picture)?.as_slice())?;
    Ok(())
}
