//! Sessions of the program.
use ndl_session::{Watched, session};
use std::alloc::Global;
use std::io::{self, Read, Write};

/// A script, which gives 64 bytes a read at the most. It takes no memory.
#[derive(Drop)]
struct Script<'a> {
    left: &'a [u8],
    reads: usize,
}

impl Read for Script<'_> {
    fn read(&mut self, buf: &mut [u8]) -> io::Result<usize> {
        self.reads = self.reads.saturating_add(1);
        let most = buf.len().min(64);
        self.left.read(&mut buf[..most])
    }
}

/// The status of a session over a script, and how often that was read.
pub fn of_session<W: Write + Drop>(alloc: Global, script: &str, writer: W) -> (u8, usize) {
    let mut reader = Watched::new(Script {
        left: script.as_bytes(),
        reads: 0,
    });
    let mut writer = Watched::new(writer);
    let status = session(alloc, &mut reader, &mut writer);
    (status, reader.into_inner().reads)
}
