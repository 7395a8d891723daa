//! Calls that may need memory, as input says: which of a call's requests fails, the run decides (`rt try
//! --fail-alloc`), and how many small requests are made first (`checks/refused_calls`).
#![tactic(auto)]

mod answer;
mod arrays;
mod line;
mod lists;
mod runs;
mod sessions;
mod views;

use line::{answer, ask, granted};
use sessions::of_session;
use std::io::{self, Read};
use std::str;

/// The bytes of a reader, in a list that they have room in: it takes no memory. Answers how many there are.
fn read_all(reader: &mut impl Read, bytes: &mut [u8]) -> io::Result<usize> {
    let mut len = 0;
    for _ in 0..bytes.len() {
        let Some(rest) = bytes.get_mut(len..) else {
            break;
        };
        match reader.read(rest)? {
            0 => break,
            read => len = len.saturating_add(read),
        }
    }
    Ok(len)
}

/// Calls, one a line; or how many small requests are made before all others, the word `session`, and from the next line on its script.
fn main(rt: HostRuntime) -> io::Result<()> {
    let mut bytes = [0; 2048];
    let len = read_all(&mut rt.stdin(), &mut bytes)?;
    let text = str::from_utf8(bytes.get(..len).unwrap_or(&[])).unwrap_or("");
    if let Some((earlier, script)) = text.split_once(" session\n") {
        let asked = ask(rt.alloc(), earlier);
        let (status, reads) = of_session(rt.alloc(), script, rt.stdout());
        let granted = granted(rt.alloc());
        let earlier = if asked.is_some() { "" } else { "unreadable " };
        println!(rt; "{earlier}status {status}, {reads} reads then {granted}")?;
        return Ok(());
    }
    for line in text.lines() {
        let answer = answer(rt.alloc(), line);
        let granted = granted(rt.alloc());
        match answer {
            Some(answer) => println!(rt; "{} then {granted}", answer.as_str())?,
            None => println!(rt; "unreadable")?,
        }
    }
    Ok(())
}
