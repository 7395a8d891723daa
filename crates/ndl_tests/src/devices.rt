//! Sessions over devices that move a few bytes at a time, and whose calls go wrong; and calls of a watched device.
use crate::assertions::hold;
use crate::fakes::{Fake, Fault, FaultyCall};
use crate::sessions::{status_of, written_out};
use ndl_session::{Watched, session};
use std::alloc::Global;
use std::io::{ErrorKind, Write};
use test_tables::{Asked, Row};

/// An input, and the text of its answer.
#[derive(Clone, Copy)]
struct Case<'a> {
    input: &'a [u8],
    text: &'a str,
}

/// How many bytes a call of either device moves at the most, and which of their calls go wrong.
#[derive(Clone, Copy)]
struct Devices {
    most: usize,
    read: FaultyCall,
    write: FaultyCall,
}

/// What a run leaves: its status, how often the reader and the writer were called, and what went
/// out.
type Ended<'a> = (u8, usize, usize, &'a [u8]);

/// What is expected of a run: it ends at the first read that fails, and what goes out ends at the first write that does.
fn expected(case: Case, devices: Devices) -> Ended {
    let reads = calls(case.input.len(), devices.most).saturating_add(1);
    match devices.read {
        Some((call, _)) if call < reads => {
            let text = b"input failed\n";
            written(4, call.saturating_add(1), text, devices)
        }
        _ => written(status_of(case.text), reads, case.text.as_bytes(), devices),
    }
}

/// What is expected of a run that has a whole text to write.
fn written(status: u8, reads: usize, text: &[u8], devices: Devices) -> Ended {
    let writes = calls(text.len(), devices.most);
    match devices.write {
        Some((call, _)) if call < writes => {
            let before = call.saturating_mul(devices.most).min(text.len());
            (4, reads, call.saturating_add(1), &text[..before])
        }
        _ => (status, reads, writes, text),
    }
}

/// How many calls so many bytes take, where each moves this many at the most.
fn calls(bytes: usize, most: usize) -> usize {
    if most == 0 { 0 } else { bytes.div_ceil(most) }
}

/// Whether a run over these devices ends so, and uses neither late.
fn ends(alloc: Global, reader: Fake<&[u8]>, writer: Fake<Vec<u8>>, expected: Ended) -> bool {
    let mut reader = Watched::new(reader);
    let mut writer = Watched::new(writer);
    let status = session(alloc, &mut reader, &mut writer);
    let on_time = !reader.used_late() && !writer.used_late();
    let (reader, writer) = (reader.into_inner(), writer.into_inner());
    on_time && (status, reader.calls, writer.calls, writer.bytes.as_slice()) == expected
}

/// Whether a run over such devices leaves what is expected of it.
fn holds(alloc: Global, case: Case, devices: Devices) -> bool {
    let reader = Fake::new(case.input, devices.most, devices.read);
    let writer = Fake::new(Vec::new(alloc), devices.most, devices.write);
    ends(alloc, reader, writer, expected(case, devices))
}

const BROKEN: Fault = Fault::Error(ErrorKind::BrokenPipe);

const INTERRUPTED: Fault = Fault::Error(ErrorKind::Interrupted);

/// Whether the runs hold in which each write in turn fails in each way, and those in which none does.
fn writes_hold(alloc: Global, case: Case, most: usize, read: FaultyCall) -> bool {
    let write = None;
    let (_, _, writes, _) = expected(case, Devices { most, read, write });
    for call in 0..=writes {
        for fault in [BROKEN, INTERRUPTED, Fault::Nothing] {
            let write = Some((call, fault));
            if !holds(alloc, case, Devices { most, read, write }) {
                return false;
            }
        }
    }
    true
}

/// Whether the runs hold in which each read in turn fails in each way, and those in which none does; writes fail
/// as well.
fn reads_hold(alloc: Global, case: Case, most: usize) -> bool {
    let reads = calls(case.input.len(), most).saturating_add(1);
    for call in 0..=reads {
        for fault in [BROKEN, INTERRUPTED] {
            if !writes_hold(alloc, case, most, Some((call, fault))) {
                return false;
            }
        }
    }
    true
}

/// Whether the runs of a row's script hold over devices that move 1 byte, 7, or all at a time.
struct OverDevices;

impl Asked for OverDevices {
    fn holds(&self, alloc: Global, row: &Row<'_>) -> Option<bool> {
        let input = written_out(alloc, row.given)?;
        let text = written_out(alloc, row.answer)?;
        let (input, text) = (input.as_bytes(), text.as_str());
        for most in [1, 7, usize::MAX] {
            if !reads_hold(alloc, Case { input, text }, most) {
                return Some(false);
            }
        }
        Some(true)
    }
}

const SCRIPTS: &str = "\
session data 4 owned 4 1|slice 1..;-2| => shape 2|strides -2|places 3 1|
session data 6 owned 2,3 3,1|collapse 0 1|merge 0 1|broadcast 2,2,3| => shape 2,2,3|strides 0,0,1|places{4* 3 4 5}|
session data 6 owned 2,3 3,1|reshape F 3,2| => step 1: ShapeError/IncompatibleLayout: incompatible memory layout|
session data 4 owned 4 1|slice 1..||slise ..| => line 4: unreadable|
session  => line 1: unreadable|";

#[test]
fn r13_devices(rt: HostRuntime) {
    hold(&rt, rt.alloc(), SCRIPTS, &OverDevices);
}

#[test]
fn an_input_ends_once(rt: HostRuntime) {
    let input = b"data 4 owned 4 1\n".as_slice();
    let reader = Fake::new(input, 1, Some((2, Fault::Nothing)));
    let writer = Fake::new(Vec::new(rt.alloc()), 100, None);
    let expected = (2, 3, 1, b"line 1: unreadable\n".as_slice());
    assert!(rt; ends(rt.alloc(), reader, writer, expected));
}

#[test]
fn an_empty_piece_is_handed_on(rt: HostRuntime) {
    let fake = Fake::new(Vec::new(rt.alloc()), 1, Some((0, INTERRUPTED)));
    let mut writer = Watched::new(fake);
    let is_error = writer.write(b"").is_err();
    assert!(rt; is_error && writer.failed());
}

#[test]
fn a_flush_is_handed_on_and_is_no_failure(rt: HostRuntime) {
    let mut writer = Watched::new(Fake::new(Vec::new(rt.alloc()), 1, None));
    let is_error = writer.flush().is_err();
    assert!(rt; is_error && !writer.failed() && writer.into_inner().calls == 1);
}
