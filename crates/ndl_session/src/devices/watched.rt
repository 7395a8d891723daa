//! A reader or a writer that remembers whether one of its calls has failed, found the end, or came late, and whether
//! what it gave has found no room.
ghost use Rattle.std.specs.Prelude.{◌≡◌, ◌++◌, ◌||◌, false, is_err, OnOk};
ghost use Rattle.std.specs.Io.{ReadsAtMost, WritesAtMost};
ghost use Rattle.std.specs.Io.KnownBytes.{Keeps, ReadConsumes, WriteAppends};

use std::alloc::AllocError;
use std::io;
use std::io::{Read, Write};

/// A device whose failures are remembered: a reader, a writer, or both.
///
/// It has failed from the first `read` or `write` that returned an error, an interrupted one too,
/// or the first `write` that took no byte of a piece that has some, and from nothing else: a `read`
/// of 0 bytes is the end of the input, and `flush` only calls the device's. After a failure it has failed for good.
///
/// Its input has ended from the first `read` that gave 0 bytes to a buffer that has room. It was used late
/// where it was read after a failure or after that end, or written or flushed after a failure.
///
/// It lacks room from the first bytes that it gave for which an allocation failed. It was read without room where it was
/// read after that.
#[derive(Debug, Drop)]
pub struct Watched<T> {
    inner: T,
    failed: bool,
    ended: bool,
    used_late: bool,
    lacks_room: bool,
    read_without_room: bool,
}

impl<T> Watched<T> {
    ghost use Rattle.ndl_session.specs.devices.Watched.{device, has_failed, has_ended, was_used_late};
    ghost use Rattle.ndl_session.specs.devices.Watched.{lacks_room, was_read_without_room};

    /// The device, none of whose calls counts as failed yet, as the end of the input, or as late. It lacks no room.
    pub fn new(inner: T) -> Self
        ensures device { device result ≡ inner }
        ensures failed { has_failed result ≡ false }
        ensures ended { has_ended result ≡ false }
        ensures late { was_used_late result ≡ false }
        ensures room { lacks_room result ≡ false }
        ensures no_room { was_read_without_room result ≡ false }
    {
        Watched {
            inner,
            failed: false,
            ended: false,
            used_late: false,
            lacks_room: false,
            read_without_room: false,
        }
    }

    /// Whether one of the reads and writes so far has failed.
    pub fn failed(&self) -> bool
        ensures { result ≡ has_failed self.now }
    {
        self.failed
    }

    /// Whether one of the reads so far has found the end of the input.
    pub fn ended(&self) -> bool
        ensures { result ≡ has_ended self.now }
    {
        self.ended
    }

    /// Whether one of the calls so far came late: a read after a failure or after the end of the
    /// input, a write or a flush after a failure.
    pub fn used_late(&self) -> bool
        ensures { result ≡ was_used_late self.now }
    {
        self.used_late
    }

    /// Whether an allocation for bytes that it gave has failed.
    pub fn lacks_room(&self) -> bool
        ensures { result ≡ lacks_room self.now }
    {
        self.lacks_room
    }

    /// Whether one of the reads so far came after an allocation for bytes that it gave had failed.
    pub fn read_without_room(&self) -> bool
        ensures { result ≡ was_read_without_room self.now }
    {
        self.read_without_room
    }

    /// Appends bytes that the device gave to those kept so far.
    ///
    /// Errors: out of memory; the device lacks room then.
    pub(super) fn keep(&mut self, kept: &mut Vec<u8>, given: &[u8]) -> Result<(), AllocError>
        ensures kept { OnOk result (kept.new.items ≡ kept.old.items ++ given.now) }
        ensures device { device self.new ≡ device self.old }
        ensures failed { has_failed self.new ≡ has_failed self.old }
        ensures ended { has_ended self.new ≡ has_ended self.old }
        ensures late { was_used_late self.new ≡ was_used_late self.old }
        ensures room { lacks_room self.new ≡ (lacks_room self.old || is_err result) }
        ensures no_room { was_read_without_room self.new ≡ was_read_without_room self.old }
    {
        let outcome = kept.extend_from_slice(given);
        self.lacks_room = self.lacks_room || outcome.is_err();
        outcome
    }

    /// The device, as its last call left it.
    pub fn into_inner(self) -> T
        ensures { result ≡ device self }
    {
        self.inner
    }
}

impl<R: Read> Watched<R> {
    ghost use Rattle.ndl_session.specs.devices.Watched.{device, has_failed, has_ended, is_end, lacks_room, IsReadInTime};

    /// Reads as the device does. The caller ensures that no read or write of it has failed before.
    ///
    /// Errors: those of the device; it has failed then.
    pub(super) fn read_on(&mut self, buf: &mut [u8]) -> io::Result<usize>
        requires { has_failed self.old ≡ false }
        ensures bound { ReadsAtMost result buf.new }
        ensures bytes { ReadConsumes (R.remaining (device self.old))
            (R.remaining (device self.new)) result buf.new }
        ensures failed { has_failed self.new ≡ is_err result }
        ensures ended { has_ended self.new ≡ (has_ended self.old || is_end result buf.new) }
        ensures in_time { IsReadInTime self.old self.new }
        ensures room { lacks_room self.new ≡ lacks_room self.old }
    {
        self.read(buf)
    }
}

impl<W: Write> Watched<W> {
    ghost use Rattle.ndl_session.specs.devices.Watched.{device, has_failed, is_failed_write, IsWrittenInTime};

    /// Writes as the device does. The caller ensures that no read or write of it has failed before.
    ///
    /// Errors: those of the device; it has failed then, and where it took no byte of a piece that has
    /// some.
    pub(super) fn write_on(&mut self, buf: &[u8]) -> io::Result<usize>
        requires { has_failed self.old ≡ false }
        ensures bound { WritesAtMost result buf.now }
        ensures bytes { WriteAppends (W.contents (device self.old))
            (W.contents (device self.new)) result buf.now }
        ensures failed { has_failed self.new ≡ is_failed_write result buf.now }
        ensures in_time { IsWrittenInTime self.old self.new }
    {
        self.write(buf)
    }
}

impl<R: Read> Read for Watched<R> {
    ghost use Rattle.ndl_session.specs.devices.Watched.{device, has_failed, has_ended, was_used_late};
    ghost use Rattle.ndl_session.specs.devices.Watched.{is_end, is_late_read, lacks_room, was_read_without_room};

    ghost remaining = { λ w. R.remaining (device w) };

    fn read(&mut self, buf: &mut [u8]) -> io::Result<usize>
        ensures bound { ReadsAtMost result buf.new }
        ensures bytes { ReadConsumes (R.remaining (device self.old))
            (R.remaining (device self.new)) result buf.new }
        ensures failed { has_failed self.new ≡ (has_failed self.old || is_err result) }
        ensures ended { has_ended self.new ≡ (has_ended self.old || is_end result buf.new) }
        ensures late { was_used_late self.new ≡ (was_used_late self.old || is_late_read self.old) }
        ensures room { lacks_room self.new ≡ lacks_room self.old }
        ensures no_room { was_read_without_room self.new
            ≡ (was_read_without_room self.old || lacks_room self.old) }
    {
        self.used_late = self.used_late || self.failed || self.ended;
        self.read_without_room = self.read_without_room || self.lacks_room;
        let outcome = self.inner.read(buf);
        let is_end = match &outcome {
            Ok(given) => *given == 0 && !buf.is_empty(),
            Err(_) => false,
        };
        self.failed = self.failed || outcome.is_err();
        self.ended = self.ended || is_end;
        outcome
    }
}

impl<W: Write> Write for Watched<W> {
    ghost use Rattle.ndl_session.specs.devices.Watched.{device, has_failed, has_ended, was_used_late};
    ghost use Rattle.ndl_session.specs.devices.Watched.{is_failed_write, is_late_write, lacks_room, was_read_without_room};

    ghost contents = { λ w. W.contents (device w) };

    fn write(&mut self, buf: &[u8]) -> io::Result<usize>
        ensures bound { WritesAtMost result buf.now }
        ensures bytes { WriteAppends (W.contents (device self.old))
            (W.contents (device self.new)) result buf.now }
        ensures failed { has_failed self.new
            ≡ (has_failed self.old || is_failed_write result buf.now) }
        ensures ended { has_ended self.new ≡ has_ended self.old }
        ensures late { was_used_late self.new ≡ (was_used_late self.old || is_late_write self.old) }
        ensures room { lacks_room self.new ≡ lacks_room self.old }
        ensures no_room { was_read_without_room self.new ≡ was_read_without_room self.old }
    {
        self.used_late = self.used_late || self.failed;
        let outcome = self.inner.write(buf);
        let is_failed = match &outcome {
            Ok(taken) => *taken == 0 && !buf.is_empty(),
            Err(_) => true,
        };
        self.failed = self.failed || is_failed;
        outcome
    }

    fn flush(&mut self) -> io::Result<()>
        ensures bytes { Keeps (W.contents (device self.old)) (W.contents (device self.new)) }
        ensures failed { has_failed self.new ≡ has_failed self.old }
        ensures ended { has_ended self.new ≡ has_ended self.old }
        ensures late { was_used_late self.new ≡ (was_used_late self.old || is_late_write self.old) }
        ensures room { lacks_room self.new ≡ lacks_room self.old }
        ensures no_room { was_read_without_room self.new ≡ was_read_without_room self.old }
    {
        self.used_late = self.used_late || self.failed;
        self.inner.flush()
    }
}
