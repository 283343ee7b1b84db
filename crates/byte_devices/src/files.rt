//! A log over a file, a sink over a writer, and a source over a reader, whose contents aren't
//! known.
ghost use Rattle.std.specs.Prelude.{◌≡◌, ◌+◌, ◌≤◌, ◌<◌, None, IfOk, OnOk, length, take};
ghost use Rattle.std.specs.Io.KnownBytes.{Appends, Consumes, IsAtEnd};
ghost use Rattle.byte_devices.specs.Bytes.{Puts};
ghost use Rattle.byte_devices.specs.Calls.{calls_counted};
ghost use Rattle.byte_devices.specs.Faults.{HasCause};

use crate::count::{CallCount, FaultCount};
use crate::device::{Failed, LogDevice, Sink, Source};
use std::fs::OpenFile;
use std::io::{Read, Write};

/// A log over a file.
#[derive(Drop)]
pub struct FileLog<F: Drop> {
    file: F,
    faults: FaultCount,
    calls: CallCount,
}

impl<F: Write + OpenFile + Drop> FileLog<F> {
    /// A log over an empty file that is open for writing.
    pub fn new(file: F) -> FileLog<F>
        ensures { ⟦<FileLog<F> as LogDevice>⟧.faults result ≡ 0 }
    {
        FileLog {
            file,
            faults: FaultCount::new(),
            calls: CallCount::new(),
        }
    }

    /// How many calls failed.
    pub fn faults(&self) -> u64
        ensures { result ≡ ⟦<FileLog<F> as LogDevice>⟧.faults self.now }
    {
        self.faults.get()
    }
}

impl<F: Write + OpenFile + Drop> LogDevice for FileLog<F> {
    ghost bytes = { λ l. None };

    ghost synced = { λ l. 0 };

    ghost faults = { λ l. l.faults.count };

    ghost calls = { λ l. calls_counted l.calls };

    fn append(&mut self, piece: &[u8]) -> Result<(), Failed>
        ensures bytes { Puts piece.now None None result }
        ensures faults { HasCause self.old.faults.count self.new.faults.count result }
        ensures calls { calls_counted self.new.calls ≡ calls_counted self.old.calls + 1 }
        ensures written { OnOk result (Appends (F.contents self.old.file) (F.contents self.new.file)
            piece.now) }
    {
        self.calls.raise();
        if self.file.write_all(piece).is_ok() {
            return Ok(());
        }
        self.faults.raise();
        Err(Failed)
    }

    /// The bytes and the file's length are durable then; its times needn't be (`fdatasync`).
    /// That is PostgreSQL's default for WAL on Linux (`wal_sync_method`). A reader of the log needs
    /// no more. The directory of a new file isn't synced.
    fn sync(&mut self) -> Result<(), Failed> {
        self.calls.raise();
        if self.file.sync_data().is_ok() {
            return Ok(());
        }
        self.faults.raise();
        Err(Failed)
    }

    ghost faults_fit = { λ l. l.faults.fits };

    ghost synced_within = { λ l. tt };
}

/// A sink over a writer.
#[derive(Drop)]
pub struct StdSink<W: Write + Drop> {
    writer: W,
    faults: FaultCount,
}

impl<W: Write + Drop> StdSink<W> {
    pub fn new(writer: W) -> StdSink<W>
        ensures { ⟦<StdSink<W> as Sink>⟧.faults result ≡ 0 }
    {
        StdSink {
            writer,
            faults: FaultCount::new(),
        }
    }

    /// How many puts failed.
    pub fn faults(&self) -> u64
        ensures { result ≡ ⟦<StdSink<W> as Sink>⟧.faults self.now }
    {
        self.faults.get()
    }
}

impl<W: Write + Drop> Sink for StdSink<W> {
    ghost bytes = { λ s. None };

    ghost faults = { λ s. s.faults.count };

    fn put(&mut self, piece: &[u8]) -> Result<(), Failed>
        ensures bytes { Puts piece.now None None result }
        ensures faults { HasCause self.old.faults.count self.new.faults.count result }
        ensures written { OnOk result (Appends (W.contents self.old.writer)
            (W.contents self.new.writer) piece.now) }
    {
        if self.writer.write_all(piece).is_ok() {
            return Ok(());
        }
        self.faults.raise();
        Err(Failed)
    }

    ghost faults_fit = { λ s. s.faults.fits };
}

/// A source over a reader.
#[derive(Drop)]
pub struct FileSource<F: Read + Drop> {
    file: F,
    faults: FaultCount,
}

impl<F: Read + Drop> FileSource<F> {
    pub fn new(file: F) -> FileSource<F>
        ensures { ⟦<FileSource<F> as Source>⟧.faults result ≡ 0 }
    {
        FileSource {
            file,
            faults: FaultCount::new(),
        }
    }

    /// How many calls failed.
    pub fn faults(&self) -> u64
        ensures { result ≡ ⟦<FileSource<F> as Source>⟧.faults self.now }
    {
        self.faults.get()
    }
}

impl<F: Read + Drop> Source for FileSource<F> {
    ghost left = { λ s. None };

    ghost faults = { λ s. s.faults.count };

    /// A read that was interrupted is a fault, too.
    /// It takes nothing then, and its caller may call again.
    fn next(&mut self, piece: &mut [u8]) -> Result<usize, Failed>
        ensures size { length piece.new ≡ length piece.old }
        ensures within { IfOk result (λ n. n ≤ length piece.old) }
        ensures faults { HasCause self.old.faults.count self.new.faults.count result }
        ensures read { IfOk result (λ n.
            Consumes (F.remaining self.old.file) (F.remaining self.new.file) (take n piece.new)) }
        ensures at_end { IfOk result (λ n. n ≡ 0 → 0 < length piece.old
            → IsAtEnd (F.remaining self.new.file)) }
    {
        if let Ok(count) = self.file.read(piece) {
            return Ok(count);
        }
        self.faults.raise();
        Err(Failed)
    }

    ghost faults_fit = { λ s. s.faults.fits };
}
