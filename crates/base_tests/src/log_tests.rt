//! Failures that leave a part, a writer that takes little, a file that counts its syncs, and
//! sources of which a call fails.
use crate::checks::{check, check_eq};
use byte_devices::{
    Failed, FaultPlan, FileLog, FileSource, LogDevice, LogPlan, MemLog, MemSink, MemSource, Sink,
    Source, StdSink,
};
use std::cell::Cell;
use std::fs::{Metadata, OpenFile};
use std::io;
use std::io::{ErrorKind, Read, Write};
use std::test::Fail;

/// Of the pieces put the second fails by plan, and the third doesn't fit.
fn use_sink(sink: &mut MemSink) -> [Result<(), Failed>; 4] {
    let first = sink.put(b"abc");
    let failing = sink.put(b"defg");
    let too_long = sink.put(b"hijklmnop");
    let empty = sink.put(b"");
    [first, failing, too_long, empty]
}

#[test]
fn sink_in_memory(rt: HostRuntime) -> Result<(), Fail> {
    let alloc = rt.alloc();
    let puts = FaultPlan::new(vec![in alloc; 2u64; 1]?);
    let mut sink = MemSink::new(alloc, 10, puts)?;
    check_eq!(rt;
        use_sink(&mut sink),
        [Ok(()), Err(Failed), Err(Failed), Ok(())]
    );
    check_eq!(rt;
        (sink.bytes(), sink.faults()),
        (b"abcdehijkl".as_slice(), 2)
    );
    Ok(())
}

/// The second append and the second sync fail by plan, and the last piece doesn't fit.
fn use_log(log: &mut MemLog) -> [Result<(), Failed>; 5] {
    let first = log.append(b"abcd");
    let synced = log.sync();
    let failing = log.append(b"efg");
    let not_synced = log.sync();
    let too_long = log.append(b"past its room");
    [first, synced, failing, not_synced, too_long]
}

#[test]
fn log_in_memory(rt: HostRuntime) -> Result<(), Fail> {
    let alloc = rt.alloc();
    let plan = LogPlan {
        appends: FaultPlan::new(vec![in alloc; 2u64; 1]?),
        syncs: FaultPlan::new(vec![in alloc; 2u64; 1]?),
    };
    let mut log = MemLog::new(alloc, 10, plan)?;
    check_eq!(rt;
        use_log(&mut log),
        [Ok(()), Ok(()), Err(Failed), Err(Failed), Err(Failed)]
    );
    check_eq!(rt;
        (log.bytes(), log.synced(), log.faults()),
        (b"abcdefpast".as_slice(), 4, 3)
    );
    Ok(())
}

/// A writer that takes at most three bytes a call, and no more than so many in all.
#[derive(Drop)]
struct Narrow {
    left: usize,
}

impl Write for Narrow {
    fn write(&mut self, buf: &[u8]) -> io::Result<usize> {
        let taken = buf.len().min(3).min(self.left);
        self.left -= taken;
        Ok(taken)
    }

    fn flush(&mut self) -> io::Result<()> {
        Ok(())
    }
}

#[test]
fn sink_over_a_writer(rt: HostRuntime) {
    let mut sink = StdSink::new(Narrow { left: 8 });
    check!(rt; sink.put(b"7 bytes").is_ok());
    check!(rt; sink.put(b"more").is_err());
    check_eq!(rt; sink.faults(), 1);
}

/// A file that takes no bytes but those of its first write, and counts its syncs, one of which
/// fails.
#[derive(Drop)]
struct CountedFile<'a> {
    full: bool,
    syncs: &'a Cell<u32>,
    failing: u32,
}

impl Write for CountedFile<'_> {
    fn write(&mut self, buf: &[u8]) -> io::Result<usize> {
        if self.full {
            return Ok(0);
        }
        self.full = true;
        Ok(buf.len())
    }

    fn flush(&mut self) -> io::Result<()> {
        Ok(())
    }
}

impl OpenFile for CountedFile<'_> {
    fn metadata(&self) -> io::Result<Metadata> {
        Err(ErrorKind::Unsupported.into())
    }

    fn set_len(&self, _size: u64) -> io::Result<()> {
        Err(ErrorKind::Unsupported.into())
    }

    fn sync_all(&self) -> io::Result<()> {
        Err(ErrorKind::Unsupported.into())
    }

    fn sync_data(&self) -> io::Result<()> {
        self.syncs.set(self.syncs.get().saturating_add(1));
        if self.syncs.get() == self.failing {
            return Err(ErrorKind::Other.into());
        }
        Ok(())
    }
}

#[test]
fn log_over_a_file_is_synced_after_a_fault(rt: HostRuntime) {
    let syncs = Cell::new(0);
    let mut log = FileLog::new(CountedFile {
        full: false,
        syncs: &syncs,
        failing: 2,
    });
    check_eq!(rt;
        (log.append(b"taken"), log.append(b"left")),
        (Ok(()), Err(Failed))
    );
    check_eq!(rt; (log.sync(), syncs.get()), (Ok(()), 1));
    check_eq!(rt; (log.sync(), syncs.get()), (Err(Failed), 2));
    check_eq!(rt; (log.sync(), syncs.get()), (Ok(()), 3));
    check_eq!(rt; log.faults(), 2);
}

/// What a call answers that has room for three bytes, and what these then are.
fn take_three(source: &mut impl Source) -> (Result<usize, Failed>, [u8; 3]) {
    let mut piece = [0; 3];
    let answer = source.next(&mut piece);
    (answer, piece)
}

#[test]
fn source_in_memory(rt: HostRuntime) -> Result<(), Fail> {
    let alloc = rt.alloc();
    let calls = FaultPlan::new(vec![in alloc; 2u64; 1]?);
    let bytes = b"abcde".as_slice().to_vec(alloc)?;
    let mut source = MemSource::new(bytes, 2, calls);
    check_eq!(rt; take_three(&mut source), (Ok(2), *b"ab\0"));
    check_eq!(rt; take_three(&mut source), (Err(Failed), [0; 3]));
    check_eq!(rt; take_three(&mut source), (Ok(2), *b"cd\0"));
    check_eq!(rt; take_three(&mut source), (Ok(1), *b"e\0\0"));
    check_eq!(rt; take_three(&mut source), (Ok(0), [0; 3]));
    check_eq!(rt; source.faults(), 1);
    Ok(())
}

/// A reader that gives two bytes a call, and whose second call fails.
#[derive(Drop)]
struct Faulty {
    calls: u32,
}

impl Read for Faulty {
    fn read(&mut self, buf: &mut [u8]) -> io::Result<usize> {
        self.calls = self.calls.saturating_add(1);
        if self.calls == 2 {
            return Err(ErrorKind::Other.into());
        }
        let count = buf.len().min(2);
        buf[..count].fill(b'x');
        Ok(count)
    }
}

#[test]
fn source_over_a_reader(rt: HostRuntime) {
    let mut source = FileSource::new(Faulty { calls: 0 });
    check_eq!(rt; take_three(&mut source), (Ok(2), *b"xx\0"));
    check_eq!(rt; take_three(&mut source), (Err(Failed), [0; 3]));
    check_eq!(rt; take_three(&mut source), (Ok(2), *b"xx\0"));
    check_eq!(rt; source.faults(), 1);
}
