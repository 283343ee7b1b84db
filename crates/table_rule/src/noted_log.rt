//! The log while it is out.
//!
//! The log goes out with its mark and room for one record. If its contents aren't known, a failed
//! append counts as having added nothing, a failed sync as having made nothing durable. The log end
//! is stored for the page whose record was appended.
ghost use Rattle.std.specs.Prelude.{◌≡◌, ◌+◌, ◌≤◌, ◌++◌, length, vec_len, vec_capacity, None, Some, MatchResult};
ghost use Rattle.byteorder.specs.Endian.{little_bytes};
ghost use Rattle.history_core.specs.Log.{record_size};
ghost use Rattle.table_rule.specs.Blocks.{block_name};
ghost use Rattle.table_rule.specs.LogCalls.{IsAppended, IsFailedAppend, LogDid, block_record};
ghost use Rattle.table_rule.specs.declared.noted_log.LogCall.TheVariants as log_call;

use block_tag::{RelEntry, Tag};
use byte_devices::{Failed, LogDevice};
use byteorder::{ByteOrder, LittleEndian};
use page_layout::{Lsn, Page};
use std::snapshot::Snapshot;

/// How many bytes of the log the record of a page takes. No record takes more.
pub const RECORD_SIZE: Lsn = 8224;

/// The greatest position that a log may reach.
pub const LAST_POSITION: Lsn = 1 << 62;

/// The kind of a record of a page.
const PAGE_RECORD: u32 = 1;

/// The one call of the log that was made since it went out. The pages and the bytes stand here for
/// clauses alone.
#[derive(Drop)]
pub enum LogCall {
    Untouched,
    /// The record of this page of a frame's block was appended.
    Appended {
        frame: u32,
        tag: Tag,
        page: Snapshot<Page>,
        bytes: Snapshot<Vec<u8>>,
    },
    AppendFailed {
        frame: u32,
        tag: Tag,
        page: Snapshot<Page>,
        bytes: Snapshot<Vec<u8>>,
    },
    Synced,
    SyncFailed,
}

/// The log, and the call of it that was made since it went out.
pub struct NotedLog<G> {
    device: G,
    /// Once a call has failed, the log is down for good: this is the log's end as it was then.
    down: Option<u64>,
    /// Room for one record.
    buffer: Vec<u8>,
    call: LogCall,
}

/// Appends bytes to a buffer that has room.
fn put_bytes(buffer: &mut Vec<u8>, bytes: &[u8])
    requires { vec_len buffer.old + length bytes.now ≤ vec_capacity buffer.old }
    ensures items { buffer.new.items ≡ buffer.old.items ++ bytes.now }
    ensures room { vec_capacity buffer.old ≤ vec_capacity buffer.new }
{
    if buffer.extend_from_slice(bytes).is_err() {
        unreachable!()
    }
}

/// A number, in 4 bytes.
fn put_u32(buffer: &mut Vec<u8>, number: u32)
    requires { vec_len buffer.old + 4 ≤ vec_capacity buffer.old }
    ensures items { buffer.new.items ≡ buffer.old.items ++ little_bytes 4 number }
    ensures room { vec_capacity buffer.old ≤ vec_capacity buffer.new }
{
    let mut bytes = [0; 4];
    LittleEndian::write_u32(&mut bytes, number);
    put_bytes(buffer, &bytes);
}

/// A number, in 8 bytes.
fn put_u64(buffer: &mut Vec<u8>, number: u64)
    requires { vec_len buffer.old + 8 ≤ vec_capacity buffer.old }
    ensures items { buffer.new.items ≡ buffer.old.items ++ little_bytes 8 number }
    ensures room { vec_capacity buffer.old ≤ vec_capacity buffer.new }
{
    let mut bytes = [0; 8];
    LittleEndian::write_u64(&mut bytes, number);
    put_bytes(buffer, &bytes);
}

/// The name of a block.
fn put_name(buffer: &mut Vec<u8>, entry: RelEntry, tag: Tag)
    requires { vec_len buffer.old + 20 ≤ vec_capacity buffer.old }
    ensures items { buffer.new.items ≡ buffer.old.items ++ block_name entry tag }
    ensures room { vec_capacity buffer.old ≤ vec_capacity buffer.new }
{
    put_u32(buffer, entry.tablespace);
    put_u32(buffer, entry.database);
    put_u32(buffer, entry.relation);
    put_u32(buffer, tag.fork.number());
    put_u32(buffer, tag.block);
}

impl<G> NotedLog<G> {
    /// A log that is up and wasn't called, with room for a record.
    pub(crate) fn new(device: G, buffer: Vec<u8>) -> NotedLog<G>
        ensures { result ≡ record {
          device = device;
          down = None;
          buffer = buffer;
          call = log_call.Untouched;
        } }
    {
        NotedLog {
            device,
            down: None,
            buffer,
            call: LogCall::Untouched,
        }
    }

    /// The log itself.
    pub(crate) fn into_device(self) -> G
        ensures { result ≡ self.device }
    {
        let NotedLog {
            device,
            down: _down,
            buffer: _buffer,
            call: _call,
        } = self;
        device
    }

    /// Where the log ended as a call of it failed; None while none has.
    pub fn down(&self) -> Option<u64>
        ensures { result ≡ self.now.down }
    {
        self.down
    }

    /// The log without the note of a call.
    pub fn without_call(mut self) -> NotedLog<G>
        ensures { result ≡ record self { call = log_call.Untouched } }
    {
        self.call = LogCall::Untouched;
        self
    }

    /// Fills the buffer with the record of a block's page, which starts at this position of the log
    /// (`XLogInsert`).
    pub fn write_record(&mut self, entry: RelEntry, tag: Tag, start: u64, page: &Page)
        requires { record_size ≤ vec_capacity self.old.buffer }
        ensures record { self.new.buffer.items ≡ block_record entry tag start page.now }
        ensures room { vec_capacity self.old.buffer ≤ vec_capacity self.new.buffer }
        ensures device { self.new.device ≡ self.old.device }
        ensures down { self.new.down ≡ self.old.down }
        ensures call { self.new.call ≡ self.old.call }
    {
        let buffer = &mut self.buffer;
        buffer.clear();
        put_u32(buffer, PAGE_RECORD);
        put_name(buffer, entry, tag);
        put_u64(buffer, start);
        put_bytes(buffer, page.bytes());
    }
}

impl<G: LogDevice> NotedLog<G> {
    /// Notes a call that failed: the log is down from then on.
    fn fail(&mut self, call: LogCall, end: u64)
        ensures { self.new ≡ record self.old { call = call; down = Some end } }
    {
        self.call = call;
        self.down = Some(end);
    }

    /// Appends the record in the buffer, for this page of a frame's block. If that fails the log is
    /// down, with its end.
    pub fn append(&mut self, frame: u32, tag: Tag, page: &Page, end: u64) -> Result<(), Failed>
        requires untouched { self.old.call ≡ log_call.Untouched }
        requires up { self.old.down ≡ None }
        ensures did { LogDid G.bytes G.synced G.faults G.calls self.old.device self.new.device
            self.new.call }
        ensures call { MatchResult result (λ _. IsAppended frame tag page.now self.old.buffer.items
            self.new.call) (λ _. IsFailedAppend frame tag page.now self.old.buffer.items
            self.new.call) }
        ensures down { MatchResult result (λ _. self.new.down ≡ None)
            (λ _. self.new.down ≡ Some end) }
        ensures buffer { self.new.buffer ≡ self.old.buffer }
    {
        let page = Snapshot::of(page);
        let bytes = Snapshot::of(&self.buffer);
        let result = self.device.append(&self.buffer);
        if result.is_ok() {
            self.call = LogCall::Appended {
                frame,
                tag,
                page,
                bytes,
            };
        } else {
            let call = LogCall::AppendFailed {
                frame,
                tag,
                page,
                bytes,
            };
            self.fail(call, end);
        }
        result
    }

    /// Makes what was appended durable (`issue_xlog_fsync`). If that fails the log is down, with
    /// its end.
    pub fn sync(&mut self, end: u64) -> Result<(), Failed>
        requires untouched { self.old.call ≡ log_call.Untouched }
        requires up { self.old.down ≡ None }
        ensures did { LogDid G.bytes G.synced G.faults G.calls self.old.device self.new.device
            self.new.call }
        ensures call { MatchResult result (λ _. self.new.call ≡ log_call.Synced)
            (λ _. self.new.call ≡ log_call.SyncFailed) }
        ensures down { MatchResult result (λ _. self.new.down ≡ None)
            (λ _. self.new.down ≡ Some end) }
        ensures buffer { self.new.buffer ≡ self.old.buffer }
    {
        let result = self.device.sync();
        if result.is_ok() {
            self.call = LogCall::Synced;
        } else {
            self.fail(LogCall::SyncFailed, end);
        }
        result
    }
}
