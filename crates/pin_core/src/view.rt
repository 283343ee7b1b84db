//! What a backend knows. No value of these types is made: contracts read them. An array of length 0
//! reads there as a list of any length, and a page as the list of its bytes.
use state_word::StateWord;

/// A backend's pin of a frame.
pub enum Role {
    /// It has none.
    Absent,
    /// One for the backend's callers: the frame has a tag and keeps it.
    HandedOut,
    /// One under which the backend looks for a victim (`GetVictimBuffer`): the tag may go.
    Victim,
}

/// A backend's content lock.
pub enum Content {
    /// It has none.
    Unlocked,
    /// It shares the lock (`LW_SHARED`).
    Shared,
    /// It has the lock exclusively (`LW_EXCLUSIVE`).
    Exclusive,
}

/// What a backend has begun to do with a frame's page and its lane (`StartBufferIO`).
pub enum Io {
    /// Nothing.
    Quiet,
    /// It reads the page: the input right.
    Input,
    /// It writes the page: the output right.
    Output,
}

/// How the last lane write under an output right went.
pub enum LastWrite {
    /// There was none.
    Unwritten,
    /// It was done.
    Done,
    /// It failed.
    Failed,
}

/// What a backend has at one frame.
/// By its form a view could hold headers, victim pins, I/O rights or unapplied entries at several
/// frames. The conditions of the kinds allow one of each; no law says so.
pub struct Link {
    /// The backend's pin.
    pub role: Role,
    /// The tag that the pin remembers; none if it wasn't read.
    pub tag: Option<u64>,
    /// The pin saw `BM_VALID`.
    pub seen_valid: bool,
    /// The pin was made for a ring.
    pub ring: bool,
    /// The word of the buffer header that the backend has locked.
    pub header: Option<StateWord>,
    /// Under that header the tag word was stored, and the frame is neither assigned nor cleared
    /// yet.
    pub pending: bool,
    /// The backend's content lock.
    pub content: Content,
    /// Among the sharers the backend is the one that may take the page out to copy it.
    pub copying: bool,
    /// Under this exclusive lock the frame was marked dirty.
    pub dirtied: bool,
    /// Under this exclusive lock an entry was made.
    pub entered: bool,
    /// The entry of the new page is in the log, and not yet applied to the page.
    pub unapplied: bool,
    /// The page that this entry makes.
    pub image: Option<[u8; 0]>,
    /// The page as the backend copied it under this content lock.
    pub copied: Option<[u8; 0]>,
    /// The backend's input or output right.
    pub io: Io,
    /// The page that the lane gave under this input right.
    pub read: Option<[u8; 0]>,
    /// The page that was read is the frame's page, and that is in its place.
    pub read_is_home: bool,
    /// How the last lane write under this output right went.
    pub last_write: LastWrite,
    /// The frame's page is out with the backend, and this is what it was when it went out.
    pub out: Option<[u8; 0]>,
    /// What the page that is out was overwritten with.
    pub overwritten: Option<[u8; 0]>,
    /// The number under which the backend waits here for its pin to be the only one.
    pub waits: Option<u64>,
    /// The backend's checkpoint has visited the frame.
    pub visited: bool,
    /// The frame is one that the backend's checkpoint has still to write.
    pub left_to_write: bool,
    /// The backend gave the frame the tag of its fork's next block, a new block, and the log has no
    /// record of the growth yet. On a table no fork grows yet.
    pub noted: bool,
    /// The pin knows its tag, and the backend saw that the block is below its fork's size. No call
    /// on a table looks at a fork's size yet.
    pub inside: bool,
}

/// A tag and the frame that has it.
pub struct MapEntry {
    /// The packed buffer tag.
    pub tag: u64,
    /// The frame, by its number.
    pub frame: u64,
}

/// The change of a partition's map that its holder owes since it stored a tag word.
pub enum MapChange {
    /// None.
    Stable,
    /// The pair is to be entered.
    Entering { tag: u64, frame: u64 },
    /// The pair is to be left out.
    Leaving { tag: u64, frame: u64 },
}

/// What a backend has of a partition's latch.
pub struct PartitionHold {
    /// The backend has the latch.
    pub held: bool,
    /// The pair that the backend named when it stored a tag word, until the map is back with it.
    pub change: MapChange,
    /// The map is out with the backend, and this is what it was when it went out.
    pub out: Option<[MapEntry; 0]>,
    /// The one change of the map under this latch is made.
    pub changed: bool,
    /// The map's entries, as the backend saw them last under this latch, with no change made since.
    pub seen: Option<[MapEntry; 0]>,
}

/// A block, by its tag, its page, and whether its last write failed.
pub struct BlockPage {
    /// The block's packed tag.
    pub tag: u64,
    /// The block's page.
    pub page: [u8; 0],
    /// The block's last write failed.
    pub failed: bool,
}

/// A block, by its tag, and whether it was written since its lane's last sync.
pub struct BlockMark {
    /// The block's packed tag.
    pub tag: u64,
    /// The block was written since its lane's last sync.
    pub unsynced: bool,
}

/// The one call of a lane that a backend made while the lane was out.
pub enum LaneChange {
    /// None was made.
    Untouched,
    /// A read of the block gave this page.
    Read { tag: u64, page: [u8; 0] },
    /// A read of the block failed.
    ReadFailed { tag: u64 },
    /// The frame's page was written to its block.
    Written { frame: u64, tag: u64, page: [u8; 0] },
    /// A write of the frame's page to its block failed.
    WriteFailed { frame: u64, tag: u64 },
    /// A sync was done.
    Synced,
    /// A sync failed.
    SyncFailed,
}

/// What a lane was when it went out.
pub struct TakenLane {
    /// Its blocks, if the contents are known.
    pub pages: Option<[BlockPage; 0]>,
    /// The blocks that lie there, whether or not the contents are known, with a mark at those
    /// written since its last sync.
    pub marks: [BlockMark; 0],
    /// How many reads had failed.
    pub read_faults: u64,
    /// How many writes and syncs had failed.
    pub write_faults: u64,
    /// How many calls had been made of it.
    pub calls: u64,
}

/// What a backend has of a lane's latch.
pub struct LaneHold {
    /// The backend has the latch.
    pub held: bool,
    /// The lane is out with the backend, and this is what it was when it went out.
    pub out: Option<TakenLane>,
    /// The call that the backend made while the lane is out.
    pub change: LaneChange,
    /// The flushed position as the backend had loaded it when the lane went out.
    pub flushed: u64,
    /// The largest position where a checkpoint of the backend began that had nothing left to write
    /// as the backend synced the lane, or 0.
    pub swept: u64,
}

/// The one call of the log that a backend made while the log was out.
pub enum LogChange {
    /// None was made.
    Untouched,
    /// A record with this new page of the frame's block was appended.
    Appended { frame: u64, tag: u64, page: [u8; 0] },
    /// An append failed.
    AppendFailed,
    /// A sync was done.
    Synced,
    /// A sync failed.
    SyncFailed,
}

/// What the log's device was when it went out.
pub struct TakenLog {
    /// Its bytes, if the contents are known.
    pub bytes: Option<[u8; 0]>,
    /// How many of the bytes were durable.
    pub synced: u64,
    /// How many appends and syncs had failed.
    pub faults: u64,
    /// How many calls had been made of it.
    pub calls: u64,
    /// If the log was down, its end at the failure.
    pub down: Option<u64>,
}

/// What a backend has of the log's latch.
pub struct LogHold {
    /// The backend has the latch.
    pub held: bool,
    /// The device is out with the backend, and this is what it was when it went out.
    pub out: Option<TakenLog>,
    /// The call that the backend made while the device is out.
    pub change: LogChange,
    /// Under this latch a record was appended, and the log end not stored yet.
    pub appended: Option<[u8; 0]>,
    /// Under this latch a sync was done.
    pub synced: bool,
    /// The log's end as it was loaded or stored under this latch.
    pub end: Option<u64>,
    /// The redo position (`RedoRecPtr`) as it was loaded under this latch, and not raised since. No
    /// call of a manager loads it yet.
    pub redo: Option<u64>,
}

/// A backend's right on the size of a fork.
pub enum SizeRight {
    /// The backend has none.
    Unheld,
    /// The fork keeps its size.
    Shared,
    /// The backend alone may change it (as under `LockRelationForExtension`; for a cut
    /// `AccessExclusiveLock`).
    Exclusive,
}

/// A change of a fork's size that is in the log.
pub struct Resize {
    /// The new size.
    pub blocks: u64,
    /// Where its record ends.
    pub end: u64,
    /// Whether the fork lost blocks.
    pub cut: bool,
}

/// What a backend has of a fork's size. No call on a table takes a right on one yet.
pub struct SizeHold {
    /// The fork, by its number.
    pub fork: u64,
    /// The backend's right on the size.
    pub right: SizeRight,
    /// The size that the backend found as it got the right.
    pub blocks: u64,
    /// The size to which the backend is to cut the fork, once it has passed a frame for that.
    pub cut_to: Option<u64>,
    /// The frames that it has passed: each with no tag of a block that the cut takes away.
    pub passed: [u64; 0],
    /// The change that it made under this right.
    pub made: Option<Resize>,
    /// Whether the size word has the new size.
    pub stored: bool,
}

/// The two positions that decide whether a page is logged whole (`needs_backup` in
/// `XLogRecordAssemble`).
pub struct ImageTest {
    /// The redo position, as the backend had loaded it under the log's latch.
    pub redo: u64,
    /// The page's position in the log before the write.
    pub before: u64,
}

/// The record of a write.
pub struct WriteRecord {
    /// How many bytes of the log it takes.
    pub size: u64,
    /// The two positions, if the backend had both as it made the record.
    pub test: Option<ImageTest>,
}

/// What a backend read or wrote, of a page or of a fork's size, and its place in the log.
pub enum Call {
    /// The backend read a page.
    Read {
        backend: u64,
        tag: u64,
        page: [u8; 0],
        place: u64,
    },
    /// The backend wrote a page.
    Write {
        backend: u64,
        tag: u64,
        page: [u8; 0],
        place: u64,
        /// Its record in the log.
        logged: WriteRecord,
    },
    /// The backend changed how many blocks a fork has. No call on a table does yet.
    Size {
        backend: u64,
        fork: u64,
        blocks: u64,
        place: u64,
    },
    /// The backend saw how many blocks a fork has. No call on a table does yet.
    Sized {
        backend: u64,
        fork: u64,
        blocks: u64,
        place: u64,
    },
}

/// A word as a load saw it.
pub enum LoadedWord {
    /// A frame's state word.
    State {
        frame: u64,
        word: StateWord,
    },
    /// A frame's tag word.
    Tag {
        frame: u64,
        tag: u64,
    },
    /// A frame's content word.
    Content {
        frame: u64,
        sharers: u64,
        exclusive: bool,
        copying: bool,
    },
    /// The log's end.
    LogEnd {
        end: u64,
    },
    /// The flushed position.
    Flushed {
        flushed: u64,
    },
    /// The redo position.
    Redo {
        redo: u64,
    },
    /// The hand of the clock sweep.
    Hand {
        hand: u64,
    },
    /// A counter of reads, writes and evictions.
    Count {
        count: u64,
        value: u64,
    },
    /// A fork's size word.
    Size {
        fork: u64,
        blocks: u64,
    },
    /// A hint word.
    Hint {
        number: u64,
        value: u64,
    },
}

/// One load, with what the backend had done and pinned by then.
pub struct Load {
    /// The word, as the load saw it.
    pub loaded_word: LoadedWord,
    /// For each frame, whether the backend pinned it.
    pub pins: [bool; 0],
    /// How many steps other than loads the backend had made.
    pub steps: u64,
}

/// One change of a frame's state word: the word as the backend found it, and as it left it.
pub struct WordChange {
    /// The frame, by its number.
    pub frame: u64,
    /// The word as the backend found it.
    pub found: StateWord,
    /// The word as the backend left it.
    pub left: StateWord,
}

/// One store of a hint word: which word it is, what the backend found there, and what it left.
pub struct HintStore {
    /// The hint word, by its number.
    pub number: u64,
    /// What the backend found there.
    pub found: u64,
    /// What the backend left there.
    pub left: u64,
}

/// One addition to a counter of the table: to which, and how much.
pub struct Published {
    /// The counter, by its number.
    pub count: u64,
    /// How much was added.
    pub more: u64,
}

/// A frame and a tag with which a pin of it has seen `BM_VALID`.
pub struct Resident {
    /// The frame, by its number.
    pub frame: u64,
    /// The tag that the pin remembered.
    pub tag: u64,
    /// A later load by this backend showed the frame without `BM_VALID`, or with another tag word.
    pub gone: bool,
}

/// One call of a device, and whether it was done.
pub enum DeviceCall {
    /// A read of a block from its lane.
    LaneRead {
        lane: u64,
        tag: u64,
        done: bool,
    },
    /// A write of a block to its lane.
    LaneWrite {
        lane: u64,
        tag: u64,
        page: [u8; 0],
        done: bool,
    },
    /// A sync of a lane.
    LaneSync {
        lane: u64,
        done: bool,
    },
    /// An append to the log.
    LogAppend {
        done: bool,
    },
    /// A sync of the log.
    LogSync {
        done: bool,
    },
}

/// How many device calls failed, by the part that failed.
pub struct FailedCalls {
    /// How many reads of lanes failed.
    pub reads: u64,
    /// How many writes and syncs of lanes failed.
    pub writes: u64,
    /// How many appends and syncs of the log failed.
    pub logs: u64,
}

/// A checkpoint of a backend that was joined into another.
pub struct JoinedCheckpoint {
    /// The number of the backend that was joined.
    pub number: u64,
    /// The log end at which the checkpoint began, or 0.
    pub upto: u64,
    /// For each frame, whether it was visited.
    pub visited: [bool; 0],
    /// For each frame, whether it is one that has still to be written.
    pub left_to_write: [bool; 0],
    /// For each lane, the largest position where a checkpoint began that had nothing left to write
    /// as the lane was synced, or 0.
    pub swept: [u64; 0],
}

/// The record of a page that an append failed to add: the block, by its tag, and the page.
pub struct TornRecord {
    /// The block's packed tag.
    pub tag: u64,
    /// The page that the record has.
    pub page: [u8; 0],
}

/// What one backend knows and has done.
pub struct View {
    /// The backend's number.
    pub number: u64,
    /// For the first backend: the next number to give.
    pub next: u64,
    /// For the first backend: how many backends were joined into it.
    pub joined: u64,
    /// What is left of a backend that was joined into the first.
    pub emptied: bool,
    /// One for each frame.
    pub links: [Link; 0],
    /// One for each partition of the mapping table.
    pub partitions: [PartitionHold; 0],
    /// One for each lane.
    pub lanes: [LaneHold; 0],
    /// One for each fork on whose size the backend has a right. No call on a table takes one yet.
    pub sizes: [SizeHold; 0],
    /// What the backend has of the log's latch.
    pub log: LogHold,
    /// The flushed position as last loaded; where the log begins, before the first load.
    pub flushed: u64,
    /// The largest position to which the backend raised the flushed position; where the log begins,
    /// before that.
    pub raised_to: u64,
    /// The positions to which the backend raised the redo position, in order. No call of a manager
    /// raises it yet.
    pub redo_raised: [u64; 0],
    /// The largest log end that the backend loaded, or stored with an entry; where the log begins,
    /// before the first.
    pub end_seen: u64,
    /// The blocks whose frame was marked dirty under an exclusive lock that was given up with no
    /// entry made, by their tags.
    pub unentered: [u64; 0],
    /// The records that the backend failed to append, in order: the log's device has at most the
    /// first bytes of each.
    pub torn: [TornRecord; 0],
    /// The pages read and written, in order.
    pub calls: [Call; 0],
    /// The largest place of the calls; where the log begins, if there are none.
    pub front: u64,
    /// How many loads of the log end gave a read its place.
    pub place_loads: u64,
    /// How many steps other than loads the backend made.
    pub steps: u64,
    /// How many times it took the latch of a partition.
    pub turns: u64,
    /// How many times it moved the clock's hand on.
    pub ticks: u64,
    /// How many tags it erased.
    pub cleared: u64,
    /// The loads, in order.
    pub loads: [Load; 0],
    /// The changes of state words, in order.
    pub changes: [WordChange; 0],
    /// The stores of hint words, in order.
    pub hints: [HintStore; 0],
    /// What it added to the counters of the table, in order.
    pub published: [Published; 0],
    /// The blocks that it has seen in frames.
    pub residents: [Resident; 0],
    /// The log end at which the backend's checkpoint began, or 0.
    pub upto: u64,
    /// The checkpoints of the backends that were joined into this one.
    pub joined_checkpoints: [JoinedCheckpoint; 0],
    /// The calls of devices, in order.
    pub device_calls: [DeviceCall; 0],
    /// The calls of devices that failed, as the backend counted them.
    pub met: FailedCalls,
    /// Under the log's latch the backend saw the log down, or saw its own call fail.
    pub saw_down: bool,
    /// The backend has marked a frame dirty, or called a lane's sync.
    pub dirtied_or_synced: bool,
    /// The backend has had an output right.
    pub had_output: bool,
    /// The word that the end of its last input or output stored.
    pub last_ended: Option<StateWord>,
}
