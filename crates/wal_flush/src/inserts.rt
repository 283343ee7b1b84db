//! Inserts (`XLogInsert`).
ghost use Rattle.std.specs.Prelude.{◌≡◌, ◌≢◌, ℕ, ◌+◌, ◌≤◌, true, false, length, slice_get, slice_index, ◌<◌, Some, IfErr, IfOk, MatchResult};
ghost use Rattle.block_tag.specs.Names.{packed_tag};
ghost use Rattle.page_layout.specs.Fields.{with_lsn};
ghost use Rattle.pin_core.specs.State.{link};
ghost use Rattle.history_core.specs.Log.{record_size};
ghost use Rattle.history_core.specs.State.{last_position};
ghost use Rattle.table_rule.specs.declared.turn.Turn.TheVariants.{Log};
ghost use Rattle.table_rule.specs.Blocks.{has_block};
ghost use Rattle.frame_table.specs.Entering.{MayStoreEnd, entered_link};
ghost use Rattle.frame_table.specs.Seats.{CanTurn, IsSeat, OnlyRises, SameSeat, relations_of};
ghost use Rattle.frame_table.specs.Latches.{MayLeave};
ghost use Rattle.wal_flush.specs.Latched.{KeepsWork, as_counted, opened_log, with_torn};
ghost use Rattle.wal_flush.specs.Inserts.{AddsTorn, Appends, CanInsert, EnterRefused, Enters, InsertRefused, Inserts, InsertSeesEnd, inserted_view, refused_view};

use crate::outings::{take_end, take_log};
use atomic_table::Seat;
use block_tag::{RelEntry, Tag};
use byte_devices::LogDevice;
use frame_table::{FrameTable, Turn, Value};
use page_layout::{Lsn, Page};
use pin_core::View;
use segment_store::BlockLane;
use std::sync::Wait;
use table_rule::{LAST_POSITION, RECORD_SIZE};
use thiserror::Error;

/// Why a page was not inserted.
#[derive(Clone, Copy, PartialEq, Eq, Debug, Error)]
pub enum InsertError {
    /// A record at the log's end, which is here, would pass the last position.
    #[error("the log is full at {end}")]
    LogFull { end: Lsn },
    /// A call of the log failed before, where the log ended here.
    #[error("the log is down at {at}")]
    LogDown { at: Lsn },
    /// The append failed: the log is down from now on.
    #[error("the log failed")]
    LogFault,
}

/// The relation of a block that the table's relations have.
fn relation_of<L: BlockLane, G: LogDevice>(table: &FrameTable<L, G>, tag: Tag) -> RelEntry
    requires { has_block (relations_of table.now) tag ≡ true }
    ensures { slice_get (relations_of table.now) tag.rel.0 ≡ Some result }
{
    match table.catalog().entry(tag.rel) {
        Some(entry) => entry,
        None => unreachable!(),
    }
}

/// Says of bytes that each is below 256, and does nothing.
fn show_bytes(bytes: &[u8])
    ensures { (k : ℕ) → slice_index bytes.now k < 256 }
{}

/// The page's log position. If another one is set, this one puts the page back.
fn position_of(page: &Page) -> Lsn
    ensures size { length page.now ≡ 8192 }
    ensures restores { (lsn : ℕ) → with_lsn result (with_lsn lsn page.now) ≡ page.now }
{
    show_bytes(page.bytes());
    page.lsn()
}

/// Appends the record of the page at the log's end, and gives the page its position. If that fails
/// the page is as it was.
fn append_record<L: BlockLane, G: LogDevice>(
    table: &FrameTable<L, G>,
    seat: &mut Seat<Value<L, G>, View>,
    frame: u32,
    tag: Tag,
    page: &mut Page,
    end: Lsn,
) -> Result<(), InsertError>
    requires seat { CanTurn table.now seat.old Log }
    requires held { seat.old.me.0.log ≡ opened_log end }
    requires can { CanInsert (relations_of table.now) frame tag page.old seat.old.me.0 }
    requires room { end + record_size ≤ last_position }
    ensures seat { SameSeat seat.old seat.new }
    ensures can { IsSeat table.now seat.new }
    ensures page { MatchResult result (λ _. page.new ≡ with_lsn (end + record_size) page.old)
        (λ _. page.new ≡ page.old) }
    ensures appended { IfOk result (λ _. Appends (relations_of table.now) frame tag end page.new
        seat.old.me.0 seat.new.me.0) }
    ensures stores { IfOk result (λ _. MayStoreEnd (relations_of table.now) frame tag page.new
        (end + record_size) seat.new.me.0) }
    ensures cause { IfErr result (λ why. EnterRefused (relations_of table.now) frame tag page.old
        end why seat.old.me.0 seat.new.me.0) }
    ensures leaves { IfErr result (λ _. MayLeave Log seat.new.me.0) }
{
    let entry = relation_of(table, tag);
    let mut log = match take_log(table, seat) {
        Ok(log) => log,
        Err(at) => return Err(InsertError::LogDown { at }),
    };
    let was = position_of(page);
    page.set_lsn(end + RECORD_SIZE);
    log.write_record(entry, tag, end, page);
    let result = log.append(frame, tag, page, end);
    table.log_back(seat, log);
    match result {
        Ok(()) => Ok(()),
        Err(_failed) => {
            page.set_lsn(was);
            Err(InsertError::LogFault)
        }
    }
}

/// Enters the page at the log's end, as it was loaded under the latch.
fn enter<L: BlockLane, G: LogDevice>(
    table: &FrameTable<L, G>,
    seat: &mut Seat<Value<L, G>, View>,
    frame: u32,
    tag: Tag,
    page: &mut Page,
    end: Lsn,
) -> Result<Lsn, InsertError>
    requires seat { CanTurn table.now seat.old Log }
    requires held { seat.old.me.0.log ≡ opened_log end }
    requires can { CanInsert (relations_of table.now) frame tag page.old seat.old.me.0 }
    ensures seat { SameSeat seat.old seat.new }
    ensures can { CanTurn table.now seat.new Log }
    ensures leaves { MayLeave Log seat.new.me.0 }
    ensures page { MatchResult result (λ lsn. page.new ≡ with_lsn lsn page.old)
        (λ _. page.new ≡ page.old) }
    ensures lsn { IfOk result (λ lsn. (lsn ≡ end + record_size) × (lsn ≤ last_position)) }
    ensures entered { IfOk result (λ lsn. Enters (relations_of table.now) frame tag end page.new
        seat.old.me.0 seat.new.me.0) }
    ensures cause { IfErr result (λ why. EnterRefused (relations_of table.now) frame tag page.old
        end why seat.old.me.0 seat.new.me.0) }
{
    if end > LAST_POSITION - RECORD_SIZE {
        return Err(InsertError::LogFull { end });
    }
    append_record(table, seat, frame, tag, page, end)?;
    let lsn = end + RECORD_SIZE;
    table.store_log_end(seat, frame, lsn);
    Ok(lsn)
}

/// Inserts a page of the frame's block into the log (`XLogInsert`). It answers the position of the
/// entry's end, which the page has then (`pd_lsn`). The backend has the frame's content lock
/// exclusively, and marked the frame dirty under it; it has to apply the entry to the frame next.
///
/// It waits for the log's latch, and makes one append at most. It refuses if the log is full, then
/// if it is down, then if the append fails. After a refusal the page is as it was, and no entry was
/// made.
pub fn insert<L: BlockLane, G: LogDevice, R: Wait>(
    table: &FrameTable<L, G>,
    rt: &R,
    seat: &mut Seat<Value<L, G>, View>,
    frame: u32,
    tag: Tag,
    page: &mut Page,
) -> Result<Lsn, InsertError>
    requires seat { IsSeat table.now seat.old }
    requires free { seat.old.me.0.log.held ≡ false }
    requires can { CanInsert (relations_of table.now) frame tag page.old seat.old.me.0 }
    ensures seat { SameSeat seat.old seat.new }
    ensures rises { OnlyRises seat.old.me.0 seat.new.me.0 }
    ensures page { MatchResult result (λ lsn. page.new ≡ with_lsn lsn page.old)
        (λ _. page.new ≡ page.old) }
    ensures view { IfOk result (λ lsn. seat.new.me.0 ≡ as_counted
        (inserted_view frame (packed_tag tag) page.new lsn seat.old.me.0) seat.new.me.0) }
    ensures entered { IfOk result (λ _. link seat.new.me.0 frame ≡ entered_link page.new
        (link seat.old.me.0 frame)) }
    ensures others { IfOk result (λ _. (g : ℕ) → g ≢ frame
        → link seat.new.me.0 g ≡ link seat.old.me.0 g) }
    ensures work { IfErr result (λ _. KeepsWork (with_torn seat.new.me.0.torn seat.old.me.0)
        seat.new.me.0) }
    ensures torn { AddsTorn (packed_tag tag) page.old result seat.old.me.0.torn seat.new.me.0.torn }
    ensures left { IfErr result (λ why. seat.new.me.0 ≡ as_counted (refused_view why seat.old.me.0)
        seat.new.me.0) }
    ensures did { IfOk result (λ lsn. Inserts (relations_of table.now) frame tag page.new lsn
        seat.old.me.0 seat.new.me.0) }
    ensures seen { IfErr result (λ why. InsertSeesEnd why seat.old.me.0 seat.new.me.0) }
    ensures cause { IfErr result (InsertRefused (relations_of table.now) frame tag page.old
        seat.old.me.0 seat.new.me.0) }
{
    let end = take_end(table, rt, seat);
    let result = enter(table, seat, frame, tag, page, end);
    table.leave_turn(seat, Turn::Log);
    result
}
