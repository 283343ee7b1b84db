//! What a table is built of.
ghost use Rattle.std.specs.Prelude.{◌≡◌, ◌+◌, ◌<◌, Vec, ◌≤◌, List, [], ◌∷◌, ◌++◌, length, replicate, vec_len, vec_capacity, IfOk};
ghost use Rattle.std.specs.Global.{Global};
ghost use Rattle.page_core.specs.State.{zero_page};
ghost use Rattle.table_rule.specs.declared.noted_log.NotedLog.{NotedLog};
ghost use Rattle.table_rule.specs.declared.value.Value.{Value};
ghost use Rattle.table_rule.specs.declared.value.Value.TheVariants as value;
ghost use Rattle.table_rule.specs.Layout.{slot_count};
ghost use Rattle.table_rule.specs.Laid.{AddsMaps, AreBlank, AreFresh, AreOpening, AreSlots, EndsWith, HasNoDevices, IsRoom, home_lanes, lanes_among};

use crate::layout::{COUNTERS, HINTS_PER_FRAME, LOG_PLACE};
use crate::noted_lane::NotedLane;
use crate::noted_log::{NotedLog, RECORD_SIZE};
use crate::value::{Mapped, Value};
use block_tag::PARTITIONS;
use page_layout::Page;
use std::alloc::{AllocError, AllocFailed, Global};

/// Memory that a table takes once: the pages of its frames, the maps of its partitions, and a
/// record of its log.
#[derive(Drop)]
pub struct Room {
    pages: Vec<Page>,
    maps: Vec<Vec<Mapped>>,
    buffer: Vec<u8>,
}

/// The words of frames without pins and tags.
fn blank_words(alloc: Global, frames: u32) -> Result<Vec<u64>, AllocError>
    ensures { IfOk result (λ v. AreBlank v.items frames) }
{
    let mut words = Vec::new(alloc);
    for _ in 0..frames {
        words.extend_from_slice(&[0, u64::MAX, 0, 0, 0, 0, 0, 0])?;
    }
    Ok(words)
}

/// Adds words that are 0.
fn add_zeros(words: &mut Vec<u64>, count: usize) -> Result<(), AllocError>
    ensures { IfOk result (λ _. words.new.items ≡ words.old.items ++ replicate count 0) }
{
    for _ in 0..count {
        words.push(0)?;
    }
    Ok(())
}

/// The words at the start.
pub fn opening_words(alloc: Global, frames: u32, base: u64) -> Result<Vec<u64>, AllocError>
    ensures { IfOk result (λ v. AreOpening v.items frames base) }
{
    let mut words = blank_words(alloc, frames)?;
    add_zeros(&mut words, LOG_PLACE + 1)?;
    words.push(base)?;
    words.push(base)?;
    words.push(0)?;
    words.push(base)?;
    add_zeros(
        &mut words,
        COUNTERS as usize + HINTS_PER_FRAME as usize * frames as usize,
    )?;
    Ok(words)
}

/// Pages of zeros.
fn zero_pages(alloc: Global, frames: u32) -> Result<Vec<Page>, AllocError>
    ensures { IfOk result (λ v. v.items ≡ replicate frames zero_page) }
{
    let mut pages = Vec::new(alloc);
    for _ in 0..frames {
        pages.push(Page::zeroed(alloc)?)?;
    }
    Ok(pages)
}

/// Puts a value into a list that has room.
pub(crate) fn put<T>(list: &mut Vec<T>, value: T)
    requires { vec_len list.old < vec_capacity list.old }
    ensures items { list.new.items ≡ list.old.items ++ value ∷ [] }
    ensures room { vec_capacity list.old ≤ vec_capacity list.new }
{
    if let Err(AllocFailed { value: _value }) = list.push(value) {
        unreachable!()
    }
}

fn put_pages<L, G>(slots: &mut Vec<Value<L, G>>, mut pages: Vec<Page>)
    requires room { vec_len slots.old + vec_len pages ≤ vec_capacity slots.old }
    requires zero { pages.items ≡ replicate (vec_len pages) zero_page }
    ensures items { slots.new.items ≡ slots.old.items ++ replicate (vec_len pages)
        (value.Page zero_page) }
    ensures room { vec_capacity slots.old ≤ vec_capacity slots.new }
{
    while let Some(page) = pages.pop() {
        put(slots, Value::Page(page));
    }
}

/// Empty maps, each with room for all frames.
fn fresh_maps(alloc: Global, frames: usize) -> Result<Vec<Vec<Mapped>>, AllocError>
    ensures { IfOk result (λ v. (vec_len v ≡ 128) × AreFresh frames v.items) }
{
    let mut maps = Vec::new(alloc);
    for _ in 0..PARTITIONS {
        maps.push(Vec::with_capacity(alloc, frames)?)?;
    }
    Ok(maps)
}

fn put_maps<L, G>(slots: &mut Vec<Value<L, G>>, mut maps: Vec<Vec<Mapped>>, _frames: usize)
    requires room { vec_len slots.old + vec_len maps ≤ vec_capacity slots.old }
    requires fresh { AreFresh _frames maps.items }
    ensures items { AddsMaps _frames (vec_len maps) slots.old.items slots.new.items }
    ensures room { vec_capacity slots.old ≤ vec_capacity slots.new }
{
    while let Some(map) = maps.pop() {
        put(slots, Value::Map(map));
    }
}

/// Each lane has the number of its place in the list. The list is empty then, with room for them.
fn put_lanes<L, G>(slots: &mut Vec<Value<L, G>>, lanes: &mut Vec<L>)
    requires room { vec_len slots.old + vec_len lanes.old ≤ vec_capacity slots.old }
    requires few { vec_len lanes.old ≤ 16 }
    ensures items { slots.new.items ≡ slots.old.items ++ home_lanes 0 lanes.old.items }
    ensures counted { vec_len slots.new ≡ vec_len slots.old + vec_len lanes.old }
    ensures room { vec_capacity slots.old ≤ vec_capacity slots.new }
    ensures empty { (lanes.new.items ≡ []) × (vec_len lanes.old ≤ vec_capacity lanes.new) }
{
    lanes.reverse();
    let mut number = 0;
    while let Some(lane) = lanes.pop() {
        put(slots, Value::Lane(NotedLane::new(number, lane)));
        number += 1;
    }
}

fn put_aways<L, G>(slots: &mut Vec<Value<L, G>>, count: usize)
    requires { vec_len slots.old + count ≤ vec_capacity slots.old }
    ensures items { slots.new.items ≡ slots.old.items ++ replicate count value.Away }
    ensures room { vec_capacity slots.old ≤ vec_capacity slots.new }
{
    for _ in 0..count {
        put(slots, Value::Away);
    }
}

impl Room {
    /// The memory of a table of so many frames.
    pub fn take(alloc: Global, frames: u32) -> Result<Room, AllocError>
        ensures { IfOk result (IsRoom frames) }
    {
        Ok(Room {
            pages: zero_pages(alloc, frames)?,
            maps: fresh_maps(alloc, frames as usize)?,
            buffer: Vec::with_capacity(alloc, RECORD_SIZE as usize)?,
        })
    }

    /// The slots at the start.
    pub fn lay<L, G>(self, slots: &mut Vec<Value<L, G>>, mut lanes: Vec<L>, log: G, _frames: u32)
        requires room { (slots.old.items ≡ []) × (slot_count _frames ≤ vec_capacity slots.old) }
        requires laid { IsRoom _frames self }
        requires few { vec_len lanes ≤ 16 }
        ensures { AreSlots _frames lanes.items log slots.new.items }
    {
        let Room {
            pages,
            maps,
            buffer,
        } = self;
        let aways = 16 - lanes.len();
        put_pages(slots, pages);
        put_maps(slots, maps, _frames as usize);
        put_lanes(slots, &mut lanes);
        put_aways(slots, aways);
        put(slots, Value::Log(NotedLog::new(log, buffer)));
        put(slots, Value::Lanes(lanes));
    }
}

/// The lanes among the slots come back into their list.
fn take_lanes<L, G>(mut slots: Vec<Value<L, G>>, lanes: &mut Vec<L>)
    requires plain { HasNoDevices slots.items }
    requires room { (lanes.old.items ≡ []) × (length (lanes_among slots.items)
        ≤ vec_capacity lanes.old) }
    ensures { lanes.new.items ≡ lanes_among slots.items }
{
    while let Some(value) = slots.pop() {
        match value {
            Value::Page(page) => drop(page),
            Value::Map(map) => drop(map),
            Value::Away => {}
            Value::Lane(lane) => put(lanes, lane.into_device()),
            Value::Log(_other) => unreachable!(),
            Value::Lanes(_other) => unreachable!(),
        }
    }
    slots.destroy_empty();
    lanes.reverse();
}

/// The devices come back out of the slots.
pub fn take_back<L, G>(mut slots: Vec<Value<L, G>>) -> (Vec<L>, G)
    requires { (g : NotedLog G) × (list : Vec L Global) × EndsWith g list slots.items
        × (list.items ≡ []) × (length (lanes_among slots.items) ≤ vec_capacity list) }
    ensures { (g : NotedLog G) × (list : Vec L Global) × EndsWith g list slots.items
        × (result.0.items ≡ lanes_among slots.items) × (result.1 ≡ g.device) }
{
    let mut lanes = match slots.pop() {
        Some(Value::Lanes(lanes)) => lanes,
        Some(_other) => unreachable!(),
        None => unreachable!(),
    };
    let log = match slots.pop() {
        Some(Value::Log(log)) => log.into_device(),
        Some(_other) => unreachable!(),
        None => unreachable!(),
    };
    take_lanes(slots, &mut lanes);
    (lanes, log)
}
