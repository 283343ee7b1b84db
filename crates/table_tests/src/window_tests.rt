//! The window of a job's texts: in which order they go out, and what stops the job.
ghost use Rattle.std.specs.Prelude.{◌≡◌, ◌<◌, ℕ, List, Some};
ghost use Rattle.text_window.specs.Shares.{KeepsParts};

use crate::checks::check_eq;
use byte_devices::{FaultPlan, MemSink};
use std::alloc::{AllocError, Global};
use std::marker::Brand;
use std::process::Abort;
use std::sync::ledger::{Blank, Ledger};
use std::test::Fail;
use text_window::Delivery::{Delivered, Later, Stopped};
use text_window::{Delivery, Naming, Shares, Stop, Window};

/// The text of a chunk: its number, in a line.
fn line(alloc: Global, chunk: u8) -> Result<Vec<u8>, AllocError>
    requires { chunk < 5 }
{
    let mut text = Vec::new(alloc);
    text.extend_from_slice(&[b'0' + chunk, b'\n'])?;
    Ok(text)
}

/// Delivers the texts of these chunks.
fn deliver_all<N: Naming, A: Ledger>(
    alloc: Global,
    window: &mut Window<N, A, MemSink>,
    chunks: &[u8],
    mine: &mut Shares<N, A>,
) -> Result<Vec<Delivery>, AllocError>
    requires chunks { N.job.chunks ≡ 5 }
    requires texts { (p c : ℕ) (t : List ℕ) → N.texts p c t }
    requires parts { (0 < mine.old.delivered.parts) × (0 < mine.old.above.parts) }
    ensures { KeepsParts mine.old mine.new }
{
    let mut answers = Vec::new(alloc);
    for &chunk in chunks {
        if chunk < 5 {
            let mut text = line(alloc, chunk)?;
            answers.push(window.deliver(u32::from(chunk), 0, &mut text, mine))?;
        }
    }
    Ok(answers)
}

/// What a window answered, and what it gave back after the job.
#[derive(Drop)]
struct Outcome {
    answers: Vec<Delivery>,
    stopped_by: Option<u32>,
    sink: MemSink,
    stop: Option<Stop>,
}

/// These workers stop the job, and then the texts of these chunks are delivered.
fn run_over<N: Naming, A: Ledger>(
    alloc: Global,
    sink: MemSink,
    stops: &[u32],
    chunks: &[u8],
    delivered: Blank,
    above: Blank,
) -> Result<Outcome, Fail>
    requires names { (delivered.name ≡ N.name) × (above.name ≡ A.name) }
    requires parts { (delivered.parts ≡ N.parts) × (above.parts ≡ A.parts) }
    requires two { (delivered.parts ≡ 2) × (above.parts ≡ 2) }
    requires job { N.job ≡ record {
      chunks = 5;
      width = 4;
      base = 0;
      before = Some sink.bytes;
      faults = sink.faults.count;
    } }
    requires texts { (p c : ℕ) (t : List ℕ) → N.texts p c t }
{
    let (delivered, mine) = delivered.open::<N>();
    let (above, other) = above.open::<A>();
    let mut all = Shares {
        delivered: mine,
        above: other,
    };
    let mut worker = all.split();
    let Ok(mut window) = Window::build(alloc, 4, 0, sink, delivered, above) else {
        return Err(Fail::new("no memory"));
    };
    for &number in stops {
        window.stop(number);
    }
    let stopped_by = window.stopped_by();
    let answers = deliver_all(alloc, &mut window, chunks, &mut worker);
    all.merge(worker);
    let (sink, stop) = window.finish(&mut all);
    Ok(Outcome {
        answers: answers?,
        stopped_by,
        sink,
        stop,
    })
}

/// A job of five chunks, of which four texts may wait, over a sink in which these puts fail.
fn run(alloc: Global, failing: &[u64], stops: &[u32], chunks: &[u8]) -> Result<Outcome, Fail> {
    let sink = MemSink::new(alloc, 64, FaultPlan::new(failing.to_vec(alloc)?))?;
    run_over::<Brand, Brand>(alloc, sink, stops, chunks, Blank::new(2), Blank::new(2))
}

/// Such a job, and what comes of it.
#[derive(Clone, Copy)]
struct Case<'a> {
    failing: &'a [u64],
    /// The workers that stop the job.
    stops: &'a [u32],
    /// The chunks whose texts are delivered after that.
    chunks: &'a [u8],
    answers: &'a [Delivery],
    /// What is put.
    text: &'a [u8],
    stopped_by: Option<u32>,
    stop: Option<Stop>,
}

/// Fails the test unless this comes of it.
fn check_case(rt: &impl Abort, alloc: Global, case: &Case<'_>) -> Result<(), Fail> {
    let outcome = run(alloc, case.failing, case.stops, case.chunks)?;
    check_eq!(rt; outcome.answers.as_slice(), case.answers);
    check_eq!(rt; outcome.sink.bytes(), case.text);
    check_eq!(rt; outcome.stopped_by, case.stopped_by);
    check_eq!(rt; outcome.stop, case.stop);
    Ok(())
}

#[test]
fn texts_go_out_in_order(rt: HostRuntime) -> Result<(), Fail> {
    let forward = Case {
        failing: &[],
        stops: &[],
        chunks: &[0, 1, 2, 3, 4],
        answers: &[Delivered; 5],
        text: b"0\n1\n2\n3\n4\n",
        stopped_by: None,
        stop: None,
    };
    let backward = Case {
        chunks: &[4, 3, 2, 1, 0, 4],
        answers: &[Later, Delivered, Delivered, Delivered, Delivered, Delivered],
        ..forward
    };
    check_case(&rt, rt.alloc(), &forward)?;
    check_case(&rt, rt.alloc(), &backward)
}

/// The put that fails may be that of a text that waited.
#[test]
fn a_put_that_fails_stops_the_window(rt: HostRuntime) -> Result<(), Fail> {
    let at_once = Case {
        failing: &[2],
        stops: &[],
        chunks: &[0, 1, 2],
        answers: &[Delivered, Stopped, Stopped],
        text: b"0\n1",
        stopped_by: None,
        stop: Some(Stop::Output),
    };
    let waiting = Case {
        chunks: &[1, 2, 0],
        answers: &[Delivered, Delivered, Stopped],
        ..at_once
    };
    check_case(&rt, rt.alloc(), &at_once)?;
    check_case(&rt, rt.alloc(), &waiting)
}

#[test]
fn the_first_stop_stays(rt: HostRuntime) -> Result<(), Fail> {
    let case = Case {
        failing: &[],
        stops: &[3, 1],
        chunks: &[0],
        answers: &[Stopped],
        text: b"",
        stopped_by: Some(3),
        stop: Some(Stop::Worker(3)),
    };
    check_case(&rt, rt.alloc(), &case)
}
