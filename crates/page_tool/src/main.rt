//! `page_tool`: lists and rewrites the pages of a PostgreSQL relation, at a path or made from a
//! number, and recovers a relation at a path by the log of a rewrite.
//! `docs/page_tool.1.md` is its manual page.
#![tactic(auto)]

#[cfg(test)]
mod checks;
#[cfg(test)]
mod recover_fault_tests;
#[cfg(test)]
mod rewrite_fault_tests;
mod run;
#[cfg(test)]
mod test_hosts;
#[cfg(test)]
mod test_pages;
#[cfg(test)]
mod tests;

use crate::run::{MEMORY_LINE, run};
use backend_pass::Pinned;
use byte_devices::{Sink, StdSink};
use page_jobs::Gate;
use relation_commands::ToolError;
use segment_files::FileHost;
use std::alloc::AllocError;
use std::env;
use std::io::ErrorKind;
use std::process::ExitCode;

/// Lets every block through at once.
struct OpenGate;

impl Gate for OpenGate {
    fn before(&self, _worker: u32, _block: u32) {}

    fn seen(&self, _worker: u32, _pinned: &Pinned) {}
}

/// The words after the program's name; none if they aren't UTF-8 text.
fn words(rt: &HostRuntime) -> Result<Vec<String>, AllocError> {
    match env::args(rt) {
        Ok(args) => args.skip(1).collect(rt.alloc()),
        Err(error) if error.kind() == ErrorKind::OutOfMemory => Err(AllocError),
        Err(_) => Ok(Vec::new(rt.alloc())),
    }
}

fn main(rt: HostRuntime) -> ExitCode {
    let mut host = FileHost::new(&rt, rt.alloc());
    let mut out = StdSink::new(rt.stdout());
    let mut err = StdSink::new(rt.stderr());
    let Ok(words) = words(&rt) else {
        let _ = err.put(MEMORY_LINE);
        return ExitCode::from(ToolError::Memory.status());
    };
    let status = run(
        &rt,
        rt.alloc(),
        &words,
        &mut host,
        &mut out,
        &mut err,
        &OpenGate,
    );
    ExitCode::from(status)
}
