//! Why a command isn't done: the status and the line of each refusal.
ghost use Rattle.std.specs.Prelude.{◌≡◌, ◌++◌, [], IfOk, IfSome, None, Some, string_bytes};
ghost use Rattle.relation_commands.specs.Crowded.{IsCrowded, crowding_of};
ghost use Rattle.relation_commands.specs.Status.{crowding_text, error_line, error_text, host_error};
ghost use Rattle.relation_commands.specs.Status.{listing_tool_error, recover_tool_error};
ghost use Rattle.relation_commands.specs.Status.{rewrite_tool_error, status_of_error};

use crate::limits::PositionLimit;
use crate::listing::ListingError;
use crate::rewriting::RewriteError;
use command_line::Options;
use log_recovery::RecoverError;
use segment_store::HostError;
use std::alloc::{AllocError, Global};
use std::fmt;

/// This many backends, which need more frames than these.
#[derive(Clone, Copy, PartialEq, Eq, Debug)]
pub struct Crowding {
    pub backends: u32,
    pub frames: u32,
}

/// How crowded the backends would be, if they need more frames: each pins one, and two are kept
/// besides.
pub(crate) fn crowding_in(options: &Options) -> Option<Crowding>
    ensures crowded { IfSome result
        (λ crowding. (crowding ≡ crowding_of options.now) × IsCrowded options.now) }
    ensures roomy { result ≡ None → ¬ IsCrowded options.now }
{
    let Options {
        backends,
        frames,
        ..
    } = *options;
    if frames <= backends.saturating_add(2) {
        Some(Crowding { backends, frames })
    } else {
        None
    }
}

impl fmt::Display for Crowding {
    ghost output = { λ c. Some (crowding_text c) };

    fn fmt<W: fmt::Write>(&self, f: &mut fmt::Formatter<W>) -> fmt::Result {
        let Crowding { backends, frames } = *self;
        write!(f, "{backends} backends, {frames} frames")
    }
}

/// Why a command isn't done.
#[derive(Clone, Copy, PartialEq, Eq, Debug)]
pub enum ToolError<'a> {
    /// The words are no command.
    Usage,
    Crowded(Crowding),
    /// Nothing is there at the path of the relation, or of the log of a recovery.
    Missing { path: &'a str },
    ReadFault,
    WriteFault,
    LogFault,
    OutFault,
    Memory,
    /// The log could pass its last position.
    OverLimit(PositionLimit),
    /// The first 16 bytes of the log at the path aren't the head of one.
    BadLog { path: &'a str },
}

impl fmt::Display for ToolError<'_> {
    ghost output = { λ e. Some (error_text e) };

    fn fmt<W: fmt::Write>(&self, f: &mut fmt::Formatter<W>) -> fmt::Result {
        match self {
            // `recover` isn't named here; the manual page has all commands.
            ToolError::Usage => f.write_str(
                "usage: scan PATH, dump PATH, rewrite PATH --log FILE, sample SEED BLOCKS",
            ),
            ToolError::Crowded(crowding) => write!(f, "crowded: {crowding}"),
            ToolError::Missing { path } => write!(f, "missing: {path}"),
            ToolError::ReadFault => f.write_str("read fault"),
            ToolError::WriteFault => f.write_str("write fault"),
            ToolError::LogFault => f.write_str("log fault"),
            ToolError::OutFault => f.write_str("output fault"),
            ToolError::Memory => f.write_str("out of memory"),
            ToolError::OverLimit(limit) => write!(f, "log position limit: {limit}"),
            ToolError::BadLog { path } => write!(f, "bad log: {path}"),
        }
    }
}

impl<'a> ToolError<'a> {
    /// The status that the program ends with.
    pub fn status(&self) -> u8
        ensures { result ≡ status_of_error self.now }
    {
        match self {
            ToolError::Usage => 1,
            ToolError::Crowded(_) => 2,
            ToolError::Missing { .. } => 3,
            ToolError::ReadFault => 4,
            ToolError::WriteFault => 5,
            ToolError::LogFault => 6,
            ToolError::OutFault => 7,
            ToolError::Memory => 8,
            ToolError::OverLimit(_) => 9,
            ToolError::BadLog { .. } => 10,
        }
    }

    /// The line for the error stream.
    pub fn line(&self, alloc: Global) -> Result<String, AllocError>
        ensures { IfOk result (λ line. string_bytes line ≡ error_line self.now) }
    {
        format!(in alloc; "page_tool: {self}\n")
    }

    /// What a host's refusal of a path means to the tool.
    pub fn from_host(error: HostError, path: &'a str) -> ToolError<'a>
        ensures { result ≡ host_error error path.entry }
    {
        match error {
            HostError::Missing => ToolError::Missing { path },
            HostError::Failed => ToolError::ReadFault,
            HostError::Memory => ToolError::Memory,
        }
    }

    /// What the end of a listing means to the tool.
    /// A listing never makes a frame dirty, so write and log faults can't end it.
    pub fn from_listing(error: ListingError) -> ToolError<'a>
        ensures { result ≡ listing_tool_error error }
    {
        match error {
            ListingError::ReadFault => ToolError::ReadFault,
            ListingError::OutFault => ToolError::OutFault,
            ListingError::Memory => ToolError::Memory,
        }
    }

    /// What the end of a rewrite means to the tool.
    pub fn from_rewrite(error: RewriteError) -> ToolError<'a>
        ensures { result ≡ rewrite_tool_error error }
    {
        match error {
            RewriteError::ReadFault => ToolError::ReadFault,
            RewriteError::WriteFault => ToolError::WriteFault,
            RewriteError::LogFault => ToolError::LogFault,
            RewriteError::OutFault => ToolError::OutFault,
            RewriteError::Memory => ToolError::Memory,
            RewriteError::OverLimit(limit) => ToolError::OverLimit(limit),
        }
    }

    /// What the end of a recovery by the log at a path means to the tool.
    pub fn from_recovery(error: RecoverError, path: &'a str) -> ToolError<'a>
        ensures { result ≡ recover_tool_error error path.entry }
    {
        match error {
            RecoverError::BadLog => ToolError::BadLog { path },
            RecoverError::ReadFault => ToolError::ReadFault,
            RecoverError::WriteFault => ToolError::WriteFault,
            RecoverError::Memory => ToolError::Memory,
        }
    }
}
