//! How the logs of a host in memory are read.
ghost use Rattle.std.specs.Prelude.{◌≡◌, ◌≤◌};

use byte_devices::FaultPlan;

/// How logs are read: which openings are to fail, which calls of each source, and how many bytes a
/// call gives at most.
#[derive(Drop)]
pub struct SourcePlan {
    pub(crate) openings: FaultPlan,
    pub(crate) calls: FaultPlan,
    pub(crate) most: usize,
    ghost some: { 1 ≤ most },
}

impl SourcePlan {
    pub fn new(openings: FaultPlan, calls: FaultPlan, most: usize) -> SourcePlan
        requires { 1 ≤ most }
        ensures openings { result.openings ≡ openings }
        ensures calls { result.calls ≡ calls }
        ensures most { result.most ≡ most }
    {
        SourcePlan {
            openings,
            calls,
            most,
        }
    }
}
