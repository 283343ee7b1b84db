//! What the end of a manager tells of a rewrite, and of a load. The functions do nothing: their
//! contracts are the laws.
//!
//! `rewrite_ends` needs a state's laws and history, and no manager, so the work may be divided in
//! any way. `rewrite_closes` says the same of the devices that are given back. It knows the
//! checkpoint by what it leaves (`HasSwept`), and asks of the last pass only that it read and put
//! nothing.
ghost use Rattle.std.specs.Prelude.{ℕ, List};
ghost use Rattle.pin_core.specs.declared.view.Call.{Call};
ghost use Rattle.history_core.specs.History.{IsHistory};
ghost use Rattle.history_core.specs.Laws.{Laws};
ghost use Rattle.history_core.specs.State.{State};
ghost use Rattle.table_rule.specs.Shows.{devices};
ghost use Rattle.page_jobs.specs.Prewarmed.{OneLoadsAlone, PrewarmedStay};
ghost use Rattle.page_jobs.specs.Rewrites.{Rule};
ghost use Rattle.page_jobs.specs.RewriteCloses.{ClosesEither, ClosesFull, ClosesRewritten};
ghost use Rattle.page_jobs.specs.RewriteEnds.{Finishes, HasRewrites, IsResult, LanesHoldEither};
ghost use Rattle.page_jobs.specs.RewriteEnds.{BackendCalls, Rewrites};

use backend_pass::Manager;
use byte_devices::LogDevice;
use segment_store::BlockLane;

/// What the state that the devices are given back in holds of a rewrite whose calls are in its
/// history, by any rule.
pub fn rewrite_ends()
    // With any end a block has at most one entry, the image of its page at the start, and its lane
    // holds one of the two pages, or its last write failed.
    ensures any { (r : Rule) (n : ℕ) (s : State) (calls : List Call) (ps : List BackendCalls)
        → Laws s → IsHistory s.known s.origin s.opened_sizes s.log calls
        → Rewrites r n s.known s.origin calls ps
        → HasRewrites r n s.known s.origin s.log × LanesHoldEither s }

    // After one of all blocks, and a checkpoint after it, the log has exactly the entries of the
    // changed blocks, and the lanes hold the rewritten relation.
    ensures all { (r : Rule) (n : ℕ) (s : State) (calls : List Call) (ps : List BackendCalls)
        (upto : ℕ)
        → Finishes r n s calls ps upto → IsResult r n s }
{}

/// What the devices hold that `Manager::close` gives back after `rewrite`, if no other page was
/// put.
pub fn rewrite_closes<L: BlockLane, G: LogDevice>(_manager: &Manager<L, G>)
    // With any end a block has at most one entry, and its lane holds its page from before or the
    // rewritten one, or its last write failed.
    ensures any { ClosesEither (devices L.BlockLane G.LogDevice) _manager.now }

    // After a whole rewrite, and a later checkpoint that is the last of its pass, the log has
    // exactly the entries of the changed blocks, and the lanes hold the rewritten relation, but for
    // blocks whose last write failed.
    ensures all { ClosesRewritten (devices L.BlockLane G.LogDevice) _manager.now }

    // A log that has room for a record of each block is not full.
    ensures full { ClosesFull (devices L.BlockLane G.LogDevice) _manager.now }
{}

/// What a pass lists by `residents` of the blocks that it loaded, if `Manager::close_counted` counts
/// no eviction and no reuse in the end.
pub fn prewarmed_stay<L: BlockLane, G: LogDevice>(_manager: &Manager<L, G>)
    // If one pass did all the work of a load, its later list has each block of the load, unless the
    // block's page wasn't sound as the table was opened.
    ensures listed { PrewarmedStay (devices L.BlockLane G.LogDevice) _manager.now }

    // A load that has one pass to work is done by it alone.
    ensures alone { OneLoadsAlone (devices L.BlockLane G.LogDevice) _manager.now }
{}
