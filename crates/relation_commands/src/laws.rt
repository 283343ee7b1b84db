//! What recoveries make of what a rewrite, a crash and another recovery leave; what a log's bytes
//! tell.
ghost use Rattle.relation_commands.specs.RecoverRewrite.{BegunLogsAreEmpty, CompletesRecovery};
ghost use Rattle.relation_commands.specs.RecoverRewrite.{KeepsFilesLeft, RecoversAgain};
ghost use Rattle.relation_commands.specs.RecoverRewrite.{RecoversFilesLeft, RecoversRewrite};
ghost use Rattle.relation_commands.specs.ToldLogs.{LogsAreTold, RewrittenLogsAreTold};

use page_layout::all_positions;

/// After any end of a rewrite that began its log, and a crash that loses what wasn't synced, the
/// log has no bad head, and a recovery that is done, with segments of the same size, leaves each
/// block as it was before the rewrite or as the rule makes it. Excepted are blocks whose last write
/// failed and of which no whole record is left. The block of one whole record more, which the
/// rewrite didn't know of, is made as the rule makes it, too.
pub fn rewrites_are_recovered()
    ensures begun { BegunLogsAreEmpty }
    ensures pages { RecoversRewrite }
    ensures files { RecoversFilesLeft }
    ensures kept { KeepsFilesLeft }
{
    // What the rule makes of a page can be an entry of a log.
    all_positions();
}

/// A recovery after one that was done, with segments of the same size, changes nothing. After one
/// with any end, and a crash that loses what wasn't synced, it leaves each block that the relation
/// had and still has as one alone would have.
pub fn recoveries_are_repeated()
    ensures again { RecoversAgain }
    ensures completed { CompletesRecovery }
{}

/// The bytes of a log determine its beginning and its entries, but for the backends that made them,
/// whatever shorter than a record follows. So do those of the file that a whole rewrite leaves.
pub fn logs_are_told()
    ensures written { LogsAreTold }
    ensures rewritten { RewrittenLogsAreTold }
{}
