//! What holds of all pages and their totals. The functions do nothing: their contracts are the
//! laws.
ghost use Rattle.std.specs.Prelude.{◌≡◌, ◌≤◌, ◌<◌, ◌+◌, ◌^◌, ◌++◌, ℕ, List, false, length};
ghost use Rattle.std.specs.Prelude.{slice_index};
ghost use Rattle.page_layout.specs.Dump.{dump_lines_from};
ghost use Rattle.page_layout.specs.Fields.{lsn_of, with_lsn};
ghost use Rattle.page_layout.specs.Outcomes.{rewrite_totals_of, sum_of_rewrite_totals};
ghost use Rattle.page_layout.specs.Positions.{DifferInPositions};
ghost use Rattle.page_layout.specs.Rewritten.{is_skipped, rewritten_page};
ghost use Rattle.page_layout.specs.Scan.{scan_lines_from, sum_of_totals, totals_of};
ghost use Rattle.page_layout.specs.Soundness.{IsUsedPage};

/// What a log position changes of a page: nothing but what is read back as the position.
pub fn all_positions()
    // A page that is sound and not new stays so with any position, which is read back.
    ensures stays_used { (page : List ℕ) (lsn : ℕ) → IsUsedPage page
        → IsUsedPage (with_lsn lsn page) }
    ensures reads_back { (page : List ℕ) (lsn : ℕ) → lsn < 2 ^ 64
        → lsn_of (with_lsn lsn page) ≡ lsn }

    // The last position that was set counts, and the page's own puts the page back.
    ensures last { (page : List ℕ) (first : ℕ) (second : ℕ)
        → with_lsn second (with_lsn first page) ≡ with_lsn second page }
    ensures restores { (page : List ℕ) (lsn : ℕ)
        → 8 ≤ length page → ((k : ℕ) → slice_index page k < 256)
        → with_lsn (lsn_of page) (with_lsn lsn page) ≡ page }

    // So a rewritten page, with any position, is sound and not new.
    ensures rewritten { (page : List ℕ) (lsn : ℕ)
        → IsUsedPage page → is_skipped page ≡ false
        → IsUsedPage (with_lsn lsn (rewritten_page page)) }

    // The totals of a scan don't depend on positions.
    ensures totals { (pages : List (List ℕ)) (others : List (List ℕ))
        → DifferInPositions pages others → totals_of others ≡ totals_of pages }
{}

/// The lines and the totals of two lists of pages, as of two workers' blocks, are those of both.
pub fn all_sums()
    ensures scan_lines { (block : ℕ) (ps : List (List ℕ)) (qs : List (List ℕ))
        → scan_lines_from block (ps ++ qs)
        ≡ scan_lines_from block ps ++ scan_lines_from (block + length ps) qs }
    ensures dump_lines { (block : ℕ) (ps : List (List ℕ)) (qs : List (List ℕ))
        → dump_lines_from block (ps ++ qs)
        ≡ dump_lines_from block ps ++ dump_lines_from (block + length ps) qs }
    ensures scans { (ps : List (List ℕ)) (qs : List (List ℕ))
        → totals_of (ps ++ qs) ≡ sum_of_totals (totals_of ps) (totals_of qs) }
    ensures rewrites { (ps : List (List ℕ)) (qs : List (List ℕ))
        → rewrite_totals_of (ps ++ qs)
        ≡ sum_of_rewrite_totals (rewrite_totals_of ps) (rewrite_totals_of qs) }
{}
