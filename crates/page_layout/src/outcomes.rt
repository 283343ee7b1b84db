//! The totals of a rewrite.
ghost use Rattle.std.specs.Prelude.{◌≡◌, ◌≤◌, ◌<◌, ◌+◌, ◌*◌, ◌^◌, ◌++◌, ◌∷◌, [], List, ℕ, Some};
ghost use Rattle.page_layout.specs.Outcomes.{IsRewriteWithin, sum_of_rewrite_totals, with_outcome};
ghost use Rattle.page_layout.specs.Outcomes.{no_rewrite_totals, page_rewrite_of, rewrite_totals_of};
ghost use Rattle.page_layout.specs.Outcomes.{rewrite_totals_text};

use crate::rewrite::Rewrite;
use std::fmt;

/// What a rewrite tells of a page.
#[derive(Clone, Copy, PartialEq, Eq, Debug)]
pub enum PageRewrite {
    /// It isn't sound.
    Invalid,
    New,
    /// It is sound and not new, and this became of it.
    Used(Rewrite),
}

/// How many blocks there are of each kind, and how many line pointers were dead in the pages that a
/// rewrite changed.
#[derive(Clone, Copy, PartialEq, Eq, Debug)]
pub struct RewriteTotals {
    pub blocks: u64,
    pub changed: u64,
    pub same: u64,
    pub skipped: u64,
    pub new: u64,
    pub invalid: u64,
    pub dead: u64,
}

impl RewriteTotals {
    /// The totals of no pages.
    pub fn none() -> RewriteTotals
        ensures none { result ≡ no_rewrite_totals }
        ensures within { IsRewriteWithin result 0 }
    {
        RewriteTotals {
            blocks: 0,
            changed: 0,
            same: 0,
            skipped: 0,
            new: 0,
            invalid: 0,
            dead: 0,
        }
    }

    /// Counts a page.
    pub fn count(&mut self, page: &PageRewrite)
        requires within { IsRewriteWithin self.now self.now.blocks }
        requires room { self.now.blocks < 2 ^ 32 }
        ensures counted { self.exit.now ≡ with_outcome self.entry.now page.now }
        ensures within { IsRewriteWithin self.exit.now (self.entry.now.blocks + 1) }
        // So they are the totals of one page more.
        ensures pages { (ps : List (List ℕ)) (p : List ℕ)
            → self.entry.now ≡ rewrite_totals_of ps → page.now ≡ page_rewrite_of p
            → self.exit.now ≡ rewrite_totals_of (ps ++ p ∷ []) }
    {
        self.blocks += 1;
        match *page {
            PageRewrite::Invalid => self.invalid += 1,
            PageRewrite::New => self.new += 1,
            PageRewrite::Used(Rewrite::Same) => self.same += 1,
            PageRewrite::Used(Rewrite::Skipped) => self.skipped += 1,
            PageRewrite::Used(Rewrite::Changed { dead }) => {
                self.changed += 1;
                self.dead += u64::from(dead);
            }
        }
    }

    /// Adds the totals of other pages.
    pub fn add(&mut self, other: &RewriteTotals)
        requires within { IsRewriteWithin self.now self.now.blocks }
        requires other_within { IsRewriteWithin other.now other.now.blocks }
        requires room { self.now.blocks + other.now.blocks ≤ 2 ^ 40 }
        ensures added { self.exit.now ≡ sum_of_rewrite_totals self.entry.now other.now }
        ensures within { IsRewriteWithin self.exit.now (self.entry.now.blocks + other.now.blocks) }
        // So they are the totals of both lists of pages.
        ensures pages { (ps : List (List ℕ)) (qs : List (List ℕ))
            → self.entry.now ≡ rewrite_totals_of ps → other.now ≡ rewrite_totals_of qs
            → self.exit.now ≡ rewrite_totals_of (ps ++ qs) }
    {
        self.blocks += other.blocks;
        self.changed += other.changed;
        self.same += other.same;
        self.skipped += other.skipped;
        self.new += other.new;
        self.invalid += other.invalid;
        self.dead += other.dead;
    }
}

impl fmt::Display for RewriteTotals {
    ghost output = { λ t. Some (rewrite_totals_text t) };

    #[tactic(auto, unfolding(crate::specs::Outcomes::rewrite_totals_text))]
    fn fmt<W: fmt::Write>(&self, f: &mut fmt::Formatter<W>) -> fmt::Result {
        let RewriteTotals {
            blocks,
            changed,
            same,
            skipped,
            new,
            invalid,
            dead,
        } = *self;
        write!(
            f,
            "blocks {blocks} changed {changed} same {same} skipped {skipped} new {new} invalid {invalid} dead {dead}"
        )
    }
}
