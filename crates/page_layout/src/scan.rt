//! The totals of a scan.
ghost use Rattle.std.specs.Prelude.{◌≡◌, ◌≤◌, ◌<◌, ◌+◌, ◌*◌, ◌^◌, ◌++◌, ◌∷◌, [], List, ℕ, Some};
ghost use Rattle.page_layout.specs.Scan.{IsWithin, counted, no_totals, sum_of_totals, totals_of};
ghost use Rattle.page_layout.specs.Scan.{totals_text};
ghost use Rattle.page_layout.specs.Summary.{summary_of};

use crate::summary::{PageSummary, PointerCounts};
use std::fmt;

/// How many blocks there are of each kind, and how many line pointers of each state in used pages.
#[derive(Clone, Copy, PartialEq, Eq, Debug)]
pub struct ScanTotals {
    pub blocks: u64,
    pub used: u64,
    pub new: u64,
    pub invalid: u64,
    pub normal: u64,
    pub redirect: u64,
    pub dead: u64,
    pub unused: u64,
}

impl ScanTotals {
    /// The totals of no pages.
    pub fn none() -> ScanTotals
        ensures none { result ≡ no_totals }
        ensures within { IsWithin result 0 }
    {
        ScanTotals {
            blocks: 0,
            used: 0,
            new: 0,
            invalid: 0,
            normal: 0,
            redirect: 0,
            dead: 0,
            unused: 0,
        }
    }

    /// Counts a page.
    pub fn count(&mut self, summary: &PageSummary)
        requires within { IsWithin self.now self.now.blocks }
        requires room { self.now.blocks < 2 ^ 32 }
        ensures counted { self.exit.now ≡ counted self.entry.now summary.now }
        ensures within { IsWithin self.exit.now (self.entry.now.blocks + 1) }
        // So they are the totals of one page more.
        ensures pages { (ps : List (List ℕ)) (p : List ℕ)
            → self.entry.now ≡ totals_of ps → summary.now ≡ summary_of p
            → self.exit.now ≡ totals_of (ps ++ p ∷ []) }
    {
        self.blocks += 1;
        match *summary {
            PageSummary::Invalid => self.invalid += 1,
            PageSummary::New => self.new += 1,
            PageSummary::Used(used) => self.count_used(used.pointers),
        }
    }

    /// Adds the totals of other pages.
    pub fn add(&mut self, other: &ScanTotals)
        requires within { IsWithin self.now self.now.blocks }
        requires other_within { IsWithin other.now other.now.blocks }
        requires room { self.now.blocks + other.now.blocks ≤ 2 ^ 40 }
        ensures added { self.exit.now ≡ sum_of_totals self.entry.now other.now }
        ensures within { IsWithin self.exit.now (self.entry.now.blocks + other.now.blocks) }
        // So they are the totals of both lists of pages.
        ensures pages { (ps : List (List ℕ)) (qs : List (List ℕ))
            → self.entry.now ≡ totals_of ps → other.now ≡ totals_of qs
            → self.exit.now ≡ totals_of (ps ++ qs) }
    {
        self.blocks += other.blocks;
        self.used += other.used;
        self.new += other.new;
        self.invalid += other.invalid;
        self.normal += other.normal;
        self.redirect += other.redirect;
        self.dead += other.dead;
        self.unused += other.unused;
    }

    /// Counts a used page with these pointers.
    fn count_used(&mut self, pointers: PointerCounts)
        requires used { self.now.used < 2 ^ 33 }
        requires normal { self.now.normal < 2 ^ 63 }
        requires redirect { self.now.redirect < 2 ^ 63 }
        requires dead { self.now.dead < 2 ^ 63 }
        requires unused { self.now.unused < 2 ^ 63 }
        ensures small { ((pointers.normal ≤ 65535) × (pointers.redirect ≤ 65535))
            × ((pointers.dead ≤ 65535) × (pointers.unused ≤ 65535)) }
        ensures counted { self.exit.now ≡ record self.entry.now {
          used = self.entry.now.used + 1;
          normal = self.entry.now.normal + pointers.normal;
          redirect = self.entry.now.redirect + pointers.redirect;
          dead = self.entry.now.dead + pointers.dead;
          unused = self.entry.now.unused + pointers.unused;
        } }
    {
        self.used += 1;
        self.normal += u64::from(pointers.normal);
        self.redirect += u64::from(pointers.redirect);
        self.dead += u64::from(pointers.dead);
        self.unused += u64::from(pointers.unused);
    }
}

impl fmt::Display for ScanTotals {
    ghost output = { λ t. Some (totals_text t) };

    #[tactic(auto, unfolding(crate::specs::Scan::totals_text))]
    fn fmt<W: fmt::Write>(&self, f: &mut fmt::Formatter<W>) -> fmt::Result {
        let ScanTotals {
            blocks,
            used,
            new,
            invalid,
            normal,
            redirect,
            dead,
            unused,
        } = *self;
        write!(
            f,
            "blocks {blocks} used {used} new {new} invalid {invalid} normal {normal} redirect {redirect} dead {dead} unused {unused}"
        )
    }
}
