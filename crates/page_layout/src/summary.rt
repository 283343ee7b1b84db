//! What a scan tells of a page: that it isn't sound, that it is new, or its header and line
//! pointers.
ghost use Rattle.std.specs.Prelude.{◌≡◌, ◌≤◌, ◌<◌, ◌+◌, true};
ghost use Rattle.page_layout.specs.Fields.{item_count};
ghost use Rattle.page_layout.specs.Soundness.{is_sound_page};

use crate::page::{Header, Page};

/// How many line pointers there are of each state.
#[derive(Clone, Copy, PartialEq, Eq, Debug)]
pub struct PointerCounts {
    pub normal: u16,
    pub redirect: u16,
    pub dead: u16,
    pub unused: u16,
}

impl PointerCounts {
    ghost use Rattle.page_layout.specs.Pointers.{total_of, with_pointer};

    /// Counts a pointer of this state.
    fn count(&mut self, state: u8)
        requires { total_of self.old < 65535 }
        ensures counted { self.new ≡ with_pointer self.old state }
        ensures total { total_of self.new ≤ total_of self.old + 1 }
    {
        self.unused += u16::from(state == 0);
        self.normal += u16::from(state == 1);
        self.redirect += u16::from(state == 2);
        self.dead += u16::from(state == 3);
    }
}

/// A page that is sound and not new: its header, and its line pointers by their states.
#[derive(Clone, Copy, PartialEq, Eq, Debug)]
pub struct UsedPage {
    pub header: Header,
    pub items: u16,
    pub pointers: PointerCounts,
}

/// What a scan tells of a page.
#[derive(Clone, Copy, PartialEq, Eq, Debug)]
pub enum PageSummary {
    Invalid,
    New,
    Used(UsedPage),
}

ghost use Rattle.page_layout.specs.Pointers.{counts_of_states, items_of, total_of};
ghost use Rattle.page_layout.specs.Summary.{summary_of, used_of};

impl Page {
    /// How many line pointers there are of each state.
    pub fn pointer_counts(&self) -> PointerCounts
        requires { is_sound_page self.now ≡ true }
        ensures counts { result ≡ counts_of_states (items_of self.now) }
        ensures total { total_of result ≤ item_count self.now }
    {
        let mut counts = PointerCounts {
            normal: 0,
            redirect: 0,
            dead: 0,
            unused: 0,
        };
        for place in 0..self.items() {
            counts.count(self.item(place + 1).state);
        }
        counts
    }

    /// The header and the line pointers of a page that is sound and not new.
    #[tactic(auto, unfolding(crate::specs::Summary::used_of))]
    fn used(&self) -> UsedPage
        requires { is_sound_page self.now ≡ true }
        ensures { result ≡ used_of self.now }
    {
        UsedPage {
            header: self.header(),
            items: self.items(),
            pointers: self.pointer_counts(),
        }
    }

    /// What a scan tells of the page. All bytes are looked at once at most.
    #[tactic(auto, unfolding(crate::specs::Summary::summary_of, crate::specs::Soundness::is_sound_page))]
    pub fn summary(&self) -> PageSummary
        ensures { result ≡ summary_of self.now }
    {
        if self.is_new() {
            return PageSummary::New;
        }
        if !self.header().is_sound() {
            return PageSummary::Invalid;
        }
        PageSummary::Used(self.used())
    }
}
