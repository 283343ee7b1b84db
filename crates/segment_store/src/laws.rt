//! Laws of a relation and its segments.
ghost use Rattle.segment_store.specs.ReadBack.{HasGivenPages, HasNewPages, ReadsBack};
ghost use Rattle.segment_store.specs.ReadBack.{StandsInPlace};

/// What lanes that are given back have is what a relation has when it is opened again.
pub fn given_pages_are_read_back()
    ensures pages { ReadsBack }
    ensures lanes { HasGivenPages }
{}

/// Each block of a relation is read from its place in its segment, as `block_tag::segment_place`
/// says.
pub fn blocks_stand_in_place()
    ensures { StandsInPlace }
{}

/// A relation that grew has new pages after the blocks that it had, which are as they were.
pub fn grown_segments_are_read_back()
    ensures { HasNewPages }
{}
