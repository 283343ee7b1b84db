//! The entries of a map.
ghost use Rattle.std.specs.Prelude.{◌≡◌, ◌<◌, map, vec_len, vec_capacity, None, Some};
ghost use Rattle.pin_core.specs.Turns.{found};
ghost use Rattle.grid.specs.Shape.{put};
ghost use Rattle.table_rule.specs.Shows.{AreApart, entry_of};

use table_rule::Mapped;

/// The frame that the entries give for a tag.
pub(crate) fn frame_of(entries: &[Mapped], tag: u64) -> Option<u32>
    ensures { result ≡ found (map entry_of entries.now) tag }
{
    let entry = entries.iter().find(|entry| entry.tag == tag)?;
    Some(entry.frame)
}

/// The entries lose that of a tag.
pub(crate) fn forget(entries: &mut Vec<Mapped>, tag: u64)
    requires apart { AreApart entries.old.items }
    ensures apart { AreApart entries.new.items }
    ensures room { vec_capacity entries.new ≡ vec_capacity entries.old }
    ensures found { found (map entry_of entries.new.items)
        ≡ put (found (map entry_of entries.old.items)) tag None }
{
    entries.retain(|entry| entry.tag != tag);
}

/// The entries get one for a tag that they lack.
pub(crate) fn add(entries: &mut Vec<Mapped>, tag: u64, frame: u32)
    requires room { vec_len entries.old < vec_capacity entries.old }
    requires apart { AreApart entries.old.items }
    requires lacking { found (map entry_of entries.old.items) tag ≡ None }
    ensures apart { AreApart entries.new.items }
    ensures room { vec_capacity entries.new ≡ vec_capacity entries.old }
    ensures found { found (map entry_of entries.new.items)
        ≡ put (found (map entry_of entries.old.items)) tag (Some frame) }
{
    entries.push_reserved(Mapped { tag, frame });
}
