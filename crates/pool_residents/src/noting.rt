//! The tag of a frame that was looked at is noted if the frame is valid.
ghost use Rattle.std.specs.Prelude.{◌≡◌, ◌+◌, ◌<◌, ◌≤◌, ◌++◌, ◌∷◌, [], List, All, IfNone, IfSome, Some};
ghost use Rattle.std.specs.Prelude.{map, vec_capacity, vec_len};
ghost use Rattle.block_tag.specs.Names.{packed_tag};
ghost use Rattle.block_tag.specs.declared.catalogue.RelEntry.{RelEntry};
ghost use Rattle.pool_residents.specs.Residents.{IsBlockIn, valid_tag};

use backend_pass::Seen;
use block_tag::Tag;
use state_word::{Flag, has};

/// The tag of a frame, if the frame is valid.
fn valid_tag(seen: Seen) -> Option<Tag>
    ensures some { IfSome result
        (λ tag. (seen.tag ≡ Some tag) × (valid_tag seen ≡ packed_tag tag ∷ [])) }
    ensures none { IfNone result (valid_tag seen ≡ []) }
{
    if has(seen.word, Flag::Valid) {
        seen.tag
    } else {
        None
    }
}

/// Notes the tag of a frame, if the frame is valid. There is room for one more.
pub(crate) fn note_tag(seen: Seen, tags: &mut Vec<Tag>)
    requires room { vec_len tags.old < vec_capacity tags.old }
    ensures noted { map packed_tag tags.new.items
        ≡ map packed_tag tags.old.items ++ valid_tag seen }
    ensures blocks { (relations : List RelEntry) → IfSome seen.tag (IsBlockIn relations)
        → All (IsBlockIn relations) tags.old.items → All (IsBlockIn relations) tags.new.items }
    ensures few { vec_len tags.new ≤ vec_len tags.old + 1 }
    ensures capacity { vec_capacity tags.new ≡ vec_capacity tags.old }
{
    if let Some(tag) = valid_tag(seen) {
        tags.push_reserved(tag);
    }
}
