//! The list of the blocks of tags.
ghost use Rattle.std.specs.Prelude.{◌≡◌, ◌++◌, ◌≤◌, ℕ, true, All, Contains, IfOk, IsSome, OnErr};
ghost use Rattle.std.specs.Prelude.{OnOk, length, map};
ghost use Rattle.std.specs.List.Sorted.{IsStrictlyIncreasing};
ghost use Rattle.block_tag.specs.Names.{names_block, packed_tag, unpacked_tag};
ghost use Rattle.block_lists.specs.Lists.{AreBlockNumbers, block_line, list_text};
ghost use Rattle.block_lists.specs.Tags.{IsNamedIn, IsOrderOf, IsRead, ListsTags, numbers_in};

use crate::numbers::numbers_of;
use crate::writing::append_line;
use block_tag::{Catalog, Tag};
use std::alloc::{AllocError, Global};

/// The numbers of tags.
fn packed_tags(alloc: Global, tags: &[Tag]) -> Result<Vec<u64>, AllocError>
    requires { All (λ tag. names_block tag ≡ true) tags.now }
    ensures numbers { IfOk result (λ packed. packed.items ≡ map packed_tag tags.now) }
    ensures read { OnOk result (All IsRead tags.now) }
{
    let mut packed = Vec::with_capacity(alloc, tags.len())?;
    for tag in tags {
        packed.push(tag.pack())?;
    }
    Ok(packed)
}

/// Puts numbers in order, each once.
fn put_in_order(packed: &mut Vec<u64>)
    ensures rises { IsStrictlyIncreasing packed.new.items }
    ensures keeps { (n : ℕ) → Contains packed.old.items n → Contains packed.new.items n }
    ensures adds_none { (n : ℕ) → Contains packed.new.items n → Contains packed.old.items n }
    ensures few { length packed.new.items ≤ length packed.old.items }
{
    packed.sort_unstable();
    packed.dedup();
}

/// The tags of numbers.
fn unpacked_tags(alloc: Global, packed: &[u64]) -> Result<Vec<Tag>, AllocError>
    requires { All (λ n. IsSome (unpacked_tag n)) packed.now }
    ensures numbers { IfOk result (λ tags. map packed_tag tags.items ≡ packed.now) }
    ensures read { IfOk result (λ tags. All IsRead tags.items) }
{
    let mut tags = Vec::with_capacity(alloc, packed.len())?;
    for number in packed {
        let Some(tag) = Tag::unpack(*number) else {
            continue;
        };
        tags.push(tag)?;
    }
    Ok(tags)
}

/// Tags in the order of their numbers, each once.
fn ordered_tags(alloc: Global, tags: &[Tag]) -> Result<Vec<Tag>, AllocError>
    requires { All (λ tag. names_block tag ≡ true) tags.now }
    ensures { IfOk result (λ listed. IsOrderOf tags.now listed.items) }
{
    let mut packed = packed_tags(alloc, tags)?;
    put_in_order(&mut packed);
    unpacked_tags(alloc, packed.as_slice())
}

/// Adds the line of a tag's block to a text.
fn append_tag(catalogue: &Catalog, tag: Tag, text: &mut Vec<u8>) -> Result<(), AllocError>
    requires { IsNamedIn catalogue.now tag }
    ensures line { OnOk result
        (text.new.items ≡ text.old.items ++ block_line (numbers_in catalogue.now tag)) }
    ensures good { AreBlockNumbers (numbers_in catalogue.now tag) }
{
    match catalogue.entry(tag.rel) {
        Some(relation) => append_line(&numbers_of(relation, tag), text),
        None => Ok(()),
    }
}

/// The lines of tags' blocks.
fn lines_of_tags(alloc: Global, catalogue: &Catalog, tags: &[Tag]) -> Result<Vec<u8>, AllocError>
    requires { All (IsNamedIn catalogue.now) tags.now }
    ensures lines { IfOk result (λ lines.
        lines.items ≡ list_text (map (numbers_in catalogue.now) tags.now)) }
    ensures good { OnOk result (All AreBlockNumbers (map (numbers_in catalogue.now) tags.now)) }
{
    let mut lines = Vec::new(alloc);
    for tag in tags {
        append_tag(catalogue, *tag, &mut lines)?;
    }
    Ok(lines)
}

/// Adds the list of the blocks of tags to a text, in the order of the tags' numbers, each once, and
/// answers how many there are. Out of memory leaves the text as it was.
pub fn put_tags(
    alloc: Global,
    catalogue: &Catalog,
    tags: &[Tag],
    text: &mut Vec<u8>,
) -> Result<usize, AllocError>
    requires { All (IsNamedIn catalogue.now) tags.now }
    ensures listed { IfOk result
        (ListsTags catalogue.now tags.now text.old.items text.new.items) }
    ensures same { OnErr result (text.new.items ≡ text.old.items) }
{
    let listed = ordered_tags(alloc, tags)?;
    let lines = lines_of_tags(alloc, catalogue, listed.as_slice())?;
    text.extend_from_slice(lines.as_slice())?;
    Ok(listed.len())
}
