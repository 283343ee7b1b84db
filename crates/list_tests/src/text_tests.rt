//! Lists as text, worked out by hand: what is one, where others go wrong, how long one may be.
ghost use Rattle.std.specs.Prelude.{◌<◌, ◌≤◌, List, length};
ghost use Rattle.block_lists.specs.Tags.{IsNamedIn};
ghost use Rattle.block_tag.specs.declared.catalogue.RelEntry.{RelEntry};

use crate::checks::{check, check_eq};
use block_lists::{
    BlockNumbers, ListError, MOST_BYTES, MOST_LINES, parse_list, put_list, put_tags,
};
use block_tag::{Catalog, Fork, RelEntry, RelNo, Tag};
use std::alloc::{AllocError, Global};
use std::test::Fail;

/// Lists, and the numbers of their blocks. The last line of the second is as long as a line may be.
const LISTS: [(&str, &[BlockNumbers]); 3] = [
    ("", &[]),
    (
        "0 0 16384 0 0\n\
         4294967295 0 0 0 0\n\
         0 4294967295 0 0 0\n\
         0 0 4294967295 0 0\n\
         0 0 0 3 0\n\
         0 0 0 0 4294967294\n\
         4294967295 4294967295 4294967295 3 4294967294\n",
        &[
            [0, 0, 16384, 0, 0],
            [4294967295, 0, 0, 0, 0],
            [0, 4294967295, 0, 0, 0],
            [0, 0, 4294967295, 0, 0],
            [0, 0, 0, 3, 0],
            [0, 0, 0, 0, 4294967294],
            [4294967295, 4294967295, 4294967295, 3, 4294967294],
        ],
    ),
    // Lines of a table with 10 blocks, from the file of autoprewarm by the manual's line of awk: in
    // the order of the buffers. The last stands twice.
    (
        "0 0 16394 0 9\n0 0 16394 2 0\n0 0 16394 1 2\n0 0 16394 1 0\n0 0 16394 1 0\n",
        &[
            [0, 0, 16394, 0, 9],
            [0, 0, 16394, 2, 0],
            [0, 0, 16394, 1, 2],
            [0, 0, 16394, 1, 0],
            [0, 0, 16394, 1, 0],
        ],
    ),
];

/// Whether a text is read as the list of these blocks, and these are written as the text, behind
/// what stood there.
fn is_list_of(alloc: Global, text: &str, blocks: &[BlockNumbers]) -> Result<bool, AllocError> {
    let mut written = b"front\n".as_slice().to_vec(alloc)?;
    put_list(alloc, blocks, &mut written)?;
    let behind = written.as_slice().strip_prefix(b"front\n");
    let read = parse_list(alloc, text.as_bytes());
    Ok(behind == Some(text.as_bytes()) && read.is_ok_and(|read| read.as_slice() == blocks))
}

#[test]
fn lists_are_read_and_written(rt: HostRuntime) -> Result<(), Fail> {
    for (text, blocks) in &LISTS {
        check!(rt; is_list_of(rt.alloc(), text, blocks)?, "{text}");
    }
    Ok(())
}

/// Texts that are no lists, and the number of the first line that isn't one of a block.
const REFUSED: [(&str, u64); 38] = [
    // Lines without a newline, and without a block.
    ("0 0 16384 0 7", 1),
    ("0 0 16384 0 7\n0 0 16384 0 8", 2),
    ("\n", 1),
    ("0 0 16384 0 7\n\n", 2),
    ("0 0 16384 0 7\n\n0 0 16384 0 8\n", 2),
    // The first of several.
    (
        "0 0 16384 0 7\n0 0 16384 9 7\n0 0 16384 0 8\n0 0 16384 9 8\n",
        2,
    ),
    ("0 0 16384 0\n0 0 16384\n0 0 16384 0 7\n", 1),
    // Numbers that are too large.
    ("0 0 16384 4 7\n", 1),
    ("0 0 16384 0 4294967295\n", 1),
    ("4294967296 0 16384 0 7\n", 1),
    ("0 4294967296 16384 0 7\n", 1),
    ("0 0 4294967296 0 7\n", 1),
    ("0 0 16384 4294967296 7\n", 1),
    ("0 0 16384 0 4294967296\n", 1),
    ("0 0 16384 0 18446744073709551623\n", 1),
    // Numbers in other spellings.
    ("0 0 16384 0 07\n", 1),
    ("00 0 16384 0 7\n", 1),
    ("0 0 16384 00 7\n", 1),
    ("0 0 16384 0 +7\n", 1),
    ("+0 0 16384 0 7\n", 1),
    ("0 -0 16384 0 7\n", 1),
    ("0 0 0x4000 0 7\n", 1),
    ("0 0 16384 main 7\n", 1),
    ("0 0 16_384 0 7\n", 1),
    ("0 0 16384 0 \u{667}\n", 1),
    // Fewer and more numbers.
    ("0 0 16384 0\n", 1),
    ("0 0 16384 0 \n", 1),
    ("0 0 16384 0 7 1\n", 1),
    // Other bytes between numbers, before and behind them.
    ("0 0 16384 0  7\n", 1),
    (" 0 0 16384 0 7\n", 1),
    ("0 0 16384 0 7 \n", 1),
    ("0 0 16384 0 7\r\n", 1),
    ("0 0 16384 0\t7\n", 1),
    ("0,0,16384,0,7\n", 1),
    ("0 0 16384 0 7\n0 0 16384 0 8\0\n", 2),
    ("\u{feff}0 0 16384 0 7\n", 1),
    // The head that autoprewarm writes, and a comment.
    ("<<1>>\n0,0,16384,0,7\n", 1),
    ("0 0 16384 0 7\n# 0 0 16384 0 8\n", 2),
];

/// Why a text is no list.
fn refusal(alloc: Global, text: &[u8]) -> Option<ListError> {
    parse_list(alloc, text).err()
}

#[test]
fn the_first_bad_line_is_told(rt: HostRuntime) {
    for (text, line) in &REFUSED {
        let wanted = Some(ListError::BadLine { line: *line });
        check_eq!(rt; refusal(rt.alloc(), text.as_bytes()), wanted, "{text}");
    }
    let no_text = refusal(rt.alloc(), b"0 0 16384 0 7\n0 0 16384 0 \xff\n");
    check_eq!(rt; no_text, Some(ListError::BadLine { line: 2 }));
}

/// A line of a block.
const LINE: &[u8] = b"0 0 0 0 0\n";

/// The longest one.
const LONGEST_LINE: &[u8] = b"4294967295 4294967295 4294967295 3 4294967294\n";

/// Texts of many lines: what stands before `LINE`, how often that stands, what stands behind it,
/// and how many blocks are read.
const LONG: [(&str, usize, &str, Result<usize, ListError>); 7] = [
    ("", 65536, "", Ok(65536)),
    ("\n", 65535, "", Err(ListError::BadLine { line: 1 })),
    (
        "",
        65535,
        "0 0 16384 0 7",
        Err(ListError::BadLine { line: 65536 }),
    ),
    ("", 65537, "", Err(ListError::TooMany)),
    ("", 65536, "\n", Err(ListError::TooMany)),
    ("", 65536, "0", Err(ListError::TooMany)),
    ("\n", 65536, "", Err(ListError::TooMany)),
];

/// `LINE` so often, between two texts.
fn repeated(alloc: Global, front: &str, count: usize, back: &str) -> Result<Vec<u8>, AllocError> {
    let mut text = front.as_bytes().to_vec(alloc)?;
    for _ in 0..count {
        text.extend_from_slice(LINE)?;
    }
    text.extend_from_slice(back.as_bytes())?;
    Ok(text)
}

/// How many blocks a text lists.
fn count_listed(alloc: Global, text: &[u8]) -> Result<usize, ListError> {
    Ok(parse_list(alloc, text)?.len())
}

#[test]
fn a_list_has_at_most_65536_lines(rt: HostRuntime) -> Result<(), Fail> {
    let alloc = rt.alloc();
    for (front, count, back, wanted) in &LONG {
        let text = repeated(alloc, front, *count, back)?;
        let found = count_listed(alloc, text.as_slice());
        check_eq!(rt; found, *wanted, "{front}{count}{back}");
    }
    let longest = LONGEST_LINE.len().checked_mul(MOST_LINES);
    check_eq!(rt; longest, Some(MOST_BYTES));
    Ok(())
}

fn relation(tablespace: u32, database: u32, relation: u32) -> RelEntry {
    RelEntry {
        tablespace,
        database,
        relation,
        blocks: [70, 1, 1, 0],
    }
}

fn tag(rel: u32, fork: Fork, block: u32) -> Tag
    requires { (rel < 1024) × (block ≤ 4294967294) }
    ensures { (catalogue : List RelEntry) → rel < length catalogue → IsNamedIn catalogue result }
{
    Tag {
        rel: RelNo(rel),
        fork,
        block,
    }
}

#[test]
fn tags_are_listed_in_order(rt: HostRuntime) -> Result<(), Fail> {
    let alloc = rt.alloc();
    let catalog = Catalog::build(alloc, &[relation(1663, 5, 16400), relation(1664, 0, 1260)])?;
    let tags = [
        tag(1, Fork::Main, 3),
        tag(0, Fork::Vm, 0),
        tag(1, Fork::Main, 1),
        tag(0, Fork::Main, 69),
        tag(1, Fork::Main, 3),
    ];
    let mut text = b"0 0 1 0 1\n".as_slice().to_vec(alloc)?;
    let listed = put_tags(alloc, &catalog, &tags, &mut text)?;
    let wanted =
        b"0 0 1 0 1\n1663 5 16400 0 69\n1663 5 16400 2 0\n1664 0 1260 0 1\n1664 0 1260 0 3\n";
    check_eq!(rt; (listed, text.as_slice()), (4, wanted.as_slice()));
    Ok(())
}
