//! Pages for tests.

/// The header and the line pointer of a page with one item of four bytes: log position 0/0, lower
/// 28, upper 8184, special 8192.
pub const FRONT: [u8; 28] = [
    0x00, 0x00, 0x00, 0x00, 0x00, 0x00, 0x00, 0x00, 0x00, 0x00, 0x00, 0x00, 0x1c, 0x00, 0xf8, 0x1f,
    0x00, 0x20, 0x04, 0x20, 0x00, 0x00, 0x00, 0x00, 0xf8, 0x9f, 0x08, 0x00,
];

/// A page with one item, whose first byte is this.
pub fn one_item(item: u8) -> [u8; 8192] {
    let mut bytes = [0u8; 8192];
    bytes[..28].copy_from_slice(&FRONT);
    bytes[8184] = item;
    bytes
}

/// A page with a flag that no page has.
pub fn unsound() -> [u8; 8192] {
    let mut bytes = one_item(0);
    bytes[10] = 8;
    bytes
}
