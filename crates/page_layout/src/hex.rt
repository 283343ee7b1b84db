//! Bytes in hexadecimal.
ghost use Rattle.std.specs.Prelude.{◌≡◌, ◌≤◌, ◌<◌, ◌+◌, ◌*◌, ◌++◌, OnOk, length};
ghost use Rattle.page_layout.specs.Dump.{hex_digit, hex_of};

use crate::page::Memory;

/// A digit in lower-case hexadecimal.
#[tactic(auto, unfolding(crate::specs::Dump::hex_digit))]
fn hex_digit(n: u8) -> u8
    requires { n < 16 }
    ensures { result ≡ hex_digit n }
{
    if n < 10 { b'0' + n } else { b'a' + (n - 10) }
}

/// Writes bytes in lower-case hexadecimal. The loop writes by index, not by appending, so it
/// becomes vector code.
fn write_hex(bytes: &[u8], out: &mut [u8])
    requires { length out.old ≡ 2 * length bytes.now }
    ensures { out.new ≡ hex_of bytes.now }
{
    for i in 0..bytes.len() {
        let b = bytes[i];
        out[2 * i] = hex_digit(b / 16);
        out[2 * i + 1] = hex_digit(b % 16);
    }
}

/// Adds bytes in lower-case hexadecimal to a text.
pub(crate) fn append_hex(bytes: &[u8], text: &mut Vec<u8>) -> Result<(), Memory>
    requires { length bytes.now ≤ 8192 }
    ensures { OnOk result (text.new.items ≡ text.old.items ++ hex_of bytes.now) }
{
    let start = text.len();
    text.resize(start + 2 * bytes.len(), 0)?;
    write_hex(bytes, &mut text.as_mut_slice()[start..]);
    Ok(())
}
