//! How a text stands in a page.
ghost use Rattle.std.specs.Prelude.{◌≡◌, ◌++◌, OnOk};
ghost use Rattle.pictures.specs.Page.{escaped, escaped_byte};

use std::alloc::AllocError;

/// Appends a byte as a page has it: `&`, `<`, `>` and CR as entities.
fn add_byte(text: &mut Vec<u8>, byte: u8) -> Result<(), AllocError>
    ensures { OnOk result (text.new.items ≡ text.old.items ++ escaped_byte byte) }
{
    match byte {
        b'&' => text.extend_from_slice(b"&amp;"),
        b'<' => text.extend_from_slice(b"&lt;"),
        b'>' => text.extend_from_slice(b"&gt;"),
        b'\r' => text.extend_from_slice(b"&#13;"),
        byte => text.extend_from_slice(&[byte]),
    }
}

/// Appends a text as a page has it, with entities for `&`, `<`, `>` and CR.
pub fn add_escaped(text: &mut Vec<u8>, bytes: &[u8]) -> Result<(), AllocError>
    ensures { OnOk result (text.new.items ≡ text.old.items ++ escaped bytes.now) }
{
    for byte in bytes {
        add_byte(text, *byte)?;
    }
    Ok(())
}
