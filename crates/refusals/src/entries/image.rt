use crate::entry::Entry;

/// An image that is refused.
pub static IMAGE: [Entry; 7] = numbered! { "refused ", "image", "docs/FORMATS.md, \"Images\"";
    1: "Short: the file ends too early",
        "12 bytes, then as many entries as they say",
        "printf 'PBW1' > a.image; vuthgal list a.image";
    2: "Magic: the first four bytes aren't those of an image",
        "PBW1 or PBW2",
        "none: any other FILE is read as a program text";
    3: "Count: more than 64 phasers, barriers or threads",
        "at most 64 of each",
        "printf 'PBW1\\101\\0\\0\\0\\0\\0\\0\\0' > a.image; vuthgal list a.image";
    4 BYTE: "Field: the field at this byte of the file has a wrong value",
        "parents 0 to 63 or 255, policies 0 to 3, phases from 0, rows to 65535",
        "printf 'PBW1\\1\\0\\0\\0\\0\\0\\0\\0\\377\\4\\2\\0\\0\\0\\0\\0\\0\\0\\0\\0' > a.image; vuthgal list a.image";
    5 ROW: "Row: the 8 bytes aren't a row, or are a timed wait in a PBW1 image",
        "rows as `vuthgal asm` writes them",
        "printf 'PBW1\\0\\0\\0\\0\\0\\0\\1\\0\\143\\0\\0\\0\\0\\0\\0\\0' > a.image; vuthgal list a.image";
    6: "Extra: bytes after the last row",
        "nothing after the last row",
        "printf 'PBW1\\0\\0\\0\\0\\0\\0\\0\\0x' > a.image; vuthgal list a.image";
    8: "Version: the image begins with PBW2, but no row has a timeout",
        "PBW1 for a program without pawaitt and cawaitt",
        "printf 'PBW2\\0\\0\\0\\0\\0\\0\\0\\0' > a.image; vuthgal list a.image";
};
