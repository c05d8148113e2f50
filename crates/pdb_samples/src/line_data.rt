/// The checksums of file F, in numbers of four bytes, written by hand from the format.
#[rattlefmt::skip]
pub(crate) const CHECKSUMS_OF_F: [u32; 4] = [
    // DEBUG_S_FILECHKSMS of 8 bytes: the name at 1, no checksum.
    0xf4, 0x08, 0x01, 0x00,
];

/// The number of bytes of the block of file F's lines.
pub(crate) const BLOCK_SIZE: u32 = 0x1c;

/// The lines of file F, in numbers of four bytes, written by hand from the format: of 0x20 bytes at
/// 0x10 of section 1, from the file at 0. Two rows at 0 and 8 of them are of lines 5 and 7. Their
/// block says that it has `block_size` bytes.
#[rattlefmt::skip]
pub(crate) fn lines_of_f(block_size: u32) -> [u32; 12] {
    [
        // DEBUG_S_LINES of 0x28 bytes: at 0x10 of section 1, without columns, 0x20 bytes of code.
        0xf2, 0x28, 0x10, 0x01, 0x20,
        // Its block: of the file at 0, two rows.
        0x00, 0x02, block_size,
        // The rows: at 0 line 5, at 8 line 7. Bit 31 marks statements.
        0x00, 0x8000_0005, 0x08, 0x8000_0007,
    ]
}
