//! The public calls on two images that `lld-link` 19 made of a program for x86_64 and for i686. Of
//! each file the debug directory, the record and most of the headers are here, and zeros in place
//! of the rest. The expected values come from `llvm-readobj` and `objdump` on these bytes and on
//! the whole files, and from `llvm-pdbutil` on their PDBs.

use crate::on_demand::readable;
use pdb_image::{CodeView, Image, ImageError, ImageRecord, PdbIdentity, RecordFault};
use pdb_samples::{SampleError, overwrite};
use std::alloc::Global;
use std::test::Fail;

/// A PE32+ image of 2560 bytes: the bytes that stand between zeros, with their offsets.
const WIDE: [(usize, &[u8]); 14] = [
    (0x0, b"MZx"),
    (0x3c, b"x"),
    (0x78, b"PE\0\0d\x86\x03\0F\x9b\x09k"),
    (0x8c, b"\xf0\0\"\0\x0b\x02\x0e\0\0\x02\0\0\0\x04"),
    (
        0xa0,
        b"0\x10\0\0\0\x10\0\0\0\0\0@\x01\0\0\0\0\x10\0\0\0\x02\0\0\x06",
    ),
    (0xc9, b"@\0\0\0\x04"),
    (0xfc, b"\x10"),
    (0x119, b"0\0\0$"),
    (0x131, b" \0\0\x1c"),
    (0x180, b".text\0\0\0?\0\0\0\0\x10\0\0\0\x02\0\0\0\x04"),
    (0x1a4, b" \0\0`.rdata\0\0X\0\0\0\0 \0\0\0\x02\0\0\0\x06"),
    (0x1cc, b"@\0\0@.pdata\0\0$\0\0\0\x000\0\0\0\x02\0\0\0\x08"),
    (0x1f4, b"@\0\0@"),
    (
        0x604,
        b"F\x9b\x09k\0\0\0\0\x02\0\0\0!\0\0\0\x1c \0\0\x1c\x06\0\0RSDS\0i\xfcnO/]\xcdLLD PDB.\x01\0\
        \0\0wide.pdb",
    ),
];

/// A PE32 image of 2048 bytes: the bytes that stand between zeros, with their offsets.
const NARROW: [(usize, &[u8]); 10] = [
    (0x0, b"MZx"),
    (0x3c, b"x"),
    (0x78, b"PE\0\0L\x01\x02\0F\x9b\x09k"),
    (0x8c, b"\xe0\0\x02\x01\x0b\x01\x0e\0\0\x02\0\0\0\x02"),
    (
        0xa0,
        b"0\x10\0\0\0\x10\0\0\0\0\0\0\0\0@\0\0\x10\0\0\0\x02\0\0\x06",
    ),
    (0xec, b"\x10"),
    (0x121, b" \0\0\x1c"),
    (0x170, b".text\0\0\0:\0\0\0\0\x10\0\0\0\x02\0\0\0\x04"),
    (
        0x194,
        b" \0\0`.rdata\0\0?\0\0\0\0 \0\0\0\x02\0\0\0\x06\0\0\0\0\0\0\0\0\0\0\0\0\0\0@\0\0@",
    ),
    (
        0x604,
        b"F\x9b\x09k\0\0\0\0\x02\0\0\0#\0\0\0\x1c \0\0\x1c\x06\0\0RSDS\xf3\x0f\x02\x83\xe4\x8b\xf8\
        \x87LLD PDB.\x01\0\0\0narrow.pdb",
    ),
];

/// Makes a file of `size` bytes, with these pieces at their offsets.
fn file(alloc: Global, size: usize, pieces: &[(usize, &[u8])]) -> Result<Vec<u8>, SampleError> {
    let mut bytes = vec![in alloc; 0u8; size]?;
    for (place, piece) in pieces {
        overwrite(bytes.as_mut_slice(), *place, piece)?;
    }
    Ok(bytes)
}

/// Returns whether a record has an identity, as a symbol server names it, and a path.
fn is_of(alloc: Global, record: &CodeView<'_>, identity: &str, path: &str) -> Result<bool, Fail> {
    let text = format!(in alloc; "{}", record.identity())?;
    Ok(text.as_str() == identity && record.path().as_bytes() == path.as_bytes())
}

/// Returns whether the section with that index has a name, an address and a place in the file.
fn has_section(image: &Image<'_>, number: usize, name: &str, address: u32, place: u32) -> bool {
    image.section(number).is_some_and(|section| {
        section.name() == name
            && section.virtual_address == address
            && section.pointer_to_raw_data == place
    })
}

/// Whether an image names the PDB of this identity.
fn names_pdb(image: &[u8], pdb: &PdbIdentity) -> Result<bool, ImageError> {
    match Image::parse(image)?.code_view()? {
        Some(record) => Ok(record.identity().matches(pdb)),
        None => Ok(false),
    }
}

#[test]
fn wide_image(rt: HostRuntime) -> Result<(), Fail> {
    let alloc = rt.alloc();
    let bytes = file(alloc, 2560, &WIDE)?;
    let image = Image::parse(bytes.as_slice())?;
    assert_eq!(rt; image.machine(), 0x8664);
    assert_eq!(rt; image.image_base(), 0x1_4000_0000);
    assert_eq!(rt; image.section_count(), 3);
    assert!(rt; has_section(&image, 1, ".rdata", 0x2000, 0x600));
    assert!(rt; has_section(&image, 2, ".pdata", 0x3000, 0x800));
    assert!(rt; image.section(3).is_none());
    let record = image.code_view()?.ok_or("no record")?;
    assert!(rt;
        is_of(
            alloc,
            &record,
            "6EFC69002F4FCD5D4C4C44205044422E1",
            "wide.pdb"
        )?
    );
    let pdb = PdbIdentity::of_pdb(record.identity().guid, 7, Some(1));
    assert!(rt; names_pdb(bytes.as_slice(), &pdb)?);
    Ok(())
}

// What is read by places is what the whole file has; a file that ends in its record is refused.
#[test]
fn record_by_places(rt: HostRuntime) -> Result<(), Fail> {
    let alloc = rt.alloc();
    let wide = readable(file(alloc, 2560, &WIDE)?);
    let image = ImageRecord::read(alloc, &wide, 2560)?.ok_or("no record")?;
    assert_eq!(rt; image.image_base, 0x1_4000_0000);
    assert!(rt;
        is_of(
            alloc,
            &image.code_view()?,
            "6EFC69002F4FCD5D4C4C44205044422E1",
            "wide.pdb"
        )?
    );
    let short = ImageRecord::read(alloc, &wide, 0x630);
    assert!(rt; matches!(short, Err(RecordFault::Image(ImageError::RecordPastEnd))));
    Ok(())
}

#[test]
fn narrow_image(rt: HostRuntime) -> Result<(), Fail> {
    let alloc = rt.alloc();
    let bytes = file(alloc, 2048, &NARROW)?;
    let image = Image::parse(bytes.as_slice())?;
    assert_eq!(rt; image.machine(), 0x14c);
    assert_eq!(rt; image.image_base(), 0x40_0000);
    assert_eq!(rt; image.section_count(), 2);
    assert!(rt; has_section(&image, 0, ".text", 0x1000, 0x400));
    let record = image.code_view()?.ok_or("no record")?;
    assert!(rt;
        is_of(
            alloc,
            &record,
            "83020FF38BE487F84C4C44205044422E1",
            "narrow.pdb"
        )?
    );
    Ok(())
}

#[test]
fn age_in_hexadecimal(rt: HostRuntime) -> Result<(), Fail> {
    let identity = PdbIdentity {
        guid: *b"\x01\x02\x03\x04\x05\x06\x07\x08\x09\x0a\x0b\x0c\x0d\x0e\x0f\x10",
        age: 0x1a,
    };
    let text = format!(in rt.alloc(); "{identity}")?;
    assert_eq!(rt; text.as_str(), "0403020106050807090A0B0C0D0E0F101a");
    Ok(())
}
