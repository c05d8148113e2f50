//! The public calls that take memory, each once where there is enough.

use pdb_container::{
    BoundedBytes, Error, Msf, PageList, RawString, SharedBytes, Source, SourceSlice, Stream,
    StringRef, StringTable, open_msf,
};
use pdb_samples::{Container, PageOrder, SampleError};
use std::alloc::Global;
use std::io::ErrorKind;
use std::test::Fail;

/// A table of one name, which isn't UTF-8.
const NAMES: &[u8; 17] = b"\xfe\xef\xfe\xef\x01\0\0\0\x05\0\0\0\0a\xffc\0";

/// A file with 5000 bytes in stream 0 and the table in stream 1.
fn sample(alloc: Global) -> Result<Vec<u8>, SampleError> {
    let mut streams = Vec::new(alloc);
    streams.push(Some(vec![in alloc; 7u8; 5000]?))?;
    streams.push(Some(Vec::from_slice(alloc, NAMES)?))?;
    let container = Container {
        page_size: 0x100,
        streams,
        order: PageOrder::StreamsReversed,
    };
    container.bytes(alloc)
}

/// Stream 1, after eight calls for stream 0.
fn names_stream(alloc: Global) -> Result<Stream<'static>, Fail> {
    let mut container = open_msf(alloc, sample(alloc)?)?;
    for _ in 0..8 {
        container.get(alloc, 0, None)?;
    }
    Ok(container.get(alloc, 1, None)?)
}

/// Whether the name of a table is as written.
fn is_named(table: &StringTable<'_>, alloc: Global) -> Result<bool, Error> {
    let name = StringRef(1).to_string_lossy(alloc, table)?;
    Ok(name.as_str() == "a\u{fffd}c")
}

/// Whether the name of the sample's table is as written.
fn has_name(alloc: Global) -> Result<bool, Fail> {
    let table = StringTable::parse(names_stream(alloc)?)?;
    Ok(is_named(&table, alloc)?)
}

/// Whether a text that is no UTF-8 is as written.
fn has_text(alloc: Global) -> Result<bool, Error> {
    let text = RawString::from(b"\xc3".as_slice()).to_string(alloc)?;
    Ok(text.as_str() == "\u{fffd}")
}

/// `size` bytes from a place on.
fn slice(offset: u64, size: usize) -> SourceSlice {
    SourceSlice { offset, size }
}

/// Whether the view of bytes 1, 2 and 4 of five has these.
fn is_viewed(alloc: Global) -> Result<bool, Fail> {
    let mut source = Vec::from_slice(alloc, b"abcde")?;
    let view = source.view(alloc, &[slice(1, 2), slice(4, 1)])?;
    Ok(view.as_slice() == b"bce".as_slice())
}

/// Pages 0, 1, 4, 5, 2 and 2, of 4096 bytes each.
fn six_pages(alloc: Global) -> Result<PageList, Error> {
    let mut list = PageList::new(alloc, 4096);
    for number in [0, 1, 4, 5, 2, 2] {
        list.push(number)?;
    }
    Ok(list)
}

/// Whether the pages that lie side by side are joined, and no others.
fn are_joined(list: &PageList) -> bool {
    let slices = [
        slice(0, 8192),
        slice(16384, 8192),
        slice(8192, 4096),
        slice(8192, 4096),
    ];
    list.source_slices() == slices.as_slice() && list.len() == 24576
}

/// Whether the first 10000 bytes alone are left.
fn are_cut(list: &PageList) -> bool {
    let slices = [slice(0, 8192), slice(16384, 1808)];
    list.source_slices() == slices.as_slice() && list.len() == 10000
}

/// Whether the pages are joined, and cut.
fn has_pages(alloc: Global) -> Result<[bool; 2], Error> {
    let mut list = six_pages(alloc)?;
    let joined = are_joined(&list);
    list.truncate(10000);
    Ok([joined, are_cut(&list)])
}

/// Whether 1 MB and seven times a small file are copied and no more, and its bytes are shared after
/// that.
fn is_bounded(alloc: Global) -> Result<bool, Fail> {
    let bytes = SharedBytes::new(vec![in alloc; 7u8; 0x1000]?)?;
    let mut file = BoundedBytes::new(bytes);
    let slices = vec![in alloc; slice(0, 0x1000); 0x83]?;
    for _ in 0..2 {
        file.view(alloc, slices.as_slice())?;
    }
    let refused = match file.view(alloc, slices.as_slice()) {
        Ok(_) => false,
        Err(cause) => cause.kind() == ErrorKind::OutOfMemory,
    };
    let shared = file.view(alloc, &[slice(0, 0x1000)])?;
    Ok(refused && shared.as_slice().len() == 0x1000)
}

/// Whether 1 MB and 1,024 times a small file may be listed and no more, and what is refused counts
/// for nothing.
fn is_listed(alloc: Global) -> Result<bool, Fail> {
    let bytes = SharedBytes::new(vec![in alloc; 7u8; 0x1000]?)?;
    let mut file = BoundedBytes::new(bytes);
    let allowed = file.may_list(0x10_0000 + 1024 * 0x1000 - 1);
    let refused = !file.may_list(2);
    Ok(allowed && refused && file.may_list(1) && !file.may_list(1))
}

// The only test of the container that fails where an allocation is refused: its others ask again.
#[test]
fn first_calls_in_ample_memory(rt: HostRuntime) -> Result<(), Fail> {
    let alloc = rt.alloc();
    assert!(rt; has_name(alloc)?);
    assert!(rt; has_text(alloc)?);
    assert!(rt; is_viewed(alloc)?);
    assert!(rt; is_bounded(alloc)?);
    assert!(rt; is_listed(alloc)?);
    let [is_joined, is_cut] = has_pages(alloc)?;
    assert!(rt; is_joined);
    assert!(rt; is_cut);
    Ok(())
}
