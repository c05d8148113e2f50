//! Bytes by function, source file, folder, module, library or section.

use crate::arguments::{By, Request, SizeOptions};
use crate::contributions::{contributions_of, modules_of, sizes_of_modules};
use crate::fault::Fault;
use crate::loaded::{Loaded, Needs};
use crate::output::{Output, share_of};
use pdb_addresses::{AddressMap, ImageSectionHeader};
use pdb_listings::{
    Column, Counts, Named, Size, Value, add_bytes, file_sizes, function_sizes, joined_sizes,
    largest_first, listed, total_of,
};
use pdb_symbols_modules::Module;
use std::alloc::{AllocError, Global};
use std::io::Write;

const COLUMNS: &[Column] = &[
    Column {
        name: "bytes",
        before: "",
        width: 10,
    },
    Column {
        name: "share",
        before: " ",
        width: 6,
    },
    Column {
        name: "name",
        before: " ",
        width: 0,
    },
];

/// The address after the last of an image's sections.
fn end_of(map: &AddressMap<'_>) -> u32 {
    let mut end = 0;
    for header in map.image_section_headers() {
        let last = header.virtual_address.saturating_add(header.virtual_size);
        end = end.max(last);
    }
    end
}

/// Adds bytes to a name, unless all names together would have more than 2^64 - 1.
///
/// # Errors
/// `AllocError` when memory runs out.
pub fn add(
    alloc: Global,
    table: &mut Counts<Named>,
    name: &str,
    bytes: u64,
) -> Result<(), AllocError> {
    if table.total().checked_add(bytes).is_none() {
        return Ok(());
    }
    add_bytes(alloc, table, name, bytes)
}

/// Bytes by function, by source file, or by its folder.
fn by_code(
    alloc: Global,
    loaded: Loaded<'_>,
    by: By,
    undecorate: bool,
) -> Result<Counts<Named>, Fault> {
    let map = loaded.address_map(alloc)?;
    let end = end_of(map);
    let context = loaded.context(alloc)?;
    let sizes = match by {
        By::Function => function_sizes(alloc, map, context, 0, end, undecorate),
        _ => file_sizes(alloc, map, context, 0, end, matches!(by, By::Folder)),
    };
    Ok(sizes?)
}

/// Bytes by function, where padding counts for the function before it in its contribution.
fn by_function_joined(
    alloc: Global,
    loaded: Loaded<'_>,
    undecorate: bool,
) -> Result<Counts<Named>, Fault> {
    let contributions = contributions_of(alloc, loaded)?;
    let context = loaded.context(alloc)?;
    Ok(joined_sizes(alloc, context, &contributions, undecorate)?)
}

/// Adds bytes of a module to its name, or to that of its library.
fn add_module(
    alloc: Global,
    table: &mut Counts<Named>,
    module: Option<&Module<'_>>,
    by_library: bool,
    bytes: u64,
) -> Result<(), AllocError> {
    let Some(module) = module else {
        return add(alloc, table, "(no module)", bytes);
    };
    let name = if by_library {
        module.object_file_name(alloc)
    } else {
        module.module_name(alloc)
    };
    let Ok(name) = name else {
        return Err(AllocError);
    };
    if by_library && name.is_empty() {
        return add(alloc, table, "(no library)", bytes);
    }
    add(alloc, table, &name, bytes)
}

/// Bytes that modules contribute, by the module or by its library.
fn by_module(alloc: Global, loaded: Loaded<'_>, by_library: bool) -> Result<Counts<Named>, Fault> {
    let mut table = Counts::new(alloc);
    let modules = modules_of(alloc, loaded)?;
    let sizes = sizes_of_modules(alloc, loaded)?;
    for (key, bytes) in sizes.by_answer() {
        let module = modules.get(usize::from(key.module));
        add_module(alloc, &mut table, module, by_library, *bytes)?;
    }
    Ok(table)
}

/// Bytes that are contributed to sections.
fn by_section(alloc: Global, loaded: Loaded<'_>) -> Result<Counts<Named>, Fault> {
    let mut table = Counts::new(alloc);
    let headers = loaded.held.address_map().image_section_headers();
    for contribution in contributions_of(alloc, loaded)? {
        let number = usize::from(contribution.offset.section);
        let name = section_name(headers, number);
        add(alloc, &mut table, name, u64::from(contribution.size))?;
    }
    Ok(table)
}

/// The name of the section of a number, counted from 1.
fn section_name(headers: &[ImageSectionHeader], number: usize) -> &str {
    let Some(place) = number.checked_sub(1) else {
        return "(no section)";
    };
    match headers.get(place) {
        Some(header) => header.name(),
        None => "(no section)",
    }
}

/// The sizes of a database, in the order of their names.
///
/// # Errors
/// `Load`, `OutOfMemory`.
pub fn sizes_of(
    alloc: Global,
    loaded: Loaded<'_>,
    options: SizeOptions,
    undecorate: bool,
) -> Result<Vec<Size>, Fault> {
    let table = match options.by {
        By::Function if options.join_padding => by_function_joined(alloc, loaded, undecorate),
        By::Function | By::File | By::Folder => by_code(alloc, loaded, options.by, undecorate),
        By::Module => by_module(alloc, loaded, false),
        By::Library => by_module(alloc, loaded, true),
        By::Section => by_section(alloc, loaded),
    }?;
    Ok(listed(alloc, &table)?)
}

/// The parts of a database that sizes are counted over.
pub fn needs_of(by: By) -> Needs {
    match by {
        By::Function | By::File | By::Folder => Needs::Modules,
        By::Module | By::Library | By::Section => Needs::Tables,
    }
}

/// Writes a row.
fn write_row<W: Write + Drop>(
    bytes: u64,
    total: u64,
    name: &str,
    output: &mut Output<W>,
) -> Result<(), Fault> {
    let share = share_of(bytes, total);
    output.row(COLUMNS, &[Value::Number(bytes), share, Value::Text(name)])
}

/// Writes sizes, at most `top` where that is said; in lines for people then those that are left
/// out, and the total.
fn write_sizes<W: Write + Drop>(
    sizes: &[Size],
    top: Option<usize>,
    output: &mut Output<W>,
) -> Result<(), Fault> {
    let total = total_of(sizes);
    let count = top.unwrap_or(sizes.len()).min(sizes.len());
    let (listed, others) = sizes.split_at(count);
    output.header(COLUMNS)?;
    for size in listed {
        write_row(size.bytes, total, size.name.as_str(), output)?;
    }
    if !output.is_text() {
        return Ok(());
    }
    if !others.is_empty() {
        write_row(total_of(others), total, "(others)", output)?;
    }
    write_row(total, total, "(total)", output)
}

/// Writes the sizes of a database that are asked for, the largest first.
///
/// # Errors
/// Why not all are written.
pub fn write<W: Write + Drop>(
    alloc: Global,
    loaded: Loaded<'_>,
    request: &Request<'_>,
    output: &mut Output<W>,
) -> Result<(), Fault> {
    let mut sizes = sizes_of(alloc, loaded, request.sizes, request.demangle)?;
    largest_first(&mut sizes)?;
    write_sizes(&sizes, request.sizes.top, output)
}
