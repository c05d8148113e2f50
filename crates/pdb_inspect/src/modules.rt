//! The list of modules.

use crate::contributions::{information_of, modules_of, sizes_of_modules};
use crate::fault::Fault;
use crate::loaded::Loaded;
use crate::output::{Output, text_or_unknown};
use pdb_addr2line::KeptModules;
use pdb_listings::{Column, Counts, ModulePart, Part, Value, compiler_of};
use pdb_symbols_modules::Module;
use std::alloc::{AllocError, Global};
use std::io::Write;

const COLUMNS: &[Column] = &[
    Column {
        name: "code",
        before: "",
        width: 10,
    },
    Column {
        name: "read_only",
        before: " ",
        width: 10,
    },
    Column {
        name: "written",
        before: " ",
        width: 10,
    },
    Column {
        name: "zeroed",
        before: " ",
        width: 10,
    },
    Column {
        name: "module",
        before: " ",
        width: 0,
    },
    Column {
        name: "library",
        before: " in ",
        width: 0,
    },
    Column {
        name: "compiler",
        before: " by ",
        width: 0,
    },
];

/// How many bytes the parts of a module have.
#[derive(Clone, Copy)]
struct PartBytes {
    code: u64,
    read_only: u64,
    written: u64,
    zeroed: u64,
}

impl PartBytes {
    /// Adds bytes of a part; at `u64::MAX` a sum stays.
    fn add(&mut self, part: Part, bytes: u64) {
        match part {
            Part::Code => self.code = self.code.saturating_add(bytes),
            Part::ReadOnly => self.read_only = self.read_only.saturating_add(bytes),
            Part::Written => self.written = self.written.saturating_add(bytes),
            Part::Zeroed => self.zeroed = self.zeroed.saturating_add(bytes),
        }
    }

    /// Whether there are none.
    fn is_empty(self) -> bool {
        self.code == 0 && self.read_only == 0 && self.written == 0 && self.zeroed == 0
    }
}

/// How many bytes the parts of each of so many modules have, and, last, those of no module.
fn bytes_of(
    alloc: Global,
    sizes: &Counts<ModulePart>,
    modules: usize,
) -> Result<Vec<PartBytes>, AllocError> {
    let none = PartBytes {
        code: 0,
        read_only: 0,
        written: 0,
        zeroed: 0,
    };
    let mut parts = vec![in alloc; none; modules.saturating_add(1)]?;
    for (key, bytes) in sizes.by_answer() {
        let number = usize::from(key.module).min(modules);
        if let Some(sums) = parts.get_mut(number) {
            sums.add(key.part, *bytes);
        }
    }
    Ok(parts)
}

/// The compiler that made a module, if it is known.
fn compiler(
    alloc: Global,
    kept: &KeptModules<'static>,
    number: usize,
    module: &Module<'_>,
) -> Result<Option<String>, AllocError> {
    match information_of(kept, number, module)? {
        Some(information) => compiler_of(alloc, information),
        None => Ok(None),
    }
}

/// Writes a row: the bytes of a module, its name, its library, and its compiler.
fn write_row<'r, W: Write + Drop>(
    bytes: PartBytes,
    name: Value<'r>,
    library: Value<'r>,
    compiler: Value<'r>,
    output: &mut Output<W>,
) -> Result<(), Fault> {
    let values = [
        Value::Number(bytes.code),
        Value::Number(bytes.read_only),
        Value::Number(bytes.written),
        Value::Number(bytes.zeroed),
        name,
        library,
        compiler,
    ];
    output.row(COLUMNS, &values)
}

/// A text as a value; unknown where it is empty.
fn unless_empty(text: &str) -> Value<'_> {
    if text.is_empty() {
        Value::Unknown
    } else {
        Value::Text(text)
    }
}

/// Writes the row of a module, whose number is given.
fn write_module<W: Write + Drop>(
    alloc: Global,
    kept: &KeptModules<'static>,
    number: usize,
    module: &Module<'_>,
    bytes: PartBytes,
    output: &mut Output<W>,
) -> Result<(), Fault> {
    let compiler = compiler(alloc, kept, number, module)?;
    let Ok(name) = module.module_name(alloc) else {
        return Err(Fault::OutOfMemory);
    };
    let Ok(library) = module.object_file_name(alloc) else {
        return Err(Fault::OutOfMemory);
    };
    write_row(
        bytes,
        Value::Text(&name),
        unless_empty(&library),
        text_or_unknown(&compiler),
        output,
    )
}

/// Writes the rows of modules, each with the bytes of its parts.
fn write_modules<W: Write + Drop>(
    alloc: Global,
    kept: &KeptModules<'static>,
    modules: &[Module<'_>],
    parts: &[PartBytes],
    output: &mut Output<W>,
) -> Result<(), Fault> {
    for (number, (module, bytes)) in modules.iter().zip(parts).enumerate() {
        write_module(alloc, kept, number, module, *bytes, output)?;
    }
    Ok(())
}

/// Writes the row of what was contributed by no module, if anything was.
fn write_others<W: Write + Drop>(parts: &[PartBytes], output: &mut Output<W>) -> Result<(), Fault> {
    match parts.last() {
        Some(bytes) if !bytes.is_empty() => {
            let name = Value::Text("(no module)");
            write_row(*bytes, name, Value::Unknown, Value::Unknown, output)
        }
        _ => Ok(()),
    }
}

/// Writes the modules of a database with their bytes, and then what was contributed by no module,
/// if anything was.
///
/// # Errors
/// Why not all are written.
pub fn write<W: Write + Drop>(
    alloc: Global,
    loaded: Loaded<'_>,
    output: &mut Output<W>,
) -> Result<(), Fault> {
    let modules = modules_of(alloc, loaded)?;
    let parts = bytes_of(alloc, &sizes_of_modules(alloc, loaded)?, modules.len())?;
    output.header(COLUMNS)?;
    write_modules(alloc, loaded.modules, &modules, &parts, output)?;
    write_others(&parts, output)
}
