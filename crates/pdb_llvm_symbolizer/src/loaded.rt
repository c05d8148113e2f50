//! A file that is loaded, and the answers for its addresses.

ghost use Rattle.std.specs.Prelude.{◌≡◌};
ghost use Rattle.pdb_addr2line.specs.Context.{lasting};

use crate::arguments::Arguments;
use crate::choices::FunctionName;
use crate::columns::Columns;
use crate::database::open;
use crate::files::{AskedAddress, LoadedFile, Loads};
use crate::first_row::{FirstRow, with_first_row};
use crate::names::FunctionNames;
use crate::open_error::{OpenError, reason};
use crate::ordered_map::OrderedMap;
use bumpalo::Bump;
use pdb_addr2line::{
    Error, FileContext, FileSymbolizer, Function, Held, SharedFunctionFrames, TRIES,
};
use pdb_llvm_protocol::{
    Command, OwnFrame, ReportedFrame, TextOptions, append_frames, append_no_data, append_no_locals,
    report_frames,
};
use std::alloc::{AllocError, Global};
use std::io::{self, ErrorKind};
use std::marker::PhantomData;
use std::mem;
use std::os::unix::fs::FileExt;
use std::rt::Files;

/// What answers the addresses of a file.
#[derive(Drop)]
pub struct FileAnswers<'a, F: Drop> {
    image_base: u64,
    file: FileSymbolizer<'a, F>,
    texts: AddressTexts<'a>,
    /// The modules that hold addresses which are asked for next; some may be repeated.
    expected: Vec<usize>,
    /// How reading the file failed after it was loaded, if it did.
    failed: Option<ErrorKind>,
}

/// What names the functions of a file, and the columns of its lines.
#[derive(Drop)]
struct AddressTexts<'a> {
    names: FunctionNames<'a>,
    columns: Columns<'a>,
}

/// The facts that a context has of an address: its frames, its function, and the function's first
/// row where that lies after it; and the column of the function's own line.
#[derive(Drop)]
struct KnownAddress<'a> {
    found: Option<SharedFunctionFrames<'a>>,
    function: Option<Function>,
    first: Option<FirstRow<'a>>,
    column: u32,
}

/// The frames at an address; none where the lines or inlined calls there can't be read.
pub fn frames_or_none<'a>(
    context: &mut FileContext<'a>,
    alloc: Global,
    rva: u32,
) -> Result<Option<SharedFunctionFrames<'a>>, AllocError>
    ensures { lasting context.new ≡ lasting context.old }
{
    match context.find_shared_frames(alloc, rva) {
        Ok(found) => Ok(found),
        Err(Error::OutOfMemory) => Err(AllocError),
        Err(_) => Ok(None),
    }
}

/// Appends the answer for an address that isn't of the file's image.
fn append_no_function(
    alloc: Global,
    texts: TextOptions,
    asked: AskedAddress<'_>,
    output: &mut Vec<u8>,
) -> Result<(), AllocError> {
    let no_function = ReportedFrame {
        function: Some(b""),
        file: None,
        line: 0,
        column: 0,
    };
    let frames = [no_function];
    append_frames(
        alloc,
        output,
        texts,
        asked.file,
        Some(asked.address),
        &frames,
    )
}

impl<'a> AddressTexts<'a> {
    /// What names the functions of a file that has this address map, and no columns that are read.
    fn new(alloc: Global, held: &'a Held, map: OrderedMap<'a>) -> AddressTexts<'a> {
        AddressTexts {
            names: FunctionNames::new(held, map),
            columns: Columns::new(alloc, held),
        }
    }

    /// The name of the function at an address, by the names that are asked for.
    fn name_of(
        &mut self,
        alloc: Global,
        arguments: &Arguments<'_>,
        function: &Option<Function>,
        rva: u32,
    ) -> Result<Option<Vec<u8>>, AllocError> {
        let demangle = arguments.demangle;
        let name = match arguments.function {
            FunctionName::None => return Ok(None),
            FunctionName::Short => self.names.short_name(alloc, function, demangle),
            FunctionName::Linkage => self.names.linkage_name(alloc, function, demangle, rva),
        };
        name.map(Some)
    }

    /// The column of the line of the function's own frame at an address, 0 where it isn't known.
    fn column_of(
        &mut self,
        alloc: Global,
        context: &FileContext<'a>,
        found: &Option<SharedFunctionFrames<'a>>,
        rva: u32,
    ) -> Result<u32, AllocError> {
        let (Some(found), Some(number)) = (found, context.module_at(rva)) else {
            return Ok(0);
        };
        let start = self.names.place(found.start_rva);
        let (Some(start), Some(place)) = (start, self.names.place(rva)) else {
            return Ok(0);
        };
        let modules = context.provider();
        self.columns
            .column_at(alloc, modules, number, start, place.offset)
    }

    /// What a context knows of an address.
    fn known_at(
        &mut self,
        alloc: Global,
        context: &mut FileContext<'a>,
        rva: u32,
    ) -> Result<KnownAddress<'a>, AllocError>
        ensures { lasting context.new ≡ lasting context.old }
    {
        let found = frames_or_none(context, alloc, rva)?;
        let function = self.names.function_at(alloc, context, rva)?;
        let first = with_first_row(alloc, context, &function, &found, rva)?;
        let line_at = match &first {
            Some(first) => first.rva,
            None => rva,
        };
        let column = self.column_of(alloc, context, &found, line_at)?;
        Ok(KnownAddress {
            found,
            function,
            first,
            column,
        })
    }

    /// Appends the answer for an address, by its RVA.
    fn append(
        &mut self,
        alloc: Global,
        context: &mut FileContext<'a>,
        arguments: &Arguments<'_>,
        asked: (AskedAddress<'_>, u32),
        output: &mut Vec<u8>,
    ) -> Result<(), AllocError>
        ensures { lasting context.new ≡ lasting context.old }
    {
        match self.known_at(alloc, context, asked.1) {
            Ok(known) => self.append_known(alloc, arguments, asked, &known, output),
            Err(error) => Err(error),
        }
    }

    /// Appends the answer for an address, by its RVA and what is known of it.
    fn append_known(
        &mut self,
        alloc: Global,
        arguments: &Arguments<'_>,
        (asked, rva): (AskedAddress<'_>, u32),
        known: &KnownAddress<'a>,
        output: &mut Vec<u8>,
    ) -> Result<(), AllocError> {
        let name = self.name_of(alloc, arguments, &known.function, rva)?;
        let own = OwnFrame {
            name: name.as_deref(),
            column: known.column,
        };
        let options = arguments.frames;
        let mut frames = report_frames(alloc, &known.found, own, rva, options)?;
        if let Some(first) = &known.first {
            first.report(&mut frames, options, known.column);
        }
        let address = Some(asked.address);
        append_frames(alloc, output, arguments.texts, asked.file, address, &frames)
    }
}

impl<'a, F: FileExt + Drop> FileAnswers<'a, F> {
    /// The answers of a file that is opened, whose image wants to be loaded at this base.
    pub fn new(alloc: Global, file: FileSymbolizer<'a, F>, image_base: u64) -> FileAnswers<'a, F> {
        let map = OrderedMap::new(file.address_map());
        let texts = AddressTexts::new(alloc, file.held(), map);
        FileAnswers {
            image_base,
            file,
            texts,
            expected: Vec::new(alloc),
            failed: None,
        }
    }

    /// Appends the answer for an address that has an RVA, by what was read.
    fn append_at(
        &mut self,
        alloc: Global,
        arguments: &Arguments<'_>,
        asked: AskedAddress<'_>,
        rva: u32,
        output: &mut Vec<u8>,
    ) -> Result<(), AllocError> {
        let Some(mut context) = self.file.take_context() else {
            return Err(AllocError);
        };
        let asked = (asked, rva);
        let appended = self
            .texts
            .append(alloc, &mut context, arguments, asked, output);
        self.file.put_context(context);
        appended
    }

    /// Reads what was asked for and is missing, unless reading the file failed before; returns
    /// whether there is more now.
    fn read_missing(&mut self, alloc: Global) -> bool {
        if self.failed.is_some() {
            return false;
        }
        match self.file.go_on(alloc) {
            Ok(more) => more,
            Err(kind) => {
                self.failed = Some(kind);
                false
            }
        }
    }

    /// Appends the answer for an address that has an RVA. What it lacks is read first.
    ///
    /// # Errors
    /// Where memory ran out, or reading the file failed.
    fn append_rva(
        &mut self,
        alloc: Global,
        arguments: &Arguments<'_>,
        asked: AskedAddress<'_>,
        rva: u32,
        output: &mut Vec<u8>,
    ) -> Result<(), AllocError> {
        let before = output.len();
        for _ in 0..TRIES {
            match self.append_at(alloc, arguments, asked, rva, output) {
                Ok(()) => return Ok(()),
                Err(_) => output.truncate(before),
            }
            if !self.read_missing(alloc) {
                return Err(AllocError);
            }
        }
        Err(AllocError)
    }
}

/// What loads files through a system into an arena.
#[derive(Drop)]
pub struct FileLoader<'a, S, F: Drop> {
    system: &'a S,
    arena: &'a Bump,
    file: PhantomData<F>,
}

impl<'a, S, F: Drop> FileLoader<'a, S, F> {
    /// What loads files through this system into this arena.
    pub fn new(system: &'a S, arena: &'a Bump) -> FileLoader<'a, S, F> {
        FileLoader {
            system,
            arena,
            file: PhantomData,
        }
    }
}

impl<'a, S, F> Loads<FileAnswers<'a, F>> for FileLoader<'a, S, F>
where
    S: Files<File = F> + AllocGlobal,
    F: FileExt + Drop,
{
    fn load(&self, name: &str, arguments: &Arguments<'_>) -> Result<FileAnswers<'a, F>, OpenError> {
        open(self.system, self.arena, name, arguments)
    }
}

impl<'a, F: FileExt + Drop> LoadedFile for FileAnswers<'a, F> {
    fn expect(&mut self, arguments: &Arguments<'_>, address: u64) -> Result<(), AllocError> {
        let Some(rva) = arguments.rva_of(address, self.image_base) else {
            return Ok(());
        };
        if let Some(number) = self.file.module_at(rva) {
            self.expected.push(number)?;
        }
        Ok(())
    }

    fn read_expected(&mut self, alloc: Global) {
        let numbers = mem::replace(&mut self.expected, Vec::new(alloc));
        if self.file.reads_exactly() && !numbers.is_empty() {
            self.file.ask(numbers);
            self.read_missing(alloc);
        }
    }

    fn failed_read(&self) -> Option<&'static str> {
        match self.failed {
            Some(kind) => reason(&io::Error::from(kind)),
            None => None,
        }
    }

    fn append_asked(
        &mut self,
        alloc: Global,
        arguments: &Arguments<'_>,
        asked: AskedAddress<'_>,
        output: &mut Vec<u8>,
    ) -> Result<(), AllocError> {
        let (file, address) = (asked.file, asked.address);
        match (asked.command, arguments.rva_of(address, self.image_base)) {
            (Command::Code, Some(rva)) => self.append_rva(alloc, arguments, asked, rva, output),
            (Command::Code, None) => append_no_function(alloc, arguments.texts, asked, output),
            (Command::Data, _) => append_no_data(alloc, output, arguments.texts, file, address),
            (Command::Frame, _) => append_no_locals(alloc, output, arguments.texts, file, address),
        }
    }
}
