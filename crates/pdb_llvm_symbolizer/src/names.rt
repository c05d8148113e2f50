//! The names of functions at addresses, as llvm-symbolizer chooses them.

ghost use Rattle.std.specs.Prelude.{◌≡◌};
ghost use Rattle.pdb_addr2line.specs.Context.{lasting};

use crate::ordered_map::OrderedMap;
use crate::publics::Publics;
use crate::undecorated::undecorated;
use pdb_addr2line::pdb::{MachineType, PdbInternalSectionOffset};
use pdb_addr2line::{FileContext, Function, Held};
use pdb_owners::FunctionKey;
use std::alloc::{AllocError, Global};

/// The number of 32-bit x86 among machines.
const X86: u16 = 0x14c;

/// What names the functions of a file.
#[derive(Drop)]
pub struct FunctionNames<'a> {
    map: OrderedMap<'a>,
    publics: Publics<'a>,
    /// Whether the file is of 32-bit x86.
    is_x86: bool,
}

/// Whether a file is of 32-bit x86.
fn is_x86(held: &Held) -> bool {
    matches!(
        held.debug_information().machine_type(),
        MachineType::Other(X86)
    )
}

/// The name of a function, empty where there is none.
fn stored_name(function: &Option<Function>) -> &[u8] {
    match function {
        Some(
            Function {
                name: Some(name),
                ..
            },
        ) => name.as_str().as_bytes(),
        _ => b"",
    }
}

impl<'a> FunctionNames<'a> {
    /// What names the functions of a file that has this address map.
    pub fn new(held: &'a Held, map: OrderedMap<'a>) -> FunctionNames<'a> {
        let sections = held.address_map().image_section_headers();
        FunctionNames {
            map,
            publics: Publics::new(held.symbol_records(), sections),
            is_x86: is_x86(held),
        }
    }

    /// The place of an RVA, if it has one.
    pub fn place(&self, rva: u32) -> Option<PdbInternalSectionOffset> {
        self.map.place(rva)
    }

    /// The procedure that covers an address, if there is one.
    ///
    /// # Errors
    /// Where memory ran out.
    #[tactic(auto, using(crate::proofs::ContextSteps::lasting_same))]
    pub fn function_at(
        &self,
        alloc: Global,
        context: &mut FileContext<'a>,
        rva: u32,
    ) -> Result<Option<Function>, AllocError>
        ensures { lasting context.new ≡ lasting context.old }
    {
        let Some(place) = self.map.place(rva) else {
            return Ok(None);
        };
        let Ok((key, _)) = context.find_key_run(alloc, place, 1) else {
            return Err(AllocError);
        };
        let Some(key @ FunctionKey::Procedure(_, _)) = key else {
            return Ok(None);
        };
        match context.function_by_key(alloc, &key) {
            Ok(function) => Ok(function),
            Err(_) => Err(AllocError),
        }
    }

    /// A name as it is reported.
    fn text(&self, alloc: Global, name: &[u8], demangle: bool) -> Result<Vec<u8>, AllocError> {
        if demangle {
            undecorated(alloc, name, self.is_x86)
        } else {
            Vec::from_slice(alloc, name)
        }
    }

    /// The name of a procedure without arguments; empty where there is none.
    ///
    /// # Errors
    /// Where memory ran out.
    pub fn short_name(
        &self,
        alloc: Global,
        function: &Option<Function>,
        demangle: bool,
    ) -> Result<Vec<u8>, AllocError> {
        self.text(alloc, stored_name(function), demangle)
    }

    /// The name at an address with arguments: that of the public symbol before it, however far;
    /// but where a procedure covers the address, and that symbol lies elsewhere than at its start,
    /// the procedure's. Empty where there is neither.
    ///
    /// # Errors
    /// Where memory ran out.
    pub fn linkage_name(
        &mut self,
        alloc: Global,
        function: &Option<Function>,
        demangle: bool,
        rva: u32,
    ) -> Result<Vec<u8>, AllocError> {
        let public = self.publics.nearest(alloc, rva)?;
        let name = match (&public, function) {
            (Some(public), Some(function))
                if self.publics.rva_of(public) != Some(function.start_rva) => { None }
            (Some(public), _) => Some(public.name.as_bytes()),
            (None, _) => None,
        };
        self.text(alloc, name.unwrap_or(stored_name(function)), demangle)
    }
}
