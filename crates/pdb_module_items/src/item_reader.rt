//! Types and ids by their indices as a module has them.

ghost use Rattle.std.specs.Prelude.{◌≡◌, Ok, IfOk, IsOkUnless};
ghost use Rattle.std.specs.Option.{option_copied};
ghost use Rattle.pdb_container.specs.declared.error.Error.TheVariants as causes;
ghost use Rattle.pdb_records.specs.IdForms.{id_shape};
ghost use Rattle.pdb_records.specs.Shapes.{shape};
ghost use Rattle.pdb_resolving.specs.Cause.{Finds};
ghost use Rattle.pdb_resolving.specs.Fault.{Answers};
ghost use Rattle.pdb_resolving.specs.Resolving.{none_failed_of};
ghost use Rattle.pdb_module_items.specs.Reading.{id_in, type_at, id_at, parts_by, pointer_bytes};
ghost use Rattle.pdb_module_items.specs.Reading.{reading_for};
ghost use Rattle.pdb_module_items.specs.Sizes.{size_at, StatesAt};

use crate::item_map::ItemMap;
use crate::sizes::Stated;
use crate::type_size_cache::TypeSizeCache;
use pdb_container::{IdIndex, StringTable, TypeIndex};
use pdb_container_types::{IdInformation, TypeInformation};
use pdb_records::{IdData, TypeData};
use pdb_resolving::stop::{self, Stop};
use pdb_resolving::{Error, ModuleProvider, Resolver, Result};
use pdb_symbols_modules::{DebugInformation, MachineType, Module};
use std::alloc::{AllocError, Global};
use std::marker::Model;

/// The number of types through which a size may lead, the one that is asked for among them: as many
/// as a path of a type's text has (`MAX_LENGTH` of `pdb_type_printing`).
const MOST_STEPS: u32 = 1024;

/// Reads types and ids by their indices, as the modules of a database have them.
#[derive(Drop)]
pub struct ItemReader<'a, 's, P: ModuleProvider> {
    /// Resolves indices that lead into other modules, and knows the modules.
    pub resolver: Resolver<'a, 's, P>,
    types: TypeSizeCache<'a>,
    ids: ItemMap<'a, IdIndex>,
    pointer_size: u64,
}

impl<'a, 's, P: ModuleProvider> Model for ItemReader<'a, 's, P> {
    ghost use Rattle.pdb_module_items.specs.Reading.{Reading};

    ghost Value = { Reading P };

    ghost view = { λ r. record {
      modules = r.resolver;
      types = r.types;
      ids = r.ids;
      pointer_size = r.pointer_size;
    } };
}

impl<'a, 's, P: ModuleProvider> ItemReader<'a, 's, P> {
    /// A reader over the provider of the modules, their entries in order, the image for which the
    /// database was written, the tables of types and of ids, and the table of names, if there is
    /// one. No table of a module stands as failed.
    ///
    /// # Errors
    /// `OutOfMemory`, and no other.
    pub fn new(
        alloc: Global,
        provider: &'a P,
        modules: Vec<Module<'a>>,
        debug_information: &DebugInformation<'_>,
        type_information: &'a TypeInformation<'_>,
        id_information: &'a IdInformation<'_>,
        string_table: Option<&'a StringTable<'s>>,
    ) -> pdb_container::Result<ItemReader<'a, 's, P>>
        ensures parts { IfOk result (λ r. r ≡ reading_for debug_information.now
            (none_failed_of provider.now modules.entry.items (option_copied string_table.entry))
            type_information.now id_information.now) }
        ensures memory { IsOkUnless result causes.OutOfMemory }
    {
        let types = TypeSizeCache::of(alloc, type_information)?;
        let ids = ItemMap::of_ids(alloc, id_information)?;
        Ok(ItemReader {
            resolver: Resolver::new(alloc, provider, modules, string_table),
            types,
            ids,
            pointer_size: pointer_size(debug_information.machine_type()),
        })
    }

    /// The type with that index, as the module at `module_index` (counted from 0) names it.
    ///
    /// # Errors
    /// The first fault of: resolving the index ([`Resolver::resolve`]); finding its item
    /// (`TypeNotFound`, or the fault at which the table ends); parsing its record. `OutOfMemory`.
    #[tactic(auto, using(pdb_resolving::proofs::Ending::ends_on, pdb_resolving::proofs::Ending::ends_by_error), unfolding(crate::specs::Reading::type_at))]
    pub fn read_type(
        &mut self,
        alloc: Global,
        module_index: usize,
        index: TypeIndex,
    ) -> stop::Result<TypeData<'a>>
        ensures same { self.new ≡ self.old }
        ensures value { Finds shape result
            (type_at (parts_by P.provided self.old) module_index index.0) }
    {
        match self.resolver.resolve(alloc, module_index, index.0) {
            Ok(resolved) => Ok(self.types.read(alloc, resolved)?),
            Err(stop) => Err(stop),
        }
    }

    /// The id with that index, as the module at `module_index` (counted from 0) names it.
    ///
    /// # Errors
    /// As [`ItemReader::read_type`].
    #[tactic(auto, using(pdb_resolving::proofs::Ending::ends_on, pdb_resolving::proofs::Ending::ends_by_error), unfolding(crate::specs::Reading::id_at))]
    pub fn read_id(
        &mut self,
        alloc: Global,
        module_index: usize,
        index: IdIndex,
    ) -> stop::Result<IdData<'a>>
        ensures same { self.new ≡ self.old }
        ensures value { Finds id_shape result
            (id_at (parts_by P.provided self.old) module_index index.0) }
    {
        match self.resolver.resolve(alloc, module_index, index.0) {
            Ok(resolved) => Ok(read_id_in(alloc, &mut self.ids, resolved)?),
            Err(stop) => Err(stop),
        }
    }

    /// The size in bytes of the type with that index, as the module at `module_index` (counted from
    /// 0) names it. It is 0 for a type that can't be read, that leads back to itself, or whose size
    /// is that of more than 1,023 others in a row.
    ///
    /// # Errors
    /// `OutOfMemory`, and no other.
    #[tactic(auto, using(crate::proofs::SizeSteps::size_known, crate::proofs::SizeSteps::size_on, crate::proofs::SizeSteps::size_past))]
    pub fn size(&mut self, alloc: Global, module_index: usize, index: TypeIndex) -> Result<u64>
        ensures same { self.new ≡ self.old }
        ensures value { Answers (λ n. n) result
            (Ok (size_at (parts_by P.provided self.old) module_index index.0)) }
    {
        let mut current = index;
        for _ in 0..MOST_STEPS {
            match self.stated(alloc, module_index, current)? {
                Stated::Bytes(size) => return Ok(size),
                Stated::SameAs(underlying) => current = underlying,
            }
        }
        Ok(0)
    }

    /// The stated size of the type with that index; 0 where it can't be read.
    fn stated(
        &mut self,
        alloc: Global,
        module_index: usize,
        index: TypeIndex,
    ) -> std::result::Result<Stated, AllocError>
        ensures same { self.new ≡ self.old }
        ensures size { IfOk result (StatesAt (parts_by P.provided self.old) module_index index.0) }
    {
        match self.resolver.resolve(alloc, module_index, index.0) {
            Ok(resolved) => self.types.stated(alloc, self.pointer_size, resolved),
            Err(Stop::ByError(Error::OutOfMemory)) => Err(AllocError),
            Err(_) => Ok(Stated::Bytes(0)),
        }
    }
}

/// The number of bytes of a machine's pointers.
fn pointer_size(machine: MachineType) -> u64
    ensures { result ≡ pointer_bytes machine }
{
    match machine {
        MachineType::Amd64 => 8,
        MachineType::Arm64 => 8,
        MachineType::Ia64 => 8,
        MachineType::RiscV64 => 8,
        MachineType::RiscV128 => 16,
        MachineType::Other(_) => 4,
    }
}

/// The id with that index of the table. Its item's fault, or that of its record.
#[tactic(auto, unfolding(crate::specs::Reading::id_in))]
fn read_id_in<'t>(alloc: Global, ids: &mut ItemMap<'t, IdIndex>, index: u32) -> Result<IdData<'t>>
    ensures same { ids.new ≡ ids.old }
    ensures value { Answers id_shape result (id_in ids.old index) }
{
    let item = ids.try_get(IdIndex(index))?;
    Ok(item.parse(alloc)?)
}
