//! The printer of types, and its readings.

ghost use Rattle.std.specs.Prelude.{◌≡◌, ◌∷◌, [], Ok};
ghost use Rattle.pdb_records.specs.Shapes.{shape, array_form};
ghost use Rattle.pdb_records.specs.IdForms.{id_shape};
ghost use Rattle.pdb_resolving.specs.Cause.{Finds};
ghost use Rattle.pdb_resolving.specs.Fault.{Answers};
ghost use Rattle.pdb_type_printing.specs.Arrays.{elements_of};
ghost use Rattle.pdb_type_printing.specs.Printing.{elements_seen, env_for, with_failed};
ghost use Rattle.pdb_type_printing.specs.This.{this_of, this_to};

use crate::asker::Asker;
use crate::brackets::first_or_zero;
use crate::elements::{Elements, MAX_ELEMENTS, array_step};
use crate::flags::TypeFormatterFlags;
use crate::index_path::IndexPath;
use crate::objects::this_behind;
use pdb_container::{IdIndex, TypeIndex};
use pdb_module_items::ItemReader;
use pdb_records::{ArrayType, IdData, TypeData};
use pdb_resolving::stop::{Result, Stop};
use pdb_resolving::{Error, ModuleProvider};
use std::marker::Model;

/// Prints types by their indices, as the modules of a database have them.
pub struct TypePrinter<'a, 's, P: ModuleProvider> {
    /// Reads types and ids.
    pub reader: ItemReader<'a, 's, P>,
    pub(crate) flags: TypeFormatterFlags,
}

impl<'a, 's, P: ModuleProvider> Model for TypePrinter<'a, 's, P> {
    ghost use Rattle.pdb_type_printing.specs.Printing.{Formatting};

    ghost Value = { Formatting P };

    ghost view = { λ f. record { reading = f.reader; flags = f.flags.bits } };
}

impl<'a, 's, P: ModuleProvider> Drop for TypePrinter<'a, 's, P> {
    fn drop(self) {
        let TypePrinter { reader, flags: _ } = self;
        drop(reader);
    }
}

impl<'a, 's, P: ModuleProvider> TypePrinter<'a, 's, P> {
    /// A printer over a reader, with a formatter's flags.
    pub fn new(reader: ItemReader<'a, 's, P>, flags: TypeFormatterFlags) -> TypePrinter<'a, 's, P>
        ensures { result ≡ record { reading = reader.entry; flags = flags.bits } }
    {
        TypePrinter { reader, flags }
    }

    /// The formatter's flags.
    pub fn flags(&self) -> TypeFormatterFlags
        ensures { result.bits ≡ self.now.flags }
    {
        self.flags
    }

    /// The type with that index, as the asking module names it.
    ///
    /// # Errors
    /// Those of [`ItemReader::read_type`].
    pub fn read(&mut self, asker: Asker, index: TypeIndex) -> Result<TypeData<'a>>
        ensures same { self.new ≡ self.old }
        ensures value { Finds shape result
            ((env_for P.provided self.old asker).read index.0) }
    {
        self.reader
            .read_type(asker.alloc, asker.module_index, index)
    }

    /// The id with that index, as the asking module names it.
    ///
    /// # Errors
    /// Those of [`ItemReader::read_id`].
    pub fn read_id(&mut self, asker: Asker, index: IdIndex) -> Result<IdData<'a>>
        ensures same { self.new ≡ self.old }
        ensures value { Finds id_shape result
            ((env_for P.provided self.old asker).read_id index.0) }
    {
        self.reader.read_id(asker.alloc, asker.module_index, index)
    }

    /// The size in bytes of the type with that index, as the asking module names it.
    ///
    /// # Errors
    /// `OutOfMemory`, and no other.
    pub fn size(&mut self, asker: Asker, index: TypeIndex) -> pdb_resolving::Result<u64>
        ensures same { self.new ≡ self.old }
        ensures value { Answers (λ n. n) result
            (Ok ((env_for P.provided self.old asker).size index.0)) }
    {
        self.reader.size(asker.alloc, asker.module_index, index)
    }

    /// The arrays that begin with this one, down to the innermost element, which is no array.
    ///
    /// # Errors
    /// `CircularTypeDefinition` where an element comes again, and after 1,024 elements; the fault
    /// of an element that can't be read.
    #[inline(never)]
    pub(crate) fn elements_of(&mut self, asker: Asker, array: &ArrayType) -> Result<Elements<'a>>
        ensures same { self.new ≡ self.old }
        ensures value { Finds elements_seen result
            (elements_of (env_for P.provided self.old asker) (array_form array.now)) }
    {
        let mut passed = IndexPath::new(asker.alloc);
        let mut dimensions = Vec::new(asker.alloc);
        dimensions.push(first_or_zero(&array.dimensions))?;
        let mut index = array.element_type;
        for _ in 0..MAX_ELEMENTS {
            if passed.contains(index.0) {
                return Err(Stop::ByError(Error::CircularTypeDefinition(index.0)));
            }
            passed.push(index.0)?;
            let found = self.read(asker, index)?;
            match array_step(&found) {
                None => {
                    return Ok(Elements {
                        dimensions,
                        index,
                        found,
                    });
                }
                Some((dimension, element)) => {
                    dimensions.push(dimension)?;
                    index = element;
                }
            }
        }
        Err(Stop::ByError(Error::CircularTypeDefinition(index.0)))
    }

    /// Whether a method's object is constant, and the pointer to it as an extra first argument,
    /// where that pointer isn't plainly one to the class: the class itself or a Modifier of it. A
    /// static method has no such pointer.
    pub(crate) fn this_of(
        &mut self,
        asker: Asker,
        class: TypeIndex,
        this: Option<TypeIndex>,
    ) -> Result<(bool, Option<TypeIndex>)>
        ensures same { self.new ≡ self.old }
        ensures value { Finds (λ x. x) result
            (this_of (env_for P.provided self.old asker) class this) }
    {
        let Some(this) = this else {
            return Ok((false, None));
        };
        match self.read(asker, this)? {
            TypeData::Pointer(t) => self.this_to(asker, class, this, t.underlying_type),
            _ => Ok((false, Some(this))),
        }
    }

    /// The pointer to a method's object, by the index to which it points.
    fn this_to(
        &mut self,
        asker: Asker,
        class: TypeIndex,
        this: TypeIndex,
        target: TypeIndex,
    ) -> Result<(bool, Option<TypeIndex>)>
        ensures same { self.new ≡ self.old }
        ensures value { Finds (λ x. x) result
            (this_to (env_for P.provided self.old asker) class this target) }
    {
        if target.0 == class.0 {
            return Ok((false, None));
        }
        let found = self.read(asker, target)?;
        Ok(this_behind(class, this, &found))
    }
}
