//! The sections of an image and of the space in which its database was written, and the maps
//! between the two spaces.

ghost use Rattle.std.specs.Prelude.{◌≡◌, option_map, IfOk};
ghost use Rattle.std.specs.Bool.{Decides};
ghost use Rattle.pdb_addresses.specs.Addresses.{map_of, map_of_vectors, IsInOrder, IsOrdered};
ghost use Rattle.pdb_addresses.specs.Addresses.{is_in_order as in_order, is_ordered, inner, outer};
ghost use Rattle.pdb_addresses.specs.Omap.{translated, records_of};

use crate::omap::{OMAPRecord, are_sources_in_order, lookup};
use crate::section_list::SectionList;
use crate::sections::ImageSectionHeader;
use std::alloc::{AllocError, Global};
use std::marker::{Model, PhantomData};

/// An address map: translates addresses of an image to those of its database, and back. The two
/// differ where a tool has moved the image's code after the database was written.
#[derive(Debug, Drop)]
pub struct AddressMap<'s> {
    original_sections: Option<SectionList>,
    image_sections: SectionList,
    to_original: Option<Vec<OMAPRecord>>,
    to_image: Option<Vec<OMAPRecord>>,
    of: PhantomData<&'s ()>,
}

impl<'s> Model for AddressMap<'s> {
    ghost use Rattle.std.specs.Prelude.{option_map};
    ghost use Rattle.pdb_addresses.specs.Addresses.{Map, map_of};

    ghost Value = { Map };

    ghost view = { λ m. map_of m.original_sections m.image_sections
        (option_map (λ v. v.items) m.to_original) (option_map (λ v. v.items) m.to_image) };
}

impl<'s> AddressMap<'s> {
    /// An address map made of these parts. `original_sections` are those of the space in which the
    /// database was written. Without them that space is the image's, and the other two aren't used.
    /// `to_original` maps addresses of the image into that space, and `to_image` maps them back.
    /// Without one of them addresses keep their numbers in that direction.
    ///
    /// # Errors
    /// `AllocError` when memory runs out.
    pub fn new(
        alloc: Global,
        original_sections: Option<Vec<ImageSectionHeader>>,
        image_sections: Vec<ImageSectionHeader>,
        to_original: Option<Vec<OMAPRecord>>,
        to_image: Option<Vec<OMAPRecord>>,
    ) -> Result<AddressMap<'s>, AllocError>
        ensures { IfOk result (λ m.
            m ≡ map_of_vectors original_sections image_sections to_original to_image) }
    {
        Ok(AddressMap {
            original_sections: list_if_there(alloc, original_sections)?,
            image_sections: SectionList::new(alloc, image_sections)?,
            to_original,
            to_image,
            of: PhantomData,
        })
    }

    /// Whether translations may be asked for: whether no source of either map lies below the one
    /// before it.
    pub fn is_ordered(&self) -> bool
        ensures value { result ≡ is_ordered self.now }
        ensures meaning { Decides result (IsOrdered self.now) }
    {
        is_in_order(self.to_internal()) && is_in_order(self.to_image())
    }

    /// The sections of the space in which the database was written.
    pub(crate) fn internal_sections(&self) -> &SectionList
        ensures { result.now ≡ self.now.internal }
    {
        match &self.original_sections {
            None => &self.image_sections,
            Some(sections) => sections,
        }
    }

    /// The headers of the image's sections, in their order.
    pub fn image_section_headers(&self) -> &[ImageSectionHeader]
        ensures { result.now ≡ self.now.image }
    {
        self.image_sections.as_slice()
    }

    /// The sections of the image.
    pub(crate) fn image_sections(&self) -> &SectionList
        ensures { result.now ≡ self.now.image }
    {
        &self.image_sections
    }

    /// The map from addresses of the image to internal ones, if there is one.
    pub(crate) fn to_internal(&self) -> Option<&[OMAPRecord]>
        ensures { records_of result ≡ self.now.to_internal }
    {
        match (&self.original_sections, &self.to_original) {
            (Some(_), Some(records)) => Some(records),
            _ => None,
        }
    }

    /// The map from internal addresses to those of the image, if there is one.
    pub(crate) fn to_image(&self) -> Option<&[OMAPRecord]>
        ensures { records_of result ≡ self.now.to_image }
    {
        match (&self.original_sections, &self.to_image) {
            (Some(_), Some(records)) => Some(records),
            _ => None,
        }
    }

    /// The internal address of an address of the image.
    pub(crate) fn inner(&self, address: u32) -> Option<u32>
        requires { IsOrdered self.now }
        ensures { result ≡ inner self.now address }
    {
        translate(self.to_internal(), address)
    }

    /// The address of the image of an internal address.
    pub(crate) fn outer(&self, address: u32) -> Option<u32>
        requires { IsOrdered self.now }
        ensures { result ≡ outer self.now address }
    {
        translate(self.to_image(), address)
    }
}

/// The list of sections, if there are any.
fn list_if_there(
    alloc: Global,
    sections: Option<Vec<ImageSectionHeader>>,
) -> Result<Option<SectionList>, AllocError>
    ensures { IfOk result (λ s. s ≡ option_map (λ v. v.items) sections) }
{
    match sections {
        None => Ok(None),
        Some(headers) => Ok(Some(SectionList::new(alloc, headers)?)),
    }
}

/// Whether no source of a map lies below the one before it.
fn is_in_order(omap: Option<&[OMAPRecord]>) -> bool
    ensures { result ≡ in_order (records_of omap.entry) }
{
    match omap {
        None => true,
        Some(records) => are_sources_in_order(records),
    }
}

/// The address that an address becomes; itself without a map.
fn translate(omap: Option<&[OMAPRecord]>, address: u32) -> Option<u32>
    requires { IsInOrder (records_of omap) }
    ensures { result ≡ translated (records_of omap.entry) address }
{
    match omap {
        None => Some(address),
        Some(records) => lookup(records, address),
    }
}
