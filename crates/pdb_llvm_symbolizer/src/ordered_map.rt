//! Address maps that can be asked for the places of addresses.

ghost use Rattle.std.specs.Prelude.{◌≡◌};
ghost use Rattle.pdb_addresses.specs.Addresses.{IsOrdered};

use pdb_addr2line::pdb::{AddressMap, PdbInternalSectionOffset, Rva};
use std::marker::Model;

/// An address map whose OMAPs are in the order of their sources, so that they can be halved.
#[derive(Drop)]
pub struct OrderedMap<'a> {
    map: &'a AddressMap<'static>,
}

impl<'a> Model for OrderedMap<'a> {
    ghost use Rattle.pdb_addresses.specs.Addresses.{IsOrdered, Map};

    ghost Value = { Map };

    ghost view = { λ m. m.map.now };

    ghost invariant = { λ m. IsOrdered m.map.now };
}

impl<'a> OrderedMap<'a> {
    /// An address map that is in order.
    pub fn new(map: &'a AddressMap<'static>) -> OrderedMap<'a>
        requires { IsOrdered map.now }
        ensures { result ≡ map.now }
    {
        OrderedMap { map }
    }

    /// The place of an RVA in the space in which the database was written, if it has one.
    pub fn place(&self, rva: u32) -> Option<PdbInternalSectionOffset> {
        Rva(rva).to_internal_offset(self.map)
    }
}
