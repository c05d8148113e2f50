//! Machines (IMAGE_FILE_MACHINE_* of the PE format).

ghost use Rattle.std.specs.Prelude.{◌≡◌};
ghost use Rattle.pdb_symbols_modules.specs.Machine.{machine_of};

/// The machine type for which an image was made.
#[derive(Clone, Copy, Debug, PartialEq, Eq)]
pub enum MachineType {
    /// AMD64, with pointers of 8 bytes.
    Amd64,
    /// ARM64, with pointers of 8 bytes.
    Arm64,
    /// Itanium, with pointers of 8 bytes.
    Ia64,
    /// RISC-V with pointers of 8 bytes.
    RiscV64,
    /// RISC-V with pointers of 16 bytes.
    RiscV128,
    /// Another one, by its number; its pointers have 4 bytes.
    Other(u16),
}

impl MachineType {
    /// The machine with that number.
    pub(crate) fn of(number: u16) -> MachineType
        ensures { result ≡ machine_of number }
    {
        match number {
            0x8664 => MachineType::Amd64,
            0xaa64 => MachineType::Arm64,
            0x0200 => MachineType::Ia64,
            0x5064 => MachineType::RiscV64,
            0x5128 => MachineType::RiscV128,
            other => MachineType::Other(other),
        }
    }
}
