//! Attributes of types, members and pointers: bits of a number, as microsoft-pdb's cvinfo.h has
//! them.

ghost use Rattle.std.specs.Prelude.{◌≡◌};
ghost use Rattle.pdb_records.specs.Attributes.{is_forward, names_unique, introduces, constructs};
ghost use Rattle.pdb_records.specs.Attributes.{kind_of_pointer, mode_of_pointer, points_constant};
ghost use Rattle.pdb_records.specs.Attributes.{size_of_pointer, is_known_pointer, is_to_member};

/// Type properties (CV_prop_t) of a class, a union or an enumeration.
#[derive(Clone, Copy, Debug, Default, PartialEq, Eq, Hash)]
pub struct TypeProperties(u16);

impl TypeProperties {
    /// The properties with these bits.
    pub(crate) fn new(bits: u16) -> TypeProperties
        ensures { result ≡ record { 0 = bits } }
    {
        TypeProperties(bits)
    }

    /// Whether the type is named here and defined elsewhere.
    pub fn forward_reference(self) -> bool
        ensures { result ≡ is_forward self }
    {
        self.0 & 0x80 != 0
    }

    /// Whether the type has a unique name beside its name.
    pub fn has_unique_name(self) -> bool
        ensures { result ≡ names_unique self }
    {
        self.0 & 0x200 != 0
    }
}

/// Field attributes (CV_fldattr_t) of a member.
#[derive(Clone, Copy, Debug, Default, PartialEq, Eq, Hash)]
pub struct FieldAttributes(u16);

impl FieldAttributes {
    /// The attributes with these bits.
    pub(crate) fn new(bits: u16) -> FieldAttributes
        ensures { result ≡ record { 0 = bits } }
    {
        FieldAttributes(bits)
    }

    /// Whether the method is virtual and the first of its name: it has a place of its own in the
    /// table of methods.
    pub fn is_intro_virtual(self) -> bool
        ensures { result ≡ introduces self }
    {
        matches!((self.0 >> 2) & 7, 4 | 6)
    }
}

/// The bit of a function's attributes that marks a constructor.
const CONSTRUCTOR: u16 = 0x200;

/// Function attributes (CV_funcattr_t).
#[derive(Clone, Copy, Debug, Default, PartialEq, Eq, Hash)]
pub struct FunctionAttributes(u16);

impl FunctionAttributes {
    /// The attributes with these bits.
    pub(crate) fn new(bits: u16) -> FunctionAttributes
        ensures { result ≡ record { 0 = bits } }
    {
        FunctionAttributes(bits)
    }

    /// Whether the function is a constructor.
    pub fn is_constructor(self) -> bool
        ensures { result ≡ constructs self }
    {
        self.0 & CONSTRUCTOR != 0
    }
}

/// The kind of a pointer: what it holds.
#[derive(Clone, Copy, Debug, PartialEq, Eq, Hash)]
pub enum PointerKind {
    /// 16 bits.
    Near16,
    /// 16:16 bits, a segment and an offset.
    Far16,
    /// 16:16 bits, a segment and an offset, normalized.
    Huge16,
    /// Based on a segment.
    BaseSeg,
    /// Based on a value.
    BaseVal,
    /// Based on the segment of a value.
    BaseSegVal,
    /// Based on the address of a symbol.
    BaseAddr,
    /// Based on the segment of a symbol's address.
    BaseSegAddr,
    /// Based on a type.
    BaseType,
    /// Based on itself.
    BaseSelf,
    /// 32 bits.
    Near32,
    /// 16:32 bits, a segment and an offset.
    Far32,
    /// 64 bits.
    Ptr64,
}

/// The mode of a pointer: what it leads to, and how it is written.
#[derive(Clone, Copy, Debug, PartialEq, Eq, Hash)]
pub enum PointerMode {
    /// A pointer.
    Pointer,
    /// A reference to a place.
    LValueReference,
    /// A pointer to a member.
    Member,
    /// A pointer to a method.
    MemberFunction,
    /// A reference to a value.
    RValueReference,
}

/// Pointer attributes, of a known kind and mode.
#[derive(Clone, Copy, Debug, Default, PartialEq, Eq, Hash)]
pub struct PointerAttributes(u32);

impl PointerAttributes {
    /// The attributes with these bits.
    pub(crate) fn new(bits: u32) -> PointerAttributes
        ensures { result ≡ record { 0 = bits } }
    {
        PointerAttributes(bits)
    }

    /// Whether the kind and the mode are known.
    pub(crate) fn is_known(self) -> bool
        ensures { result ≡ is_known_pointer self }
    {
        self.0 & 0x1f <= 0xc && (self.0 >> 5) & 7 <= 4
    }

    /// Whether the pointer leads to a member or a method, and so names the class that contains it.
    pub(crate) fn is_to_member(self) -> bool
        ensures { result ≡ is_to_member self }
    {
        matches!((self.0 >> 5) & 7, 2 | 3)
    }

    /// The kind of the pointer.
    pub fn pointer_kind(self) -> PointerKind
        ensures { result ≡ kind_of_pointer self }
    {
        match self.0 & 0x1f {
            0x00 => PointerKind::Near16,
            0x01 => PointerKind::Far16,
            0x02 => PointerKind::Huge16,
            0x03 => PointerKind::BaseSeg,
            0x04 => PointerKind::BaseVal,
            0x05 => PointerKind::BaseSegVal,
            0x06 => PointerKind::BaseAddr,
            0x07 => PointerKind::BaseSegAddr,
            0x08 => PointerKind::BaseType,
            0x09 => PointerKind::BaseSelf,
            0x0a => PointerKind::Near32,
            0x0b => PointerKind::Far32,
            _ => PointerKind::Ptr64,
        }
    }

    /// The mode of the pointer.
    pub fn pointer_mode(self) -> PointerMode
        ensures { result ≡ mode_of_pointer self }
    {
        match (self.0 >> 5) & 7 {
            0 => PointerMode::Pointer,
            1 => PointerMode::LValueReference,
            2 => PointerMode::Member,
            3 => PointerMode::MemberFunction,
            _ => PointerMode::RValueReference,
        }
    }

    /// Whether the pointer itself, and not the type to which it leads, is constant.
    pub fn is_const(self) -> bool
        ensures { result ≡ points_constant self }
    {
        self.0 & 0x400 != 0
    }

    /// The pointer's size in bytes: its own, or else its kind's. 0 where neither is known.
    pub fn size(self) -> u8
        ensures { result ≡ size_of_pointer self }
    {
        let size = (self.0 >> 13) & 0x3f;
        if size != 0 {
            return size as u8;
        }
        match self.0 & 0x1f {
            0x0a | 0x0b => 4,
            0x0c => 8,
            _ => 0,
        }
    }
}
