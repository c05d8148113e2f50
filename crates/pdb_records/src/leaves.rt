//! Leaves (`LF_*`, LEAF_ENUM_e of microsoft-pdb's cvinfo.h): the numbers that name a record's kind.
//! Names that end in `_ST` are those of older records, with Pascal strings.

/// A base class.
pub const LF_BCLASS: u16 = 0x1400;

/// A virtual base class that the class itself names.
pub const LF_VBCLASS: u16 = 0x1401;

/// A virtual base class that only a base class names.
pub const LF_IVBCLASS: u16 = 0x1402;

/// The list that continues a list of members.
pub const LF_INDEX: u16 = 0x1404;

/// The pointer to a virtual function table.
pub const LF_VFUNCTAB: u16 = 0x1409;

/// A value of an enumeration, in the older form.
pub const LF_ENUMERATE_ST: u16 = 0x0403;

/// A data member, in the older form.
pub const LF_MEMBER_ST: u16 = 0x1405;

/// A static data member, in the older form.
pub const LF_STMEMBER_ST: u16 = 0x1406;

/// Methods of one name, in the older form.
pub const LF_METHOD_ST: u16 = 0x1407;

/// A nested type, in the older form.
pub const LF_NESTTYPE_ST: u16 = 0x1408;

/// A method that is alone of its name, in the older form.
pub const LF_ONEMETHOD_ST: u16 = 0x140b;

/// A nested type with attributes, in the older form.
pub const LF_NESTTYPEEX_ST: u16 = 0x140d;

/// A constant, volatile or unaligned type.
pub const LF_MODIFIER: u16 = 0x1001;

/// A pointer or a reference.
pub const LF_POINTER: u16 = 0x1002;

/// An array, in the older form.
pub const LF_ARRAY_ST: u16 = 0x1003;

/// A class, in the older form.
pub const LF_CLASS_ST: u16 = 0x1004;

/// A struct, in the older form.
pub const LF_STRUCTURE_ST: u16 = 0x1005;

/// A union, in the older form.
pub const LF_UNION_ST: u16 = 0x1006;

/// An enumeration, in the older form.
pub const LF_ENUM_ST: u16 = 0x1007;

/// The type of a function that is no method.
pub const LF_PROCEDURE: u16 = 0x1008;

/// The type of a method.
pub const LF_MFUNCTION: u16 = 0x1009;

/// A list of the types of arguments.
pub const LF_ARGLIST: u16 = 0x1201;

/// A list of members.
pub const LF_FIELDLIST: u16 = 0x1203;

/// Some bits of a number.
pub const LF_BITFIELD: u16 = 0x1205;

/// A list of the methods of one name.
pub const LF_METHODLIST: u16 = 0x1206;

/// A value of an enumeration.
pub const LF_ENUMERATE: u16 = 0x1502;

/// An array.
pub const LF_ARRAY: u16 = 0x1503;

/// A class.
pub const LF_CLASS: u16 = 0x1504;

/// A struct.
pub const LF_STRUCTURE: u16 = 0x1505;

/// A union.
pub const LF_UNION: u16 = 0x1506;

/// An enumeration.
pub const LF_ENUM: u16 = 0x1507;

/// A data member.
pub const LF_MEMBER: u16 = 0x150d;

/// A static data member.
pub const LF_STMEMBER: u16 = 0x150e;

/// Methods of one name.
pub const LF_METHOD: u16 = 0x150f;

/// A nested type.
pub const LF_NESTTYPE: u16 = 0x1510;

/// A method that is alone of its name.
pub const LF_ONEMETHOD: u16 = 0x1511;

/// A nested type with attributes.
pub const LF_NESTTYPEEX: u16 = 0x1512;

/// An array with a stride.
pub const LF_STRIDED_ARRAY: u16 = 0x1516;

/// An interface.
pub const LF_INTERFACE: u16 = 0x1519;

/// A base interface.
pub const LF_BINTERFACE: u16 = 0x151a;

/// A struct as newer compilers write it.
pub const LF_STRUCTURE19: u16 = 0x1609;

/// A function's id.
pub const LF_FUNC_ID: u16 = 0x1601;

/// A method's id.
pub const LF_MFUNC_ID: u16 = 0x1602;

/// Build information of a module.
pub const LF_BUILDINFO: u16 = 0x1603;

/// A list of the parts of a text.
pub const LF_SUBSTR_LIST: u16 = 0x1604;

/// A text.
pub const LF_STRING_ID: u16 = 0x1605;

/// The source of a type, its file by an id.
pub const LF_UDT_SRC_LINE: u16 = 0x1606;

/// The source of a type, its file by the string table and with a module.
pub const LF_UDT_MOD_SRC_LINE: u16 = 0x1607;
