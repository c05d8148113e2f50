//! Ids of the IPI as values (`LF_FUNC_ID` to `LF_UDT_MOD_SRC_LINE`).

use pdb_container::{IdIndex, RawString, StringRef, TypeIndex};

/// An id of the IPI: of a function, a text or a place in the source.
#[derive(Debug, Drop)]
pub enum IdData<'t> {
    /// `LF_FUNC_ID`.
    Function(FunctionId<'t>),
    /// `LF_MFUNC_ID`.
    MemberFunction(MemberFunctionId<'t>),
    /// `LF_BUILDINFO`.
    BuildInfo(BuildInfoId),
    /// `LF_SUBSTR_LIST`.
    StringList(StringListId),
    /// `LF_STRING_ID`.
    String(StringId<'t>),
    /// `LF_UDT_SRC_LINE` and `LF_UDT_MOD_SRC_LINE`.
    UserDefinedTypeSource(UserDefinedTypeSourceId),
}

/// A function id (`LF_FUNC_ID`): a function that is no method.
#[derive(Clone, Copy, Debug, PartialEq, Eq)]
pub struct FunctionId<'t> {
    /// The id of the namespace that holds it, if one does.
    pub scope: Option<IdIndex>,
    /// The function's type.
    pub function_type: TypeIndex,
    /// The function's name.
    pub name: RawString<'t>,
}

/// A member function id (`LF_MFUNC_ID`): a method.
#[derive(Clone, Copy, Debug, PartialEq, Eq)]
pub struct MemberFunctionId<'t> {
    /// The type of the class that holds it.
    pub parent: TypeIndex,
    /// The method's type.
    pub function_type: TypeIndex,
    /// The method's name.
    pub name: RawString<'t>,
}

/// Build information (`LF_BUILDINFO`) of a module.
#[derive(Debug, Drop)]
pub struct BuildInfoId {
    /// The ids of texts: the folder, the tool, its source, its database and its arguments.
    pub arguments: Vec<IdIndex>,
}

/// A list of strings (`LF_SUBSTR_LIST`): the parts of a text, one after another.
#[derive(Debug, Drop)]
pub struct StringListId {
    /// The indices of the parts.
    pub substrings: Vec<TypeIndex>,
}

/// A string (`LF_STRING_ID`): a text.
#[derive(Clone, Copy, Debug, PartialEq, Eq)]
pub struct StringId<'t> {
    /// The id of the list of its parts, if it has one.
    pub substrings: Option<IdIndex>,
    /// The text.
    pub name: RawString<'t>,
}

/// The file in which a type is declared.
#[derive(Clone, Copy, Debug, PartialEq, Eq)]
pub enum UserDefinedTypeSourceFileRef {
    /// The id of a text that names it.
    Local(IdIndex),
    /// The module's number, and the name's offset in the string table, in bytes.
    Remote(u16, StringRef),
}

/// The source of a type (`LF_UDT_SRC_LINE`, `LF_UDT_MOD_SRC_LINE`): the file and line of its
/// declaration.
#[derive(Clone, Copy, Debug, PartialEq, Eq)]
pub struct UserDefinedTypeSourceId {
    /// The type.
    pub udt: TypeIndex,
    /// The file.
    pub source_file: UserDefinedTypeSourceFileRef,
    /// The line in that file, counted from 1.
    pub line: u32,
}
