//! The tasks of reading a name.

use crate::numbers::Number;
use crate::qualifiers::Qualifiers;
use crate::tree::{Adjustment, FunctionClass};
use crate::words::{Access, Affinity};

/// The place of an identifier.
#[derive(Clone, Copy)]
pub(crate) enum Place {
    /// The identifier names a symbol.
    Symbol,
    /// The identifier names a type.
    Type,
    /// The identifier stands before `::`.
    Scope,
}

/// The place of a type's qualifiers.
#[derive(Clone, Copy)]
pub(crate) enum Mode {
    /// Nowhere, or after the type.
    Bare,
    /// Before the type.
    Qualified,
    /// Before the type, after `?`, if it has any.
    Returned,
}

/// The front of a signature.
#[derive(Clone, Copy)]
pub(crate) struct Front {
    /// The qualifiers of `this`.
    pub(crate) qualifiers: Qualifiers,
    /// `&` or `&&` where the function is called on references of one kind.
    pub(crate) reference: &'static str,
    /// The calling convention.
    pub(crate) convention: &'static str,
    /// Whether the function returns a type.
    pub(crate) returns: bool,
}

/// A task of reading. Its result is a node, whose index is pushed on the values; tasks that say so
/// take values from there.
#[derive(Clone, Copy)]
pub(crate) enum Task {
    /// A symbol.
    Symbol,
    /// The end of the name of a type's information. Takes the type.
    TypeName,
    /// The end of a type's descriptor. Takes the type.
    TypeDescriptor,
    /// The end of an RTTI symbol without a type. Takes the name.
    Untyped,
    /// The end of a base class's descriptor. Takes the name.
    BaseClass,
    /// The rest of a class's table after its name. Takes the name.
    Table,
    /// A table for a base. Takes the base's name, and the table's.
    TableFor(Qualifiers),
    /// The rest of a static variable's guard after its name. Takes the name.
    Guard,
    /// The rest of a virtual call's thunk after its name. Takes the name.
    VirtualCall,
    /// Gives a constructor or destructor its class. Leaves the name.
    Structor,
    /// The rest of a symbol after its name: a variable or a function. Gives a symbol without a
    /// name.
    Encoding,
    /// A variable's qualifiers. Takes the type.
    Variable(Option<Access>),
    /// A variable. Takes the type.
    VariableEnd(Option<Access>),
    /// A function. Gives a symbol without a name.
    Function,
    /// A function. Takes its type.
    FunctionEnd(FunctionClass, Adjustment),
    /// Gives a symbol its name. Takes the symbol and the name.
    Declared,
    /// An initializer or a destructor of a static variable. Takes the variable.
    Dynamic(&'static str, bool),
    /// Forgets a value.
    Forget,
    /// An identifier.
    Identifier(Place),
    /// Further identifiers of a qualified name, of which so many are read. Takes the identifiers.
    Scopes(usize),
    /// A local scope of this number. Takes the symbol that it is local to.
    LocalScope(Number),
    /// Further template arguments, of which so many are read. Takes the arguments, and leaves the
    /// identifier.
    Arguments(usize),
    /// An argument for an `auto` parameter. Takes its type.
    AutoArgument,
    /// A pointer to a member: its offsets. Takes the symbol, if there is one.
    MemberArgument(u8, bool),
    /// A reference to a symbol. Takes the symbol.
    ReferenceArgument,
    /// The end of a template, with what stood before in the places of names and of parameters, and
    /// whether the template is remembered. Leaves the identifier.
    TemplateEnd(usize, usize, bool),
    /// A type.
    Type(Mode),
    /// Adds qualifiers to a type. Leaves the type.
    Qualify(Qualifiers),
    /// A class's type. Takes its name.
    Tagged(&'static str),
    /// A type that is named alone. Takes its identifier.
    Custom,
    /// A pointer. Takes the pointee.
    Pointer(Affinity, Qualifiers),
    /// A pointer to a member function. Takes the function's type, and the class's name.
    MethodPointer(Qualifiers),
    /// A pointer to a member with these qualifiers. Takes the member's type, and the class's name.
    MemberPointer(Qualifiers, Qualifiers),
    /// An array. Takes its dimensions and the type of its elements.
    Array(usize, Qualifiers),
    /// A function's type, and whether it has a `this`.
    Signature(bool),
    /// The parameters.
    Parameters,
    /// Further parameters, of which so many are read. Takes the parameters.
    MoreParameters(usize),
    /// Remembers a parameter before which so many bytes were left. Leaves the parameter.
    Remember(usize),
    /// The end of a function's type. Takes its parameters, and the type that it returns.
    SignatureEnd(Front),
}
