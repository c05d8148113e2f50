//! The letters of functions in classes.

ghost use Rattle.std.specs.Prelude.{◌≡◌};
ghost use Rattle.msvc_demangler.specs.Methods.{access, method_class};

use crate::words::Access;

/// The kind of a function in a class, from its code.
#[derive(Clone, Copy)]
pub(crate) struct MethodClass {
    /// The access to the function.
    pub(crate) access: Access,
    /// Whether the function is static.
    pub(crate) is_static: bool,
    /// Whether the function is virtual.
    pub(crate) is_virtual: bool,
    /// Whether the function is a thunk that adjusts `this` by an offset.
    pub(crate) is_adjusted: bool,
}

/// The access to the methods of a group of eight letters.
fn access_of(group: u8) -> Access
    ensures { result ≡ access group }
{
    match group {
        0 => Access::Private,
        1 => Access::Protected,
        _ => Access::Public,
    }
}

/// The kind of a method, from its letter: for each access eight in pairs, of a plain method, a
/// static one, a virtual one, and a thunk that adjusts `this`, which isn't virtual where it is
/// private.
#[tactic(auto, unfolding(crate::specs::Methods::method_class))]
pub(crate) fn method_of(code: u8) -> Option<MethodClass>
    ensures { result ≡ method_class code }
{
    if code < b'A' || code > b'X' {
        return None;
    }
    let group = (code - b'A') / 8;
    let pair = (code - b'A') % 8 / 2;
    Some(MethodClass {
        access: access_of(group),
        is_static: pair == 1,
        is_virtual: pair == 2 || (pair == 3 && !(group == 0)),
        is_adjusted: pair == 3,
    })
}
