//! Names of functions as they are reported: as they are stored, or undecorated.

use msvc_demangler::{DemangleFlags, Demangled, c_name, demangle};
use std::alloc::{AllocError, Global};

/// What the text of a name leaves out.
const SHORT: DemangleFlags = DemangleFlags {
    no_access_specifier: true,
    no_calling_convention: true,
    no_member_type: true,
    no_return_type: true,
    no_variable_type: false,
};

/// The name of a function as llvm-symbolizer undecorates it: that of Visual C++, which begins with
/// `?`, and on 32-bit x86 one of C. What can't be undecorated stays as it is stored.
///
/// # Errors
/// Where memory ran out.
pub fn undecorated(alloc: Global, name: &[u8], is_x86: bool) -> Result<Vec<u8>, AllocError> {
    if name.starts_with(b"?") {
        return match demangle(alloc, name, SHORT)? {
            Demangled::Text(text) => Ok(text),
            Demangled::Undecorated => Vec::from_slice(alloc, name),
        };
    }
    let name = if is_x86 { c_name(name) } else { name };
    Vec::from_slice(alloc, name)
}
