//! Names of C functions on 32-bit x86, which their calling conventions decorate.

ghost use Rattle.std.specs.Prelude.{◌≡◌, option_map};
ghost use Rattle.std.specs.List.{suffix_len};
ghost use Rattle.msvc_demangler.specs.Bytes.{is_digit};
ghost use Rattle.msvc_demangler.specs.CNames.{before_convention, before_size, c_name as c_name_of};
ghost use Rattle.msvc_demangler.specs.CNames.{after_mark};

/// The number of decimal digits at the end of a name.
fn trailing_digits(name: &[u8]) -> usize
    ensures { result ≡ suffix_len is_digit name.now }
{
    name.iter()
        .rev()
        .take_while(|byte| matches!(**byte, b'0'..=b'9'))
        .count()
}

/// The part of a name before `@` and the digits at its end, if these follow on an `@`.
#[tactic(auto, unfolding(crate::specs::CNames::before_size))]
fn split_size(name: &[u8]) -> Option<&[u8]>
    ensures { option_map (λ n. n.now) result ≡ before_size name.now }
{
    let count = name.len().saturating_sub(trailing_digits(name));
    match name.split_at(count).0 {
        [front @ .., b'@'] => Some(front),
        _ => None,
    }
}

/// A name without the `_` or `@` that it begins with.
#[tactic(auto, unfolding(crate::specs::CNames::after_mark))]
fn without_mark(name: &[u8]) -> &[u8]
    ensures { result.now ≡ after_mark name.now }
{
    match name {
        [b'_' | b'@', after @ ..] => after,
        _ => name,
    }
}

/// The name before the size of a function's arguments, without the marks of its convention: one
/// more `@` at the end, or else the `_` or `@` before it.
#[tactic(auto, unfolding(crate::specs::CNames::before_convention))]
fn without_convention(front: &[u8]) -> &[u8]
    ensures { result.now ≡ before_convention front.now }
{
    match front {
        [before @ .., b'@'] => before,
        _ => without_mark(front),
    }
}

/// The name of a C function on 32-bit x86 without the marks that its calling convention adds: `f`
/// of `_f` (`__cdecl`), of `_f@8` (`__stdcall`), of `@f@8` (`__fastcall`) and of `f@@8`
/// (`__vectorcall`), where 8 is the size of the arguments in bytes. A name that begins with `?` is
/// another kind of decorated name ([`demangle`](crate::demangle)), and stays as it is. On other
/// machines C names have no decoration, and an `_` there is the name's own. `llvm-symbolizer` 19
/// does the same with the names of a 32-bit image.
#[tactic(auto, unfolding(crate::specs::CNames::c_name))]
pub fn c_name(name: &[u8]) -> &[u8]
    ensures { result.now ≡ c_name_of name.now }
{
    if let [b'?', ..] = name {
        return name;
    }
    match split_size(name) {
        Some(front) => without_convention(front),
        None => without_mark(name),
    }
}
