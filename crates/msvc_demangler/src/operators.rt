//! Names of operators and of functions that a compiler makes.

ghost use Rattle.std.specs.Prelude.{◌≡◌, option_map};
ghost use Rattle.msvc_demangler.specs.Operators.{last_operator_name, later_operator_name};
ghost use Rattle.msvc_demangler.specs.Operators.{operator_name};

/// The name that a letter or digit after `?` stands for. Empty for one that has another meaning.
#[tactic(auto, unfolding(crate::specs::Operators::operator_name))]
pub(crate) fn operator_of(code: u8) -> Option<&'static str>
    ensures { option_map (λ w. w.now) result ≡ operator_name code }
{
    match code {
        b'2' => Some("operator new"),
        b'3' => Some("operator delete"),
        b'4' => Some("operator="),
        b'5' => Some("operator>>"),
        b'6' => Some("operator<<"),
        b'7' => Some("operator!"),
        b'8' => Some("operator=="),
        b'9' => Some("operator!="),
        b'A' => Some("operator[]"),
        b'C' => Some("operator->"),
        b'D' => Some("operator*"),
        b'E' => Some("operator++"),
        b'F' => Some("operator--"),
        b'G' => Some("operator-"),
        b'H' => Some("operator+"),
        b'I' => Some("operator&"),
        b'J' => Some("operator->*"),
        b'K' => Some("operator/"),
        b'L' => Some("operator%"),
        b'M' => Some("operator<"),
        b'N' => Some("operator<="),
        b'O' => Some("operator>"),
        b'P' => Some("operator>="),
        b'Q' => Some("operator,"),
        b'R' => Some("operator()"),
        b'S' => Some("operator~"),
        b'T' => Some("operator^"),
        b'U' => Some("operator|"),
        b'V' => Some("operator&&"),
        b'W' => Some("operator||"),
        b'X' => Some("operator*="),
        b'Y' => Some("operator+="),
        b'Z' => Some("operator-="),
        b'0' | b'1' | b'B' => Some(""),
        _ => None,
    }
}

/// The name that a letter or digit after `?_` stands for. Empty for one that has another meaning.
#[tactic(auto, unfolding(crate::specs::Operators::later_operator_name))]
pub(crate) fn later_operator_of(code: u8) -> Option<&'static str>
    ensures { option_map (λ w. w.now) result ≡ later_operator_name code }
{
    match code {
        b'0' => Some("operator/="),
        b'1' => Some("operator%="),
        b'2' => Some("operator>>="),
        b'3' => Some("operator<<="),
        b'4' => Some("operator&="),
        b'5' => Some("operator|="),
        b'6' => Some("operator^="),
        b'D' => Some("`vbase dtor'"),
        b'E' => Some("`vector deleting dtor'"),
        b'F' => Some("`default ctor closure'"),
        b'G' => Some("`scalar deleting dtor'"),
        b'H' => Some("`vector ctor iterator'"),
        b'I' => Some("`vector dtor iterator'"),
        b'J' => Some("`vector vbase ctor iterator'"),
        b'K' => Some("`virtual displacement map'"),
        b'L' => Some("`eh vector ctor iterator'"),
        b'M' => Some("`eh vector dtor iterator'"),
        b'N' => Some("`eh vector vbase ctor iterator'"),
        b'O' => Some("`copy ctor closure'"),
        b'T' => Some("`local vftable ctor closure'"),
        b'U' => Some("operator new[]"),
        b'V' => Some("operator delete[]"),
        b'0'..=b'9' | b'A'..=b'Z' => Some(""),
        _ => None,
    }
}

/// The name that a letter or digit after `?__` stands for. Empty for one that has another meaning.
#[tactic(auto, unfolding(crate::specs::Operators::last_operator_name))]
pub(crate) fn last_operator_of(code: u8) -> Option<&'static str>
    ensures { option_map (λ w. w.now) result ≡ last_operator_name code }
{
    match code {
        b'A' => Some("`managed vector ctor iterator'"),
        b'B' => Some("`managed vector dtor iterator'"),
        b'C' => Some("`EH vector copy ctor iterator'"),
        b'D' => Some("`EH vector vbase copy ctor iterator'"),
        b'G' => Some("`vector copy ctor iterator'"),
        b'H' => Some("`vector vbase copy constructor iterator'"),
        b'I' => Some("`managed vector vbase copy constructor iterator'"),
        b'L' => Some("operator co_await"),
        b'M' => Some("operator<=>"),
        b'0'..=b'9' | b'A'..=b'Z' => Some(""),
        _ => None,
    }
}
