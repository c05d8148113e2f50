//! Functions: their types, and what the codes of symbols say of them.

ghost use Rattle.std.specs.Prelude.{◌≡◌, IsTrue, OnOk};
ghost use Rattle.msvc_demangler.specs.Bytes.{is_digit};
ghost use Rattle.msvc_demangler.specs.Methods.{thunk_access};
ghost use Rattle.msvc_demangler.specs.References.{next_byte, next_type};
ghost use Rattle.msvc_demangler.specs.Texts.{last_value};

use crate::methods::method_of;
use crate::parser::Parser;
use crate::qualifiers::UNQUALIFIED;
use crate::stop::{Result, Stop};
use crate::tasks::{Front, Mode, Task};
use crate::tree::{Adjustment, FunctionClass, Node, Parameters, Signature, Symbol, Type};
use crate::words::{Access, convention_of};

/// The access to the virtual method whose thunk has this digit.
#[tactic(auto, unfolding(crate::specs::Methods::thunk_access))]
fn thunk_access_of(code: u8) -> Option<Access>
    ensures { result ≡ thunk_access code }
{
    match code {
        b'0' | b'1' => Some(Access::Private),
        b'2' | b'3' => Some(Access::Protected),
        b'4' | b'5' => Some(Access::Public),
        _ => None,
    }
}

/// A function outside of classes.
fn global(is_extern_c: bool) -> FunctionClass {
    FunctionClass {
        access: None,
        is_global: true,
        is_static: false,
        is_virtual: false,
        is_extern_c,
    }
}

/// The type of a function of which nothing is written but a calling convention.
pub(crate) fn unwritten_signature(convention: &'static str) -> Type {
    Type::Function(Signature {
        convention,
        returned: None,
        parameters: Parameters::Unlisted,
        reference: "",
        is_noexcept: false,
    })
}

impl<'n> Parser<'n> {
    /// Reads the part that a task of functions says.
    pub(crate) fn run_function(&mut self, task: Task) -> Result<()> {
        match task {
            Task::Signature(has_this) => self.start_signature(has_this),
            Task::Parameters => self.start_parameters(),
            Task::MoreParameters(count) => self.read_parameter(count),
            Task::Remember(left) => self.remember_long(left),
            Task::SignatureEnd(front) => self.end_signature(front),
            Task::FunctionEnd(class, adjustment) => {
                let signature = self.pop();
                let symbol = Symbol::Function(signature, class, adjustment);
                self.give(Node::Symbol(symbol, None))
            }
            _ => self.start_function(),
        }
    }

    /// Reads the code of a function, and its type.
    fn start_function(&mut self) -> Result<()> {
        let is_extern_c = self.take(b"$$J0");
        let code = self.take_byte()?;
        match code {
            b'9' => self.start_unwritten(),
            b'Y' | b'Z' => {
                let class = global(is_extern_c);
                self.plan_function(false, class, Adjustment::NotThunk)
            }
            b'$' => self.start_thunk(is_extern_c),
            _ => self.start_method(code, is_extern_c),
        }
    }

    /// Reads a C function, of whose type nothing is written.
    fn start_unwritten(&mut self) -> Result<()> {
        let class = FunctionClass {
            access: None,
            is_global: false,
            is_static: false,
            is_virtual: false,
            is_extern_c: true,
        };
        self.give_type(unwritten_signature(""), UNQUALIFIED)?;
        self.plan(Task::FunctionEnd(class, Adjustment::NotThunk))
    }

    /// Reads the type of a method of this code.
    fn start_method(&mut self, code: u8, is_extern_c: bool) -> Result<()> {
        let Some(method) = method_of(code) else {
            return Err(Stop::Undecorated);
        };
        let mut adjustment = Adjustment::NotThunk;
        if method.is_adjusted {
            adjustment = Adjustment::By("`adjustor{", self.take_offsets(1)?);
        }
        let class = FunctionClass {
            access: Some(method.access),
            is_global: false,
            is_static: method.is_static,
            is_virtual: method.is_virtual,
            is_extern_c,
        };
        self.plan_function(!method.is_static, class, adjustment)
    }

    /// Plans the reading of a function's type, which may have a `this`, and the function.
    fn plan_function(
        &mut self,
        has_this: bool,
        class: FunctionClass,
        adjustment: Adjustment,
    ) -> Result<()> {
        self.plan_all(&[
            Task::Signature(has_this),
            Task::FunctionEnd(class, adjustment),
        ])
    }

    /// Reads a thunk of a virtual method that adjusts `this` by a `vtordisp` field.
    fn start_thunk(&mut self, is_extern_c: bool) -> Result<()> {
        let is_by_base = self.take(b"R");
        let Some(access) = thunk_access_of(self.take_byte()?) else {
            return Err(Stop::Undecorated);
        };
        let (word, count) = if is_by_base {
            ("`vtordispex{", 4)
        } else {
            ("`vtordisp{", 2)
        };
        let adjustment = Adjustment::By(word, self.take_offsets(count)?);
        let class = FunctionClass {
            access: Some(access),
            is_global: false,
            is_static: false,
            is_virtual: true,
            is_extern_c,
        };
        self.plan_function(true, class, adjustment)
    }

    /// Reads a function's type.
    fn start_signature(&mut self, has_this: bool) -> Result<()> {
        let mut qualifiers = UNQUALIFIED;
        let mut reference = "";
        if has_this {
            qualifiers = self.take_extended();
            reference = self.take_reference();
            qualifiers = qualifiers.with(self.take_qualifiers()?);
        }
        let convention = convention_of(self.take_byte()?);
        let returns = !self.take(b"@");
        let end = Task::SignatureEnd(Front {
            qualifiers,
            reference,
            convention,
            returns,
        });
        if returns {
            return self.plan_all(&[Task::Type(Mode::Returned), Task::Parameters, end]);
        }
        self.plan_all(&[Task::Parameters, end])
    }

    /// Reads the kind of references on which a method is called.
    fn take_reference(&mut self) -> &'static str {
        if self.take(b"G") {
            " &"
        } else if self.take(b"H") {
            " &&"
        } else {
            ""
        }
    }

    /// Reads the parameters of a function.
    fn start_parameters(&mut self) -> Result<()> {
        if self.take(b"X") {
            return self.give(Node::Parameters(Parameters::Void));
        }
        self.read_parameter(0)
    }

    /// Reads the next parameter, a digit for a type that is remembered, or the end of them.
    fn read_parameter(&mut self, count: usize) -> Result<()>
        ensures { IsTrue (is_digit (next_byte self.old))
            → OnOk result (last_value self.new ≡ next_type self.old) }
    {
        let rest = self.rest;
        match rest {
            [end @ (b'@' | b'Z'), after @ ..] => {
                self.rest = after;
                let list = self.pop_list(count)?;
                self.give(Node::Parameters(Parameters::Listed(list, *end == b'Z')))
            }
            [digit @ b'0'..=b'9', after @ ..] => {
                self.rest = after;
                self.refer_to_parameter(*digit)?;
                self.plan(Task::MoreParameters(count.saturating_add(1)))
            }
            _ => {
                self.plan_all(&[
                    Task::Type(Mode::Bare),
                    Task::Remember(rest.len()),
                    Task::MoreParameters(count.saturating_add(1)),
                ])
            }
        }
    }

    /// Reads whether a function throws nothing, and makes its type.
    fn end_signature(&mut self, front: Front) -> Result<()> {
        let is_noexcept = self.take(b"_E");
        if !is_noexcept && !self.take(b"Z") {
            return Err(Stop::Undecorated);
        }
        let list = self.pop();
        let parameters = self.tree.parameters_of(list)?;
        let returned = if front.returns {
            Some(self.pop())
        } else {
            None
        };
        let signature = Signature {
            convention: front.convention,
            returned,
            parameters,
            reference: front.reference,
            is_noexcept,
        };
        self.give_type(Type::Function(signature), front.qualifiers)
    }
}
