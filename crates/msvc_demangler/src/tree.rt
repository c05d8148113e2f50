//! The tree of a name: nodes that name one another by their indices.

ghost use Rattle.std.specs.Prelude.{◌≡◌, IfOk};
ghost use Rattle.std.specs.List.{slice_get};
ghost use Rattle.std.specs.Result.{result_ok};
ghost use Rattle.msvc_demangler.specs.Texts.{text_at};

use crate::numbers::Number;
use crate::qualifiers::Qualifiers;
use crate::stop::{Result, Stop};
use crate::words::{Access, Affinity};
use std::alloc::{AllocError, Global};

/// An index that no node has.
pub(crate) const NO_NODE: usize = usize::MAX;

/// A list of no nodes.
pub(crate) const NO_NODES: Span = Span { start: 0, count: 0 };

/// A run of bytes of the texts, or of indices of the lists.
#[derive(Clone, Copy)]
pub(crate) struct Span {
    /// The place at which the run begins.
    pub(crate) start: usize,
    /// The number of bytes or indices.
    pub(crate) count: usize,
}

/// A name between `::`.
#[derive(Clone, Copy)]
pub(crate) enum Identifier {
    /// A name that the texts have.
    Named(Span),
    /// A name that is always the same, such as an operator's.
    Fixed(&'static str),
    /// A constructor or a destructor of a class, given by its identifier.
    Structor(bool, Option<usize>),
    /// An operator that converts to a type.
    Conversion(Option<usize>),
    /// An operator of literals with this suffix.
    Literal(Span),
    /// The initializer of a symbol.
    Initializer(&'static str, usize),
    /// The guard of a static variable, with the number of its scope.
    Guard(&'static str, u64),
    /// The descriptor of a base class.
    BaseClass(u64, Number, u64, u64),
    /// The thunk of a virtual call, with its offset in the table.
    VirtualCall(u64),
}

/// The parameters of a function.
#[derive(Clone, Copy)]
pub(crate) enum Parameters {
    /// There is no list of them.
    Unlisted,
    /// The list is `void`.
    Void,
    /// A list, and whether more follow.
    Listed(Span, bool),
}

/// The type of a function.
#[derive(Clone, Copy)]
pub(crate) struct Signature {
    /// The calling convention.
    pub(crate) convention: &'static str,
    /// The type that the function returns; None for a constructor.
    pub(crate) returned: Option<usize>,
    /// The parameters.
    pub(crate) parameters: Parameters,
    /// `&` or `&&` where the function is called on references of one kind.
    pub(crate) reference: &'static str,
    /// Whether the function throws nothing.
    pub(crate) is_noexcept: bool,
}

/// A type, its qualifiers aside.
#[derive(Clone, Copy)]
pub(crate) enum Type {
    /// A basic type.
    Basic(&'static str),
    /// A class, struct, union or enum: the keyword and the name.
    Tagged(&'static str, usize),
    /// A pointer or reference to a type; for a member, the name of the class.
    Pointer(Affinity, usize, Option<usize>),
    /// An array: its dimensions and the type of its elements.
    Array(Span, usize),
    /// A function.
    Function(Signature),
    /// A name that stands for a type.
    Custom(usize),
}

/// The adjustment of `this` by a thunk.
#[derive(Clone, Copy)]
pub(crate) enum Adjustment {
    /// The function is no thunk.
    NotThunk,
    /// A thunk that says nothing of an adjustment.
    Unsaid,
    /// An adjustment by offsets, after these bytes.
    By(&'static str, Span),
}

/// The kind of function that a symbol is.
#[derive(Clone, Copy)]
pub(crate) struct FunctionClass {
    /// The access to the function; None outside classes.
    pub(crate) access: Option<Access>,
    /// Whether the function stands outside of classes.
    pub(crate) is_global: bool,
    /// Whether the function is a static method.
    pub(crate) is_static: bool,
    /// Whether the function is virtual.
    pub(crate) is_virtual: bool,
    /// Whether the function is `extern "C"`.
    pub(crate) is_extern_c: bool,
}

/// The kind of a symbol, with its parts.
#[derive(Clone, Copy)]
pub(crate) enum Symbol {
    /// A name alone.
    Plain,
    /// A function: its type, its kind and its adjustment of `this`.
    Function(usize, FunctionClass, Adjustment),
    /// A variable: its type, and the access to it if it is a static member.
    Variable(Option<usize>, Option<Access>),
    /// A table of a class: its qualifiers, and the name of the base that it is for.
    Table(Qualifiers, Option<usize>),
    /// A string literal: the text before its text, its text, and the text after it.
    Text(&'static str, Span, &'static str),
}

/// A node of the tree.
#[derive(Clone, Copy)]
pub(crate) enum Node {
    /// An identifier, and its template arguments.
    Identifier(Identifier, Option<Span>),
    /// A qualified name: its identifiers, the outermost first.
    Name(Span),
    /// A type, and its qualifiers.
    Type(Type, Qualifiers),
    /// The parameters of a function.
    Parameters(Parameters),
    /// A number.
    Number(Number),
    /// The size of a dimension of an array, which isn't written if it is 0.
    Dimension(u64),
    /// A template argument that names a symbol: the text before it, the symbol, and offsets.
    Reference(&'static str, Option<usize>, Span),
    /// A symbol, and its name.
    Symbol(Symbol, Option<usize>),
}

/// The tree of a name.
#[derive(Drop)]
pub(crate) struct Tree {
    /// The nodes.
    nodes: Vec<Node>,
    /// Lists of nodes, one after another.
    lists: Vec<usize>,
    /// The name's bytes, and after them the bytes of the texts that were made of its parts.
    texts: Vec<u8>,
}

impl Tree {
    /// A tree without nodes, over a name.
    ///
    /// # Errors
    /// `AllocError` when memory runs out.
    pub(crate) fn new(alloc: Global, name: &[u8]) -> std::result::Result<Tree, AllocError> {
        let mut texts = Vec::new(alloc);
        texts.extend_from_slice(name)?;
        Ok(Tree {
            nodes: Vec::new(alloc),
            lists: Vec::new(alloc),
            texts,
        })
    }

    /// Adds a node, and returns its index.
    ///
    /// # Errors
    /// Memory ran out.
    #[tactic(auto, using(crate::proofs::Remembered::get_last))]
    pub(crate) fn add(&mut self, node: Node) -> Result<usize>
        ensures node { IfOk result (λ index. slice_get self.new.nodes.items index ≡ Some node) }
        ensures texts { self.new.texts.items ≡ self.old.texts.items }
    {
        let index = self.nodes.len();
        self.nodes.push(node)?;
        Ok(index)
    }

    /// The node of an index.
    ///
    /// # Errors
    /// There is none.
    pub(crate) fn node(&self, index: usize) -> Result<Node>
        ensures { result_ok result ≡ slice_get self.now.nodes.items index }
    {
        match self.nodes.get(index) {
            Some(node) => Ok(*node),
            None => Err(Stop::Undecorated),
        }
    }

    /// Puts a node in the place of the one of an index, if there is one.
    pub(crate) fn set(&mut self, index: usize, node: Node) {
        if index < self.nodes.len() {
            self.nodes[index] = node;
        }
    }

    /// The type of an index, and its qualifiers.
    ///
    /// # Errors
    /// There is none.
    pub(crate) fn type_of(&self, index: usize) -> Result<(Type, Qualifiers)> {
        match self.node(index)? {
            Node::Type(form, qualifiers) => Ok((form, qualifiers)),
            _ => Err(Stop::Undecorated),
        }
    }

    /// The identifier of a qualified name that stands before so many at its end. No node's index if
    /// there is none.
    pub(crate) fn identifier_before(&self, name: usize, after: usize) -> usize {
        match self.nodes.get(name) {
            Some(Node::Name(list)) if after < list.count => self.item(
                *list,
                list.count - after - 1,
            ),
            _ => NO_NODE,
        }
    }

    /// The parameters of an index.
    ///
    /// # Errors
    /// There are none.
    pub(crate) fn parameters_of(&self, index: usize) -> Result<Parameters> {
        match self.node(index)? {
            Node::Parameters(parameters) => Ok(parameters),
            _ => Err(Stop::Undecorated),
        }
    }

    /// The identifier of an index, and its template arguments.
    ///
    /// # Errors
    /// There is none.
    pub(crate) fn identifier_of(&self, index: usize) -> Result<(Identifier, Option<Span>)> {
        match self.node(index)? {
            Node::Identifier(identifier, arguments) => Ok((identifier, arguments)),
            _ => Err(Stop::Undecorated),
        }
    }

    /// The symbol of an index, and its name.
    ///
    /// # Errors
    /// There is none.
    pub(crate) fn symbol_of(&self, index: usize) -> Result<(Symbol, Option<usize>)> {
        match self.node(index)? {
            Node::Symbol(symbol, name) => Ok((symbol, name)),
            _ => Err(Stop::Undecorated),
        }
    }

    /// The index of the node at a place of a list, counted from 0. No node's index if there is no
    /// such place.
    pub(crate) fn item(&self, list: Span, place: usize) -> usize {
        if place >= list.count {
            return NO_NODE;
        }
        match self.lists.get(list.start.saturating_add(place)) {
            Some(node) => *node,
            None => NO_NODE,
        }
    }

    /// Gives a type qualifiers in the place of its own.
    ///
    /// # Errors
    /// There is none.
    pub(crate) fn set_qualifiers(&mut self, index: usize, qualifiers: Qualifiers) -> Result<()> {
        let (form, _) = self.type_of(index)?;
        self.set(index, Node::Type(form, qualifiers));
        Ok(())
    }

    /// Gives a type qualifiers beside its own.
    ///
    /// # Errors
    /// There is none.
    pub(crate) fn qualify(&mut self, index: usize, more: Qualifiers) -> Result<()> {
        let (form, qualifiers) = self.type_of(index)?;
        self.set(index, Node::Type(form, qualifiers.with(more)));
        Ok(())
    }

    /// Gives a constructor or destructor at the end of a name the identifier before it, which names
    /// its class.
    ///
    /// # Errors
    /// There is no name, or no identifier before its end.
    pub(crate) fn settle_structor(&mut self, name: usize) -> Result<()> {
        let last = self.identifier_before(name, 0);
        let (identifier, arguments) = self.identifier_of(last)?;
        let Identifier::Structor(is_destructor, _) = identifier else {
            return Ok(());
        };
        let class = self.identifier_before(name, 1);
        if class == NO_NODE {
            return Err(Stop::Undecorated);
        }
        let settled = Identifier::Structor(is_destructor, Some(class));
        self.set(last, Node::Identifier(settled, arguments));
        Ok(())
    }

    /// Gives a symbol its name, and an operator that converts the type that it converts to.
    ///
    /// # Errors
    /// There is no symbol, or no name; the operator that converts is no function that returns a
    /// type.
    pub(crate) fn declare(&mut self, index: usize, name: usize) -> Result<()> {
        let (symbol, _) = self.symbol_of(index)?;
        self.set(index, Node::Symbol(symbol, Some(name)));
        let last = self.identifier_before(name, 0);
        let (identifier, arguments) = self.identifier_of(last)?;
        let Identifier::Conversion(_) = identifier else {
            return Ok(());
        };
        let Some(target) = self.returned_by(symbol) else {
            return Err(Stop::Undecorated);
        };
        let settled = Identifier::Conversion(Some(target));
        self.set(last, Node::Identifier(settled, arguments));
        Ok(())
    }

    /// The type that a function returns, if it is one.
    fn returned_by(&self, symbol: Symbol) -> Option<usize> {
        let Symbol::Function(signature, _, _) = symbol else {
            return None;
        };
        match self.nodes.get(signature) {
            Some(Node::Type(Type::Function(signature), _)) => signature.returned,
            _ => None,
        }
    }

    /// Gives an identifier template arguments.
    ///
    /// # Errors
    /// There is none.
    pub(crate) fn set_arguments(&mut self, index: usize, arguments: Span) -> Result<()> {
        let (identifier, _) = self.identifier_of(index)?;
        self.set(index, Node::Identifier(identifier, Some(arguments)));
        Ok(())
    }

    /// Gives the guard at the end of a name the number of its scope.
    ///
    /// # Errors
    /// There is no guard.
    pub(crate) fn set_guard(&mut self, name: usize, scope: u64) -> Result<()> {
        let last = self.identifier_before(name, 0);
        let (identifier, _) = self.identifier_of(last)?;
        let Identifier::Guard(text, _) = identifier else {
            return Err(Stop::Undecorated);
        };
        self.set(last, Node::Identifier(Identifier::Guard(text, scope), None));
        Ok(())
    }

    /// Gives the last identifier of a name another form, without template arguments.
    pub(crate) fn set_last(&mut self, name: usize, identifier: Identifier) {
        let last = self.identifier_before(name, 0);
        self.set(last, Node::Identifier(identifier, None));
    }

    /// Adds a qualified name that has one identifier.
    ///
    /// # Errors
    /// Memory ran out.
    pub(crate) fn add_name(&mut self, identifier: Identifier) -> Result<usize> {
        let index = self.add(Node::Identifier(identifier, None))?;
        let list = self.add_list(&[index])?;
        self.add(Node::Name(list))
    }

    /// Adds a list.
    ///
    /// # Errors
    /// Memory ran out.
    pub(crate) fn add_list(&mut self, indices: &[usize]) -> Result<Span> {
        let start = self.lists.len();
        self.lists.extend_from_slice(indices)?;
        Ok(Span {
            start,
            count: indices.len(),
        })
    }

    /// Adds a list that has these nodes the other way round.
    ///
    /// # Errors
    /// Memory ran out.
    pub(crate) fn add_reversed(&mut self, indices: &[usize]) -> Result<Span> {
        let start = self.lists.len();
        for index in indices.iter().rev() {
            self.lists.push(*index)?;
        }
        Ok(Span {
            start,
            count: indices.len(),
        })
    }

    /// The bytes of a text.
    ///
    /// # Errors
    /// There are none.
    pub(crate) fn text(&self, span: Span) -> Result<&[u8]>
        ensures { IfOk result (λ text. text.now ≡ text_at self.now.texts.items span) }
    {
        let Some(end) = span.start.checked_add(span.count) else {
            return Err(Stop::Undecorated);
        };
        match self.texts.get(span.start..end) {
            Some(bytes) => Ok(bytes),
            None => Err(Stop::Undecorated),
        }
    }

    /// Adds a text.
    ///
    /// # Errors
    /// Memory ran out.
    pub(crate) fn add_text(&mut self, bytes: &[u8]) -> Result<Span>
        ensures { IfOk result (λ span. text_at self.new.texts.items span ≡ bytes.now) }
    {
        let start = self.texts.len();
        self.texts.extend_from_slice(bytes)?;
        Ok(Span {
            start,
            count: bytes.len(),
        })
    }

    /// Adds texts, one after another.
    ///
    /// # Errors
    /// Memory ran out.
    pub(crate) fn add_texts(&mut self, parts: &[&[u8]]) -> Result<Span> {
        let start = self.texts.len();
        for part in parts {
            self.texts.extend_from_slice(*part)?;
        }
        Ok(Span {
            start,
            count: self.texts.len().saturating_sub(start),
        })
    }
}
