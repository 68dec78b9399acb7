//! The text of a declaration, and of a type: what is before its declarator, and what is after it.

ghost use Rattle.std.specs.Prelude.{◌≡◌, ◌<◌, ℕ, Bool, [], Some, None, map, OnOk, IfSome, MatchOption};
ghost use Rattle.dw_cprint.specs.Terms.{Term};
ghost use Rattle.dw_cprint.specs.Declarations.{term_by};
ghost use Rattle.dw_cprint.specs.Declarators.{after, before, closing, core, opening};
ghost use Rattle.dw_cprint.specs.Kept.{kept, kept_term, WritesOf, WritesBody, WritesDeclaration, WritesMember};
ghost use Rattle.dw_cprint.specs.Kept.{WritesParameter, WritesParameters};
ghost use Rattle.dw_cprint.specs.Shapes.{aggregate, other, view_body, view_name, view_shape, view_subject, view_member};
ghost use Rattle.dw_cprint.specs.Writing.{name_tokens, spell};
ghost use Rattle.dw_cprint.specs.Wrong.{is_bracketed, kind_at};

use crate::shape::{Body, Member, Parameter, Shape, Subject, kind_of};
use crate::source::TypeAt;
use crate::survey::Survey;
use crate::text::{
    put, put_bits, put_front, put_gap, put_joined, put_name, put_qualifiers, put_tag,
};
use crate::words::{AggregateKeyword, Name, Qualifier, TagKeyword};
use std::alloc::{AllocError, Global};

/// The most types on a path that is printed: 64 entries, and void after the last.
pub const DEPTH: usize = 65;

impl<'a> Survey<'a> {
    /// The shape that is kept of an entry.
    #[inline]
    #[tactic(auto, unfolding(crate::specs::Kept::kept))]
    fn kept_shape(&self, entry: usize) -> Option<&Shape<'a>>
        ensures { MatchOption result (kept self.now entry ≡ other)
            (λ shape. view_shape shape.now ≡ kept self.now entry) }
    {
        let place = self.places.get(entry)?;
        self.shapes.get(*place as usize)
    }

    /// The shape of an entry, and how deep the types that it names may be.
    #[inline]
    fn shape_within(&self, entry: usize, depth: usize) -> Option<(&Shape<'a>, usize)>
        ensures below { IfSome result (λ found. found.1 < depth) }
        ensures found { MatchOption result (kept_term self.now depth (Some entry) ≡ None)
            (λ found. kept_term self.now depth (Some entry)
            ≡ term_by (kept_term self.now found.1) (view_shape found.0.now)) }
    {
        let below = depth.checked_sub(1)?;
        let shape = self.kept_shape(entry)?;
        Some((shape, below))
    }

    /// Whether brackets after a declarator of the type bind before a star in front of it.
    #[inline]
    fn is_bracketed(&self, at: TypeAt) -> bool
        ensures { result ≡ is_bracketed (kind_at (kept self.now) at) }
    {
        let Some(entry) = at.get() else {
            return false;
        };
        match self.kept_shape(entry as usize) {
            Some(shape) => kind_of(shape).is_bracketed(),
            None => false,
        }
    }

    /// The parenthesis before the star of a pointer, if it needs one.
    fn put_opened(&self, out: &mut Vec<u8>, to: TypeAt) -> Result<(), AllocError>
        ensures { OnOk result ((k : ℕ) → WritesOf (kept_term self.now k to) opening out.old.items out.new.items) }
    {
        if self.is_bracketed(to) {
            put(out, b"(")?;
        }
        Ok(())
    }

    /// The parenthesis that closes it.
    fn put_closed(&self, out: &mut Vec<u8>, to: TypeAt) -> Result<(), AllocError>
        ensures { OnOk result ((k : ℕ) → WritesOf (kept_term self.now k to) closing out.old.items out.new.items) }
    {
        if self.is_bracketed(to) {
            put(out, b")")?;
        }
        Ok(())
    }

    /// A type with a declarator that is a name, or with none.
    #[cycle(writing)]
    fn put_named(
        &self,
        alloc: Global,
        out: &mut Vec<u8>,
        at: TypeAt,
        name: Name<'_>,
        depth: usize,
    ) -> Result<(), AllocError>
        ensures { OnOk result (WritesOf (kept_term self.now depth at)
            (λ (t : Term). spell [] t (name_tokens (view_name name.entry))) out.old.items out.new.items) }
    {
        self.put_before(alloc, out, at, Vec::new(alloc), name.is_some(), depth)?;
        put_name(out, name)?;
        self.put_after(alloc, out, at, depth)
    }

    /// A member of a body.
    #[cycle(writing)]
    fn put_member(
        &self,
        alloc: Global,
        out: &mut Vec<u8>,
        member: &Member<'a>,
        depth: usize,
    ) -> Result<(), AllocError>
        ensures { OnOk result (WritesMember self.now depth (view_member member.now) out.old.items out.new.items) }
    {
        self.put_named(alloc, out, member.type_at, member.name, depth)?;
        put_bits(out, member.bits)?;
        put(out, b"; ")
    }

    /// The members of a structure or union in braces, after its keyword and a name, if there is one.
    #[cycle(writing)]
    pub fn put_aggregate(
        &self,
        alloc: Global,
        out: &mut Vec<u8>,
        word: AggregateKeyword,
        name: Name<'_>,
        members: &[Member<'a>],
        depth: usize,
    ) -> Result<(), AllocError>
        ensures { OnOk result ((odd : Bool) → WritesBody self.now depth (view_name name.entry)
            (aggregate word odd (map view_member members.now)) out.old.items out.new.items) }
    {
        put_front(out, TagKeyword::OfAggregate(word), name)?;
        put(out, b"{ ")?;
        for member in members {
            self.put_member(alloc, out, member, depth)?;
        }
        put(out, b"}")?;
        Ok(())
    }

    /// A body after its keyword and a name, if there is one.
    #[cycle(writing)]
    fn put_body(
        &self,
        alloc: Global,
        out: &mut Vec<u8>,
        name: Name<'_>,
        body: &Body<'a>,
        depth: usize,
    ) -> Result<(), AllocError>
        ensures { OnOk result (WritesBody self.now depth (view_name name.entry) (view_body body.now)
            out.old.items out.new.items) }
    {
        match body {
            Body::Aggregate { word, members, .. } => {
                self.put_aggregate(alloc, out, *word, name, members, depth)
            }
            Body::Enumeration { enumerators, .. } => {
                put_front(out, TagKeyword::Enum, name)?;
                enumerators.write(out)
            }
        }
    }

    /// A parameter of a function, or that others follow.
    #[cycle(writing)]
    fn put_parameter(
        &self,
        alloc: Global,
        out: &mut Vec<u8>,
        parameter: Parameter,
        depth: usize,
    ) -> Result<(), AllocError>
        ensures { OnOk result (WritesParameter self.now depth parameter out.old.items out.new.items) }
    {
        match parameter {
            Parameter::Typed(at) => self.put_named(alloc, out, at, None, depth),
            Parameter::More => put(out, b"..."),
        }
    }

    /// The parameters of a function.
    #[cycle(writing)]
    fn put_parameters(
        &self,
        alloc: Global,
        out: &mut Vec<u8>,
        parameters: &[Parameter],
        depth: usize,
    ) -> Result<(), AllocError>
        ensures { OnOk result (WritesParameters self.now depth parameters.now out.old.items out.new.items) }
    {
        let Some((first, others)) = parameters.split_first() else {
            return put(out, b"void");
        };
        self.put_parameter(alloc, out, *first, depth)?;
        for parameter in others {
            put(out, b", ")?;
            self.put_parameter(alloc, out, *parameter, depth)?;
        }
        Ok(())
    }

    /// The specifier that a shape is without its qualifiers; nothing for a pointer, an array and a function.
    #[cycle(writing)]
    fn put_core(
        &self,
        alloc: Global,
        out: &mut Vec<u8>,
        shape: &Shape<'a>,
        depth: usize,
    ) -> Result<(), AllocError>
        ensures { OnOk result (WritesOf (term_by (kept_term self.now depth) (view_shape shape.now)) core
            out.old.items out.new.items) }
    {
        match shape {
            Shape::Base(name) => put_name(out, *name),
            Shape::Typedef(name) => put_name(out, *name),
            Shape::Tagged(tag, name) => put_tag(out, *tag, Some(*name)),
            Shape::Body(body) => self.put_body(alloc, out, None, body, depth),
            _ => Ok(()),
        }
    }

    /// What is before the declarator of a type under these qualifiers. `inside`: whether the declarator is not empty.
    #[cycle(writing)]
    fn put_before(
        &self,
        alloc: Global,
        out: &mut Vec<u8>,
        at: TypeAt,
        mut qualifiers: Vec<Qualifier>,
        inside: bool,
        depth: usize,
    ) -> Result<(), AllocError>
        ensures { OnOk result (WritesOf (kept_term self.now depth at)
            (λ (t : Term). before qualifiers.items t inside) out.old.items out.new.items) }
    {
        let Some(entry) = at.get() else {
            put_qualifiers(out, &qualifiers)?;
            put(out, b"void")?;
            return put_gap(out, inside);
        };
        let Some((shape, below)) = self.shape_within(entry as usize, depth) else {
            return Ok(());
        };
        match shape {
            Shape::Qualified(qualifier, under) => {
                qualifiers.push(*qualifier)?;
                self.put_before(alloc, out, *under, qualifiers, inside, below)
            }
            Shape::Pointer(to) => {
                self.put_before(alloc, out, *to, Vec::new(alloc), true, below)?;
                self.put_opened(out, *to)?;
                put(out, b"*")?;
                put_joined(out, &qualifiers, inside)
            }
            Shape::Array { element, .. } => {
                self.put_before(alloc, out, *element, Vec::new(alloc), true, below)
            }
            Shape::Function(returned, _) => {
                self.put_before(alloc, out, *returned, Vec::new(alloc), true, below)
            }
            _ => {
                put_qualifiers(out, &qualifiers)?;
                self.put_core(alloc, out, shape, below)?;
                put_gap(out, inside)
            }
        }
    }

    /// What is after the declarator of a type.
    #[cycle(writing)]
    fn put_after(
        &self,
        alloc: Global,
        out: &mut Vec<u8>,
        at: TypeAt,
        depth: usize,
    ) -> Result<(), AllocError>
        ensures { OnOk result (WritesOf (kept_term self.now depth at) after out.old.items out.new.items) }
    {
        let Some(entry) = at.get() else {
            return Ok(());
        };
        let Some((shape, below)) = self.shape_within(entry as usize, depth) else {
            return Ok(());
        };
        match shape {
            Shape::Qualified(_, under) => self.put_after(alloc, out, *under, below),
            Shape::Pointer(to) => {
                self.put_closed(out, *to)?;
                self.put_after(alloc, out, *to, below)
            }
            Shape::Array {
                dimensions,
                element,
                ..
            } => {
                dimensions.write(out)?;
                self.put_after(alloc, out, *element, below)
            }
            Shape::Function(returned, None) => {
                put(out, b"()")?;
                self.put_after(alloc, out, *returned, below)
            }
            Shape::Function(returned, Some(parameters)) => {
                put(out, b"(")?;
                self.put_parameters(alloc, out, parameters, below)?;
                put(out, b")")?;
                self.put_after(alloc, out, *returned, below)
            }
            _ => Ok(()),
        }
    }

    /// A declaration.
    #[tactic(auto, unfolding(crate::specs::Declarations::declaration_of))]
    pub fn put_declaration(
        &self,
        alloc: Global,
        out: &mut Vec<u8>,
        subject: &Subject<'a>,
    ) -> Result<(), AllocError>
        ensures { OnOk result (WritesDeclaration self.now (view_subject subject.now) out.old.items out.new.items) }
    {
        match subject {
            Subject::Typedef(name, at) => {
                put(out, b"typedef ")?;
                self.put_named(alloc, out, *at, *name, DEPTH)?;
                put(out, b";")
            }
            Subject::Variable(name, at) => {
                self.put_named(alloc, out, *at, *name, DEPTH)?;
                put(out, b";")
            }
            Subject::Defined(name, body) => {
                self.put_body(alloc, out, *name, body, DEPTH)?;
                put(out, b";")
            }
            Subject::Declared(word, name) => {
                put_tag(out, *word, *name)?;
                put(out, b";")
            }
            Subject::Other => Ok(()),
        }
    }
}
