//! The class of the values of each form (DWARF 5, 7.5.5 and 7.5.6).
//! The arms are made by docs/make-rules.py from docs/codes.tsv.

ghost use Rattle.std.specs.Prelude.{◌≡◌};
ghost use Rattle.dw_forms.specs.FormTable.{form_class};

use crate::class::Class;
use crate::form::Form;

/// The class of all values in a form; None for the form indirect, whose values name another form.
pub(crate) fn class_of_form(form: Form) -> Option<Class>
    ensures { result ≡ form_class form }
{
    Some(match form {
        Form::Addr | Form::Addrx | Form::Addrx1 | Form::Addrx2 | Form::Addrx3 | Form::Addrx4 => {
            Class::Address
        }
        Form::Block2 | Form::Block4 | Form::Block | Form::Block1 => Class::Block,
        Form::Data2
        | Form::Data4
        | Form::Data8
        | Form::Data1
        | Form::Sdata
        | Form::Udata
        | Form::ImplicitConst(_) => Class::Constant,
        Form::Data16 => Class::WideConstant,
        Form::Exprloc => Class::Exprloc,
        Form::Flag | Form::FlagPresent => Class::Flag,
        Form::Loclistx | Form::Rnglistx => Class::ListIndex,
        Form::RefAddr
        | Form::Ref1
        | Form::Ref2
        | Form::Ref4
        | Form::Ref8
        | Form::RefUdata
        | Form::RefSig8 => Class::Reference,
        Form::SecOffset => Class::SectionOffset,
        Form::Text
        | Form::Strp
        | Form::Strx
        | Form::LineStrp
        | Form::Strx1
        | Form::Strx2
        | Form::Strx3
        | Form::Strx4 => Class::String,
        Form::Indirect => return None,
    })
}
