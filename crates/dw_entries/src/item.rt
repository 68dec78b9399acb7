//! The items of a unit: entries, and the nulls that end lists of children.

ghost use Rattle.std.specs.Prelude.{IfErr, IfOk, None, Some, option_map, ◌≡◌};
ghost use Rattle.dw_forms.specs.KeptDecls.{decl_view};
ghost use Rattle.dw_forms.specs.Suffixes.{specs_in};
ghost use Rattle.dw_forms.specs.ValueReading.{Gives};
ghost use Rattle.dw_forms.specs.Formats.{mapped};
ghost use Rattle.dw_entries.specs.Grammar.{declared_in};
ghost use Rattle.dw_entries.specs.ItemFormats.{attribute as attribute_format, attributes as attributes_format};
ghost use Rattle.dw_entries.specs.ItemFormats.{bytes_after, code as code_format, first_head, fitting_head};
ghost use Rattle.dw_entries.specs.ItemFormats.{item as item_format};
ghost use Rattle.dw_entries.specs.ItemFormats.{value_rule as rule_of_value};
ghost use Rattle.dw_entries.specs.Items.{entry_decl, numbered_decl};
ghost use Rattle.dw_entries.specs.NamedDecls.{declared_view};
ghost use Rattle.dw_entries.specs.Units.{context_in, numbers_in};
ghost use Rattle.dw_forms.specs.declared.rule.Rule.TheVariants.{UndeclaredCode};

use crate::fault::Failing;
use crate::header::HeaderKind;
use crate::records::UnitContext;
use dw_forms::{
    Attribute, AttributeSpec, Attributes, DeclAt, NumberFault, Rule, ValueFault, read_uleb,
    skip_value,
};

impl From<NumberFault> for Failing {
    ghost use Rattle.dw_entries.specs.ItemFormats.{number_rule};

    ghost from_gives = { λ f e. e ≡ record { rule = number_rule f; attribute = 0 } };

    fn from(fault: NumberFault) -> Failing {
        let rule = match fault {
            NumberFault::Cut => Rule::Cut,
            NumberFault::BadNumber => Rule::BadNumber,
        };
        Failing { rule, attribute: 0 }
    }
}

/// The rule that the fault of a value breaks.
fn value_rule(fault: ValueFault) -> Rule
    ensures { result ≡ rule_of_value fault }
{
    match fault {
        ValueFault::Cut => Rule::Cut,
        ValueFault::BadNumber => Rule::BadNumber,
        ValueFault::BadIndirect => Rule::BadIndirect,
    }
}

/// The code at the front, and the bytes after it.
#[inline(always)]
#[tactic(auto, unfolding(crate::specs::ItemFormats::code))]
pub fn read_code(bytes: &[u8]) -> Result<(u64, &[u8]), Failing>
    ensures { Gives (λ x. (x.0, x.1.now)) result (code_format.read bytes.now) }
{
    let (number, len) = read_uleb(bytes)?;
    Ok((number, &bytes[len..]))
}

/// The number of an attribute.
fn code_of(attribute: Attribute) -> u16
    ensures { result ≡ attribute }
{
    attribute.0
}

/// The bytes after the value of an attribute.
#[tactic(auto, unfolding(crate::specs::ItemFormats::attribute))]
fn skip_attribute<'b>(
    context: UnitContext<'_>,
    spec: AttributeSpec,
    bytes: &'b [u8],
) -> Result<&'b [u8], Failing>
    ensures { Gives (λ rest. rest.now) result
        (bytes_after ((attribute_format (context_in context.entry) spec).read bytes.now)) }
{
    if !spec.form.allowed(context.version) {
        return Err(Failing {
            rule: Rule::FormVersion,
            attribute: code_of(spec.attribute),
        });
    }
    match skip_value(context.version, spec.form, context.address_size, bytes) {
        Ok(len) => Ok(&bytes[len..]),
        Err(fault) => Err(Failing {
            rule: value_rule(fault),
            attribute: code_of(spec.attribute),
        }),
    }
}

/// The bytes after the values of these attributes, one after another.
fn skip_each<'b>(
    context: UnitContext<'_>,
    attributes: Attributes<'_>,
    bytes: &'b [u8],
) -> Result<&'b [u8], Failing>
    ensures { Gives (λ rest. rest.now) result
        (bytes_after ((attributes_format (context_in context.entry) (specs_in attributes.entry)).read bytes.now)) }
{
    let mut rest = bytes;
    let mut left = attributes;
    while let Some((spec, after)) = left.split_first() {
        rest = skip_attribute(context, spec, rest)?;
        left = after;
    }
    Ok(rest)
}

/// The bytes after the values of an entry, which are passed together where the version has all their forms. Where that
/// fails, they are read one by one up to the fault.
#[inline(always)]
fn skip_attributes<'b>(
    context: UnitContext<'_>,
    decl: DeclAt<'_>,
    bytes: &'b [u8],
) -> Result<&'b [u8], Failing>
    ensures { Gives (λ rest. rest.now) result
        (bytes_after
        ((attributes_format (context_in context.entry) (decl_view decl.entry).attributes).read bytes.now)) }
{
    let version = context.version;
    if decl.allows(version) {
        if let Ok(rest) = decl.pass_all(version, context.address_size, bytes) {
            return Ok(rest);
        }
    }
    skip_each(context, decl.attributes(), bytes)
}

/// The declaration with this code, and its number.
#[inline(always)]
#[tactic(auto, unfolding(crate::specs::Grammar::declared_in))]
fn find_decl(context: UnitContext<'_>, code: u64) -> Result<(u32, DeclAt<'_>), Failing>
    ensures found { IfOk result (λ d. Some (decl_view d.1) ≡ declared_in (context_in context.entry).table code) }
    ensures number { IfOk result (λ d. d.0 ≡ numbers_in context.entry (decl_view d.1).code) }
    ensures none { IfErr result (λ f. None ≡ declared_in (context_in context.entry).table code) }
    ensures rule { IfErr result (λ f. f ≡ record { rule = UndeclaredCode; attribute = 0 }) }
{
    match context.tables.get(context.table, code) {
        Some(declared) => Ok(declared),
        None => Err(Failing {
            rule: Rule::UndeclaredCode,
            attribute: 0,
        }),
    }
}

/// The number and the declaration of the entry at the front, or none at a null, and the bytes after it.
#[inline(always)]
#[tactic(auto, unfolding(crate::specs::ItemFormats::item, crate::specs::ItemFormats::head_by))]
pub fn read_item<'a, 'b>(
    context: UnitContext<'a>,
    bytes: &'b [u8],
) -> Result<(Option<(u32, DeclAt<'a>)>, &'b [u8]), Failing>
    ensures { Gives (λ x. (option_map declared_view x.0, x.1.now)) result
        ((mapped (numbered_decl (numbers_in context.entry)) (item_format (context_in context.entry))).read bytes.now) }
{
    let (code, rest) = read_code(bytes)?;
    if code == 0 {
        return Ok((None, rest));
    }
    let (number, decl) = find_decl(context, code)?;
    let rest = skip_attributes(context, decl, rest)?;
    Ok((Some((number, decl)), rest))
}

/// The number and the declaration of an entry that a unit of this kind may begin with, and the bytes after it.
#[tactic(auto, unfolding(crate::specs::ItemFormats::fitting_head, crate::specs::ItemFormats::head_by))]
fn read_fitting<'a, 'b>(
    context: UnitContext<'a>,
    kind: HeaderKind,
    bytes: &'b [u8],
) -> Result<((u32, DeclAt<'a>), &'b [u8]), Failing>
    ensures { Gives (λ x. (declared_view x.0, x.1.now)) result
        ((mapped (entry_decl (numbers_in context.entry))
        (fitting_head (context_in context.entry) kind)).read bytes.now) }
{
    let (code, rest) = read_code(bytes)?;
    if code == 0 {
        return Err(Failing {
            rule: Rule::NoUnitEntry,
            attribute: 0,
        });
    }
    let (number, decl) = find_decl(context, code)?;
    if !kind.fits(decl.tag()) {
        return Err(Failing {
            rule: Rule::WrongUnitTag,
            attribute: 0,
        });
    }
    let rest = skip_attributes(context, decl, rest)?;
    Ok(((number, decl), rest))
}

/// The number and the declaration of a unit's first entry, and the bytes after it.
#[tactic(auto, unfolding(crate::specs::ItemFormats::first_head))]
pub fn read_first<'a, 'b>(
    context: UnitContext<'a>,
    kind: HeaderKind,
    bytes: &'b [u8],
) -> Result<((u32, DeclAt<'a>), &'b [u8]), Failing>
    ensures { Gives (λ x. (declared_view x.0, x.1.now)) result
        ((mapped (entry_decl (numbers_in context.entry)) (first_head (context_in context.entry) kind)).read bytes.now) }
{
    match read_fitting(context, kind, bytes) {
        Ok(found) => Ok(found),
        Err(failing) => {
            if bytes.is_empty() {
                return Err(Failing {
                    rule: Rule::NoUnitEntry,
                    attribute: 0,
                });
            }
            Err(failing)
        }
    }
}
