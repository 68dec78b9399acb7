//! The attributes of an entry, each value decoded on demand.

ghost use Rattle.std.specs.Bool.{OnTrue};
ghost use Rattle.std.specs.Prelude.{IfNone, IfOk, IfSome, IsTrue, List, MatchOption, OnSome, Some, [], drop, length};
ghost use Rattle.std.specs.Prelude.{true, ◌<◌, ◌≤◌, ◌∷◌, ◌≡◌};
ghost use Rattle.dw_forms.specs.FormCodes.{is_allowed};
ghost use Rattle.dw_forms.specs.Value.{view};
ghost use Rattle.dw_forms.specs.ValueReading.{Gives, value_at};
ghost use Rattle.dw_forms.specs.Chains.{Numbered};
ghost use Rattle.dw_forms.specs.Suffixes.{Ends, numbered, specs_in};
ghost use Rattle.dw_forms.specs.LeadingWalks.{IsFirstStep};
ghost use Rattle.dw_forms.specs.declared.abbrev.AttributeSpec.{AttributeSpec as SpecData};
ghost use Rattle.dw_forms.specs.declared.leading_steps.Lead.TheVariants.{Nothing as NoLead, Passed};
ghost use Rattle.dw_entries.specs.Choices.{size_unique};
ghost use Rattle.dw_entries.specs.Header.{IsSize};
ghost use Rattle.dw_entries.specs.OwnBytes.{IsRest};
ghost use Rattle.dw_entries.specs.ValueLaws.{left_unique};
ghost use Rattle.dw_entries.specs.Values.{IsCutValue, Left, value_context};

use crate::entries::Entries;
use crate::header::UnitHeader;
use crate::id::EntryId;
use crate::item::read_code;
use crate::records::Record;
use dw_forms::{
    Attribute, Attributes, Form, Step, Value, ValueFault, read_offset, read_value, skip_value,
};

/// Whether the bytes end inside a value of this form, which takes four bytes.
fn is_cut(form: Form, bytes: &[u8]) -> bool
    ensures { OnTrue result (IsCutValue form bytes.now) }
{
    match form {
        Form::Strp => bytes.len() < 4,
        Form::Ref4 => bytes.len() < 4,
        _ => false,
    }
}

/// The value at the front, as `read_value` reads it. It is out of line, for values of forms that are seldom read.
#[inline(never)]
fn read_seldom(
    version: u16,
    form: Form,
    address_size: u8,
    bytes: &[u8],
) -> Result<(Value<'_>, usize), ValueFault>
    requires allowed { IsTrue (is_allowed version form) }
    requires size { IsSize address_size }
    ensures within { IfOk result (λ x. x.1 ≤ length bytes.now) }
    ensures exact { Gives (λ x. (view x.0, drop x.1 bytes.now)) result (value_at version form address_size bytes.now) }
{
    read_value(version, form, address_size, bytes)
}

/// The attributes of an entry that are left, in their order, and the section that their values are in.
#[derive(Drop)]
pub struct Values<'e, 'a> {
    pub(crate) attributes: Attributes<'e>,
    /// .debug_info.
    pub(crate) info: &'a [u8],
    /// The end of it, from the first value that is left.
    pub(crate) bytes: &'a [u8],
    pub(crate) version: u16,
    pub(crate) address_size: u8,
    pub ghost sized: { IsSize address_size } by { size_unique address_size },
    pub ghost left: { Left (value_context version address_size) (specs_in attributes)
        bytes.now } by { left_unique (value_context version address_size) (specs_in attributes) bytes.now },
    ghost rest: { IsRest info.now bytes.now },
}

impl<'e, 'a> Values<'e, 'a> {
    ghost use Rattle.dw_forms.specs.Value.{view};
    ghost use Rattle.dw_forms.specs.Classes.{is_open};
    ghost use Rattle.dw_entries.specs.ValuePlaces.{placed_value};
    ghost use Rattle.dw_entries.specs.ValuesLeft.{Takes, info_of, placed_left, specs_left, values_left, viewed};
    ghost use Rattle.dw_entries.specs.Leading.{BeginsWithForm, BeginsWithLead, DoesNotLead, PassesOver, ReadsFirst};
    ghost use Rattle.dw_entries.specs.Leading.{StepsTo, form_of_lead};
    ghost use Rattle.dw_entries.specs.Led.{is_offset_lead, leads_on, offset_by};
    ghost use Rattle.dw_entries.specs.OwnBytes.{EndsAt, Leaves};
    ghost use Rattle.dw_entries.specs.PassedAttributes.{IsNotOpen, ArePassed, IsNextOf, TakesFirst};

    /// Passes the attributes up to these.
    fn pass(&mut self, to: Attributes<'e>)
        requires { (before : List (Numbered SpecData)) × Ends self.old.attributes to before }
        ensures left { (before : List (Numbered SpecData)) → Ends self.old.attributes to.entry before
            → values_left self.new ≡ drop (length before) (values_left self.old) }
        ensures attributes { self.new.attributes ≡ to.entry }
    {
        match self
            .attributes
            .pass(self.version, self.address_size, to, self.bytes)
        {
            Ok(bytes) => {
                self.attributes = to;
                self.bytes = bytes;
            }
            Err(_) => unreachable!(),
        }
    }

    /// Passes the attributes before the one that a step goes to.
    #[inline(always)]
    fn go(&mut self, step: &Step)
        requires step { IsFirstStep (numbered self.old.attributes) step.now }
        requires some { step.now.lead ≡ NoLead → ⊥ }
        ensures passed { PassesOver (values_left self.old) (values_left self.new) (specs_left self.old)
            (specs_left self.new) }
        ensures first { BeginsWithLead step.now.lead (specs_left self.new) }
    {
        let skip = self.attributes.skipped(step, self.address_size);
        self.attributes = self.attributes.stepped(step);
        self.bytes = &self.bytes[skip..];
    }

    /// Takes the first attribute that is left, and the step from those after it. If a form is given, the attribute has
    /// this form.
    #[inline(always)]
    fn take_by(&mut self, form: Option<Form>) -> Option<((Attribute, Value<'a>), &'e Step)>
        requires { IfSome form (BeginsWithForm (specs_left self.old)) }
        ensures steps { MatchOption result ((values_left self.old ≡ []) × (values_left self.new ≡ []))
            (λ found. values_left self.old ≡ viewed found.0 ∷ values_left self.new) }
        ensures declared { MatchOption result (specs_left self.old ≡ [])
            (λ found. ReadsFirst (specs_left self.old) (specs_left self.new) (viewed found.0)) }
        ensures first { OnSome result ((spec : SpecData) × Ends self.old.attributes self.new.attributes
            (record { number = self.old.attributes.first; item = spec } ∷ [])) }
        ensures bytes { MatchOption result (self.new.bytes ≡ self.old.bytes)
            (λ found. Leaves (view found.0.1) self.old.bytes.now self.new.bytes.now) }
        ensures taken { IfSome result (λ found. Takes self.old self.new (viewed found.0)) }
        ensures info { info_of self.new ≡ info_of self.old }
        ensures step { IfSome result (λ found. IsFirstStep (numbered self.new.attributes) found.1.now) }
    {
        let Some((spec, rest, next)) = self.attributes.split_step() else {
            return None;
        };
        let form = form.unwrap_or(spec.form);
        // Told here, so that the compiler leaves the test out where the value is read.
        if is_cut(form, self.bytes) {
            unreachable!();
        }
        match read_value(self.version, form, self.address_size, self.bytes) {
            Ok((value, len)) => {
                self.attributes = rest;
                self.bytes = &self.bytes[len..];
                Some(((spec.attribute, value), next))
            }
            Err(_) => unreachable!(),
        }
    }

    /// The attribute that a step goes to, which has this form, and the step from those after it. Values before it are
    /// skipped.
    #[inline(always)]
    pub(crate) fn step_to(&mut self, step: &Step, form: Form) -> ((Attribute, Value<'a>), &'e Step)
        requires step { IsFirstStep (numbered self.old.attributes) step.now }
        requires form { Some form ≡ form_of_lead step.now.lead }
        requires on { leads_on step.now.lead ≡ true }
        ensures next { IsNextOf DoesNotLead (values_left self.old) (viewed result.0) (values_left self.new) }
        ensures declared { StepsTo step.now.lead (specs_left self.old) (specs_left self.new) (viewed result.0) }
        ensures step { IsFirstStep (numbered self.new.attributes) result.1.now }
    {
        self.go(step);
        match self.take_by(Some(form)) {
            Some(found) => found,
            None => unreachable!(),
        }
    }

    /// The attribute that a step goes to, its value, which is an offset of four bytes, and the step from those after
    /// it. Values before it are skipped.
    #[inline(always)]
    pub(crate) fn step_to_offset(&mut self, step: &Step) -> ((Attribute, u32), &'e Step)
        requires step { IsFirstStep (numbered self.old.attributes) step.now }
        requires offset { is_offset_lead step.now.lead ≡ true }
        ensures next { IsNextOf DoesNotLead (values_left self.old)
            (result.0.0, offset_by step.now.lead result.0.1) (values_left self.new) }
        ensures declared { StepsTo step.now.lead (specs_left self.old) (specs_left self.new)
            (result.0.0, offset_by step.now.lead result.0.1) }
        ensures step { IsFirstStep (numbered self.new.attributes) result.1.now }
    {
        self.go(step);
        let Some((spec, rest, next)) = self.attributes.split_step() else {
            unreachable!();
        };
        match read_offset(self.bytes) {
            Ok(offset) => {
                self.attributes = rest;
                self.bytes = &self.bytes[4..];
                ((spec.attribute, offset), next)
            }
            Err(_) => unreachable!(),
        }
    }

    /// The attribute that a step goes to, its value, which is read out of line, and the step from those after it.
    /// Values before it are skipped.
    #[inline(always)]
    pub(crate) fn step_to_seldom(&mut self, step: &Step) -> ((Attribute, Value<'a>), &'e Step)
        requires step { IsFirstStep (numbered self.old.attributes) step.now }
        requires on { leads_on step.now.lead ≡ true }
        ensures next { IsNextOf DoesNotLead (values_left self.old) (viewed result.0) (values_left self.new) }
        ensures declared { StepsTo step.now.lead (specs_left self.old) (specs_left self.new) (viewed result.0) }
        ensures step { IsFirstStep (numbered self.new.attributes) result.1.now }
    {
        self.go(step);
        let Some((spec, rest, next)) = self.attributes.split_step() else {
            unreachable!();
        };
        match read_seldom(self.version, spec.form, self.address_size, self.bytes) {
            Ok((value, len)) => {
                self.attributes = rest;
                self.bytes = &self.bytes[len..];
                ((spec.attribute, value), next)
            }
            Err(_) => unreachable!(),
        }
    }

    /// Passes the attribute that a step goes to and those before it. None of their values leads elsewhere. Returns the
    /// step from those after it.
    pub(crate) fn step_past(&mut self, step: &Step) -> &'e Step
        requires step { IsFirstStep (numbered self.old.attributes) step.now }
        requires lead { step.now.lead ≡ Passed }
        ensures passed { PassesOver (values_left self.old) (values_left self.new) (specs_left self.old)
            (specs_left self.new) }
        ensures fewer { length (values_left self.new) < length (values_left self.old) }
        ensures step { IsFirstStep (numbered self.new.attributes) result.now }
    {
        self.go(step);
        let Some((spec, rest, next)) = self.attributes.split_step() else {
            unreachable!();
        };
        match skip_value(self.version, spec.form, self.address_size, self.bytes) {
            Ok(len) => {
                self.attributes = rest;
                self.bytes = &self.bytes[len..];
                next
            }
            Err(_) => unreachable!(),
        }
    }

    /// The next attribute, its value, and the offset in .debug_info of the byte after those that spell the value.
    #[tactic(auto, using(crate::proofs::PlacedLaws::ends_at, crate::proofs::PlacedLaws::place_taken))]
    pub fn next_placed(&mut self) -> Option<(Attribute, Value<'a>, usize)>
        ensures steps { MatchOption result ((placed_left self.old ≡ []) × (placed_left self.new ≡ []))
            (λ item. placed_left self.old ≡ placed_value item.0 (view item.1) item.2 ∷ placed_left self.new) }
        ensures place { IfSome result (λ item. EndsAt (info_of self.old) (view item.1) item.2) }
        ensures info { info_of self.new ≡ info_of self.old }
    {
        match self.take_by(None) {
            Some(((attribute, value), _)) => {
                let end = self.info.len() - self.bytes.len();
                Some((attribute, value, end))
            }
            None => None,
        }
    }

    /// The next open attribute. Values before it are skipped.
    pub fn next_open(&mut self) -> Option<(Attribute, Value<'a>)>
        ensures some { IfSome result
            (λ found. IsNextOf IsNotOpen (values_left self.old) (viewed found) (values_left self.new)) }
        ensures none { IfNone result (ArePassed IsNotOpen (values_left self.old)) }
        ensures stop { OnSome result (TakesFirst is_open (specs_left self.old) (specs_left self.new)) }
    {
        let from = self.attributes.next_open();
        self.pass(from);
        match self.take_by(None) {
            Some((item, _)) => Some(item),
            None => None,
        }
    }
}

impl<'e, 'a> Iterator for Values<'e, 'a> {
    type Item = (Attribute, Value<'a>);

    ghost use Rattle.std.specs.Iterator.{YieldsFirstBy, item_count};
    ghost use Rattle.dw_entries.specs.ValuesLeft.{viewed, values_left};

    ghost next_gives = { YieldsFirstBy viewed values_left };

    ghost remaining = { item_count values_left };

    fn next(&mut self) -> Option<(Attribute, Value<'a>)> {
        match self.take_by(None) {
            Some((item, _)) => Some(item),
            None => None,
        }
    }
}

impl<'a> Entries<'a> {
    ghost use Rattle.std.specs.Prelude.{Some, slice_get};
    ghost use Rattle.dw_entries.specs.ByNumber.{entry_of, unit_of};
    ghost use Rattle.dw_entries.specs.EntryRules.{values_of};
    ghost use Rattle.dw_entries.specs.ValuePlaces.{FollowCode, placed_values};
    ghost use Rattle.dw_entries.specs.ValuesLeft.{info_of, placed_left, values_left};
    ghost use Rattle.dw_entries.specs.Views.{all_entries, sections_of, units_of};

    /// The bytes of an entry's values, and those after them.
    #[inline(always)]
    pub(crate) fn value_bytes(&self, id: EntryId, kept: Record) -> &'a [u8]
        requires id { id < length (all_entries self.now) }
        requires kept { slice_get self.now.records.items id ≡ Some kept }
        ensures { FollowCode (sections_of self.now).info.now (entry_of (all_entries self.now) id) result.now }
    {
        match read_code(&self.sections.info[kept.at as usize..]) {
            Ok((_, values)) => values,
            Err(_) => unreachable!(),
        }
    }

    /// These attributes of an entry, which are all that its declaration has.
    #[inline(always)]
    pub(crate) fn values_with<'e>(
        &'e self,
        id: EntryId,
        kept: Record,
        header: UnitHeader,
        attributes: Attributes<'e>,
    ) -> Values<'e, 'a>
        requires id { id < length (all_entries self.now) }
        requires kept { slice_get self.now.records.items id ≡ Some kept }
        requires header { header ≡ (unit_of (units_of self.now) (entry_of (all_entries self.now) id).unit).header }
        requires specs { specs_in attributes ≡ (entry_of (all_entries self.now) id).head.decl.attributes }
        ensures values { values_left result ≡ values_of (entry_of (all_entries self.now) id).head }
        ensures left { placed_left result ≡ placed_values (entry_of (all_entries self.now) id) }
        ensures info { info_of result ≡ (sections_of self.now).info.now }
        ensures attributes { numbered result.attributes ≡ numbered attributes.entry }
    {
        Values {
            attributes,
            info: self.sections.info,
            bytes: self.value_bytes(id, kept),
            version: header.kind.version(),
            address_size: header.address_size,
        }
    }

    /// The attributes of an entry of this unit. The unit is not looked up.
    pub fn placed(&self, id: EntryId, unit: usize) -> Values<'_, 'a>
        requires id { id < length (all_entries self.now) }
        requires unit { unit ≡ (entry_of (all_entries self.now) id).unit }
        ensures left { placed_left result ≡ placed_values (entry_of (all_entries self.now) id) }
        ensures info { info_of result ≡ (sections_of self.now).info.now }
    {
        let kept = self.record(id);
        let attributes = self.decls.decl(kept.decl).attributes();
        self.values_with(id, kept, self.units[unit].header, attributes)
    }
}
