//! A value of an entry that may lead elsewhere. What it leads to says which rules can fail there, and only these are
//! checked. If one fails, the value is judged by all rules.

ghost use Rattle.std.specs.Prelude.{◌≡◌, IfErr, IfOk, IfSome};
ghost use Rattle.std.specs.Bool.{OnTrue};
ghost use Rattle.dw_forms.specs.Value.{view};
ghost use Rattle.dw_forms.specs.declared.abbrev.AttributeSpec.{AttributeSpec as SpecData};
ghost use Rattle.dw_entries.specs.Led.{IsLedBy, item_of};
ghost use Rattle.dw_links.specs.EntryLinks.{HasFailedAt, KeepsAt, ReachesAt};
ghost use Rattle.dw_links.specs.UnitAtHand.{entries_followed, MayLink, IsLinkable, IsTypeAfter, IsSiblingAfter};
ghost use Rattle.dw_links.specs.UnitAtHand.{IsDeclaredAfter, LeadsWell};

use crate::class::plain_fault_at;
use crate::linking::{keep, number_of};
use crate::references::UnitLinks;
use crate::targets::Declared;
use dw_entries::constants::*;
use dw_entries::{EntryId, Led, OptionalId, PlainFault};
use dw_forms::{Attribute, Value};

impl UnitLinks<'_, '_, '_> {
    /// The type that starts so many bytes after the unit's header, if one does.
    fn type_after(&self, offset: u64) -> Option<EntryId>
        requires { IsLinkable self.now }
        ensures { IfSome result (IsTypeAfter self.now offset) }
    {
        let id = self.find_in_unit(offset)?;
        if !self.entries.decl(id).is_type() {
            return None;
        }
        Some(id)
    }

    /// Whether the next sibling of an entry starts so many bytes after the unit's header.
    #[inline(always)]
    fn is_sibling(&self, id: EntryId, offset: u64) -> bool
        requires { MayLink self.now id }
        ensures { OnTrue result (IsSiblingAfter self.now id offset) }
    {
        let Some(next) = self.entries.next_sibling(id) else {
            return false;
        };
        let Some(target) = self.find_in_unit(offset) else {
            return false;
        };
        target.number() == next.number()
    }

    /// Whether another entry, which is a declaration, starts so many bytes after the unit's header. False also if
    /// only its own values say whether it is a declaration.
    #[inline(always)]
    fn is_completed(&self, id: EntryId, offset: u64) -> bool
        requires { IsLinkable self.now }
        ensures { OnTrue result (IsDeclaredAfter self.now id offset) }
    {
        let Some(target) = self.find_in_unit(offset) else {
            return false;
        };
        if target.number() == id.number() {
            return false;
        }
        self.entries.decl(target).declared().unwrap_or(false)
    }

    /// Whether no rule fails at a value, which is of no type. False also if that takes more to find out.
    #[inline(always)]
    fn leads_well(&self, id: EntryId, led: &Led<'_>) -> bool
        requires { MayLink self.now id }
        ensures { OnTrue result (LeadsWell self.now id led.now) }
    {
        match *led {
            Led::Sibling(offset) => self.is_sibling(id, offset),
            Led::Specification(offset) => self.is_completed(id, offset),
            Led::Entry(_, offset) => self.find_in_unit(offset).is_some(),
            Led::Text(_, offset) => self.texts.ask_text(offset).is_none(),
            Led::Index(_, index) => self.texts.ask_string(index).is_none(),
            Led::Address(_, index) => self.texts.ask_address(index).is_none(),
            Led::Type(_) | Led::Other(_, _) => false,
        }
    }

    /// The target of a value of an entry, which is looked up, or the first rule that fails there. Few values of
    /// compiled programs come here.
    #[cold]
    #[inline(never)]
    #[tactic(auto, using(crate::proofs::LeadSteps::may_ask))]
    fn judge(
        &self,
        declared: &mut Declared<'_, '_>,
        id: EntryId,
        attribute: Attribute,
        value: &Value<'_>,
    ) -> Result<OptionalId, PlainFault>
        requires may { MayLink self.now id }
        requires of { declared.old.entries.now ≡ entries_followed self.now }
        ensures of { declared.new.entries.now ≡ entries_followed self.now }
        ensures ok { IfOk result (ReachesAt self.now id attribute (view value.now)) }
        ensures err { IfErr result (HasFailedAt self.now id attribute (view value.now)) }
    {
        let head = self.entry(id, self.texts.head.header).head();
        if let Some(rule) = self.texts.ask(&head, attribute, value) {
            return Err(plain_fault_at(&head, attribute, rule));
        }
        let reached = self.reach(&head, value);
        let target = number_of(self.entries, &reached);
        match declared.ask(&head, attribute, value, reached) {
            None => Ok(target),
            Some(rule) => Err(plain_fault_at(&head, attribute, rule)),
        }
    }

    /// What is kept of an entry's type after a value, or the rule that fails there.
    #[inline(always)]
    fn judge_next(
        &self,
        declared: &mut Declared<'_, '_>,
        id: EntryId,
        kept: Option<OptionalId>,
        attribute: Attribute,
        value: Value<'_>,
    ) -> Result<Option<OptionalId>, PlainFault>
        requires may { MayLink self.now id }
        requires of { declared.old.entries.now ≡ entries_followed self.now }
        ensures of { declared.new.entries.now ≡ entries_followed self.now }
        ensures ok { IfOk result (KeepsAt self.now id attribute (view value.entry) kept) }
        ensures err { IfErr result (HasFailedAt self.now id attribute (view value.entry)) }
    {
        let given = value;
        match self.judge(declared, id, attribute, &given) {
            Ok(reached) => Ok(keep(kept, attribute, reached)),
            Err(broken) => Err(broken),
        }
    }

    /// What is kept of the entry's type after a value, or the rule that fails there. What the value leads to says which
    /// rules are checked.
    #[inline(always)]
    pub(crate) fn link_led(
        &self,
        declared: &mut Declared<'_, '_>,
        id: EntryId,
        led: &Led<'_>,
        kept: Option<OptionalId>,
    ) -> Result<Option<OptionalId>, PlainFault>
        requires may { MayLink self.now id }
        requires of { declared.old.entries.now ≡ entries_followed self.now }
        requires led { (spec : SpecData) × IsLedBy led.now spec }
        ensures of { declared.new.entries.now ≡ entries_followed self.now }
        ensures ok { IfOk result (KeepsAt self.now id (item_of led.now).0 (item_of led.now).1 kept) }
        ensures err { IfErr result (HasFailedAt self.now id (item_of led.now).0 (item_of led.now).1) }
    {
        if let Led::Type(offset) = *led {
            if let Some(target) = self.type_after(offset) {
                let target = number_of(self.entries, &Some(target));
                return Ok(keep(kept, DW_AT_type, target));
            }
        }
        if self.leads_well(id, led) {
            return Ok(kept);
        }
        let (attribute, value) = led.item();
        self.judge_next(declared, id, kept, attribute, value)
    }
}
