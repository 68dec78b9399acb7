//! The attributes of an entry whose values may lead elsewhere.

ghost use Rattle.std.specs.Prelude.{IfNone, IfSome, Some, false, true, ◌≡◌};
ghost use Rattle.dw_forms.specs.LeadingWalks.{IsFirstStep};
ghost use Rattle.dw_forms.specs.Suffixes.{numbered};
ghost use Rattle.dw_forms.specs.declared.leading_steps.Lead.TheVariants.{Passed};

use crate::led::{Led, led_by, led_to};
use crate::values::Values;
use dw_forms::{Form, Lead, Step};

/// A walk over the values of an entry that may lead elsewhere. It decodes these alone, and passes those before the last
/// of them.
#[derive(Drop)]
pub struct Leading<'e, 'a> {
    pub(crate) values: Values<'e, 'a>,
    /// The step to the next attribute.
    pub(crate) step: &'e Step,
    pub ghost steps: { IsFirstStep (numbered values.attributes) step.now },
}

impl<'a> Leading<'_, 'a> {
    ghost use Rattle.dw_entries.specs.PassedAttributes.{ArePassed, IsNextOf};
    ghost use Rattle.dw_entries.specs.Led.{LeadsNext, is_offset_lead, item_of, leads_on};
    ghost use Rattle.dw_entries.specs.Leading.{DoesNotLead, form_of_lead, leading_left, leading_specs, next_lead};

    /// Takes the next value, which is an offset of four bytes and has this lead.
    #[inline(always)]
    fn take_offset(&mut self, lead: Lead) -> Led<'a>
        requires lead { next_lead self.old ≡ lead }
        requires offset { is_offset_lead lead ≡ true }
        ensures next { IsNextOf DoesNotLead (leading_left self.old) (item_of result) (leading_left self.new) }
        ensures led { LeadsNext result (leading_specs self.old) (leading_specs self.new) }
    {
        let ((attribute, offset), after) = self.values.step_to_offset(self.step);
        self.step = after;
        led_to(lead, attribute, offset)
    }

    /// Takes the next value, which has this lead and this form. It is no offset of four bytes.
    #[inline(always)]
    fn take_in(&mut self, lead: Lead, form: Form) -> Led<'a>
        requires lead { next_lead self.old ≡ lead }
        requires form { Some form ≡ form_of_lead lead }
        requires on { leads_on lead ≡ true }
        requires other { is_offset_lead lead ≡ false }
        ensures next { IsNextOf DoesNotLead (leading_left self.old) (item_of result) (leading_left self.new) }
        ensures led { LeadsNext result (leading_specs self.old) (leading_specs self.new) }
    {
        let ((attribute, value), after) = self.values.step_to(self.step, form);
        self.step = after;
        led_by(lead, attribute, value)
    }

    /// Takes the next value, which has this lead. It is no offset of four bytes, and is read out of line.
    #[inline(always)]
    fn take_seldom(&mut self, lead: Lead) -> Led<'a>
        requires lead { next_lead self.old ≡ lead }
        requires on { leads_on lead ≡ true }
        requires other { is_offset_lead lead ≡ false }
        ensures next { IsNextOf DoesNotLead (leading_left self.old) (item_of result) (leading_left self.new) }
        ensures led { LeadsNext result (leading_specs self.old) (leading_specs self.new) }
    {
        let ((attribute, value), after) = self.values.step_to_seldom(self.step);
        self.step = after;
        led_by(lead, attribute, value)
    }

    /// Takes the next value, if one is left. It may lead elsewhere. Usual leads have arms of their own, and none hands
    /// over the walk itself, which so stays in registers. (The arms are small because the compiler leaves a function
    /// that grows very large out of line.)
    #[inline(always)]
    fn take_next(&mut self) -> Option<Led<'a>>
        requires { next_lead self.old ≡ Passed → ⊥ }
        ensures next { IfSome result
            (λ led. IsNextOf DoesNotLead (leading_left self.old) (item_of led) (leading_left self.new)) }
        ensures led { IfSome result (λ led. LeadsNext led (leading_specs self.old) (leading_specs self.new)) }
        ensures none { IfNone result (ArePassed DoesNotLead (leading_left self.old)) }
    {
        match self.step.lead {
            Lead::Nothing | Lead::Passed => None,
            Lead::Text => Some(self.take_offset(Lead::Text)),
            Lead::TypeEntry => Some(self.take_offset(Lead::TypeEntry)),
            Lead::Sibling => Some(self.take_offset(Lead::Sibling)),
            Lead::Specification => Some(self.take_offset(Lead::Specification)),
            Lead::Entry => Some(self.take_offset(Lead::Entry)),
            Lead::Index1 => Some(self.take_in(Lead::Index1, Form::Strx1)),
            Lead::Index2 => Some(self.take_in(Lead::Index2, Form::Strx2)),
            lead => Some(self.take_seldom(lead)),
        }
    }

    /// Takes the next value that may lead elsewhere. Those before it are passed.
    #[inline(always)]
    pub fn take(&mut self) -> Option<Led<'a>>
        ensures next { IfSome result
            (λ led. IsNextOf DoesNotLead (leading_left self.old) (item_of led) (leading_left self.new)) }
        ensures led { IfSome result (λ led. LeadsNext led (leading_specs self.old) (leading_specs self.new)) }
        ensures none { IfNone result (ArePassed DoesNotLead (leading_left self.old)) }
    {
        while self.step.lead == Lead::Passed {
            self.step = self.values.step_past(self.step);
        }
        self.take_next()
    }
}
