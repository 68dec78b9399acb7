//! Why a declaration is refused, if it is, by what is known of the types that it leads to.

ghost use Rattle.std.specs.Prelude.{◌≡◌, IfOk};
ghost use Rattle.dw_cprint.specs.Judgements.{IsRefusal, IsRefusalBelow};
ghost use Rattle.dw_cprint.specs.Shapes.{view_subject};
ghost use Rattle.dw_cprint.specs.Steps.{first_steps, types_declared};
ghost use Rattle.dw_cprint.specs.Summaries.{BySurvey};

use crate::fault::PrintFault;
use crate::lengths::length_declared;
use crate::reaching::put_declared_types;
use crate::shape::Subject;
use crate::source::TypeAt;
use crate::summary::findings_of;
use crate::survey::Survey;
use crate::text::LIMIT;
use std::alloc::AllocError;

impl<'a> Survey<'a> {
    /// Why a declaration is refused, if it is by a rule that needs no text. `types` are those that it leads to.
    fn refusal_by_types(&self, subject: &Subject<'a>, types: &[TypeAt]) -> Option<PrintFault>
        requires { types.now ≡ types_declared (view_subject subject.now) }
        ensures { BySurvey self.now (first_steps (view_subject subject.now)) (λ shapes.
            IsRefusalBelow 6 shapes (view_subject subject.now) result) }
    {
        if let Subject::Other = subject {
            return Some(PrintFault::NotPrintable);
        }
        if self.reaches_cycle(types) {
            return Some(PrintFault::NotPrintable);
        }
        findings_of(self, subject, types).first()
    }

    /// Why a declaration is refused, if it is. No text is written for that. `types` is room for the types that it leads
    /// to.
    pub fn refusal(
        &self,
        types: &mut Vec<TypeAt>,
        subject: &Subject<'a>,
    ) -> Result<Option<PrintFault>, AllocError>
        ensures { IfOk result (λ r. BySurvey self.now (first_steps (view_subject subject.now)) (λ shapes.
            IsRefusal shapes (view_subject subject.now) r)) }
    {
        types.clear();
        put_declared_types(types, subject)?;
        if let Some(fault) = self.refusal_by_types(subject, types) {
            return Ok(Some(fault));
        }
        let length = length_declared(self, subject);
        if length > LIMIT {
            return Ok(Some(PrintFault::TooLong));
        }
        Ok(None)
    }
}
