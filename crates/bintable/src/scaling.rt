// The scaling of a column, by check 16.
ghost use Rattle.std.specs.Prelude.{◌≡◌, cond, ◌+◌, ◌<◌, IfOk};
ghost use Rattle.keyword.specs.Names.{column_slots};
ghost use Rattle.refusal.specs.Refusal.{outcome_of};
ghost use Rattle.layout.specs.declared.Scaling.{Scaling};
ghost use Rattle.bintable.specs.Checks.{scaling_given, twice, factor_of, zero_of, scaling_ok, check16};
ghost use Rattle.bintable.specs.Entry.{scaling_of};

use crate::Indexed;
use keyword::Root;
use layout::{NO_SCALING, Scaling};
use refusal::Refusal;
use tform::TFormType;

impl Indexed<'_> {
    // Whether TSCALn or TZEROn of column i, from 0, stands in the header.
    #[tactic(auto, unfolding(crate::specs::Checks::scaling_given))]
    pub fn scaling_given(&self, i: usize) -> bool
        requires { i < column_slots }
        ensures { result ≡ scaling_given self.now.header.now (i + 1) }
    {
        let factor = self.column_record(Root::Tscal, i).number();
        let zero = self.column_record(Root::Tzero, i).number();
        factor.is_some() || zero.is_some()
    }

    // Whether either is given twice.
    #[tactic(auto, unfolding(crate::specs::Checks::twice))]
    fn is_given_twice(&self, i: usize) -> bool
        requires { i < column_slots }
        ensures { result ≡ twice self.now.header.now (i + 1) }
    {
        self.is_repeated(Root::Tscal, i) || self.is_repeated(Root::Tzero, i)
    }

    // The factor of column i, if it is a number; that of a missing TSCALn is 1.
    fn factor(&self, i: usize) -> Option<f64>
        requires { i < column_slots }
        ensures { result ≡ factor_of self.now.header.now (i + 1) }
    {
        self.column_record(Root::Tscal, i)
            .real_or(NO_SCALING.factor)
    }

    // Its zero, if it is a number; that of a missing TZEROn is 0.
    fn zero(&self, i: usize) -> Option<f64>
        requires { i < column_slots }
        ensures { result ≡ zero_of self.now.header.now (i + 1) }
    {
        self.column_record(Root::Tzero, i).real_or(NO_SCALING.zero)
    }

    // The scaling of column i, if it may have the one that is given.
    #[tactic(auto, unfolding(crate::specs::Entry::scaling_of))]
    fn given_scaling(&self, i: usize, form: TFormType) -> Option<Scaling>
        requires { i < column_slots }
        ensures { let h = self.now.header.now in
            result ≡ cond (scaling_ok h (i + 1) form) (Some (scaling_of h (i + 1))) None }
    {
        if !tform::can_scale(form) || self.is_given_twice(i) {
            return None;
        }
        let factor = self.factor(i)?;
        let zero = self.zero(i)?;
        Some(Scaling { factor, zero })
    }

    // The scaling of column i, by 16.
    #[tactic(auto, unfolding(crate::specs::Checks::check16))]
    pub fn read_scaling(&self, i: usize, form: TFormType) -> Result<Scaling, Refusal>
        requires { i < column_slots }
        ensures check { outcome_of result ≡ check16 self.now.header.now (i + 1) form }
        ensures scaling { IfOk result (λ (s : Scaling). s ≡ scaling_of self.now.header.now (i + 1)) }
    {
        if !self.scaling_given(i) {
            return Ok(NO_SCALING);
        }
        self.given_scaling(i, form)
            .ok_or(Refusal::InvalidScaling { n: i + 1 })
    }
}
