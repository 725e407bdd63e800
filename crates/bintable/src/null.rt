// The null of a column, by check 17.
ghost use Rattle.std.specs.Prelude.{◌≡◌, cond, ◌+◌, ◌<◌, IfOk};
ghost use Rattle.keyword.specs.Names.{column_slots};
ghost use Rattle.refusal.specs.Refusal.{outcome_of};
ghost use Rattle.layout.specs.declared.Null.{Null};
ghost use Rattle.bintable.specs.Checks.{null_ok, check17};
ghost use Rattle.bintable.specs.Entry.{null_from, null_of};

use crate::Indexed;
use keyword::Root;
use layout::Null;
use refusal::Refusal;
use tform::TFormType;

// An integer as a null, which keeps whether 64 bits with a sign hold it.
fn null_from(number: i128) -> Null
    ensures { result ≡ null_from (Some number) }
{
    match i64::try_from(number) {
        Ok(number) => Null::Number(number),
        Err(_) => Null::OutOfRange,
    }
}

impl Indexed<'_> {
    // The null of column i, from 0, if it may have the one that is given.
    #[tactic(auto, unfolding(crate::specs::Entry::null_of))]
    fn given_null(&self, i: usize, form: TFormType) -> Option<Null>
        requires { i < column_slots }
        ensures { let h = self.now.header.now in
            result ≡ cond (null_ok h (i + 1) form) (Some (null_of h (i + 1))) None }
    {
        if !tform::can_have_null(form) || self.is_repeated(Root::Tnull, i) {
            return None;
        }
        let number = self.column_record(Root::Tnull, i).wide()?;
        Some(null_from(number))
    }

    // The null of column i, by 17.
    #[tactic(auto, using(crate::proofs::Nulls::none_null), unfolding(crate::specs::Checks::check17))]
    pub fn read_null(&self, i: usize, form: TFormType) -> Result<Null, Refusal>
        requires { i < column_slots }
        ensures check { outcome_of result ≡ check17 self.now.header.now (i + 1) form }
        ensures null { IfOk result (λ (n : Null). n ≡ null_of self.now.header.now (i + 1)) }
    {
        if self.column_record(Root::Tnull, i).number().is_none() {
            return Ok(Null::NotGiven);
        }
        self.given_null(i, form)
            .ok_or(Refusal::InvalidNull { n: i + 1 })
    }
}
