// The nine names that are not numbered by column, each by checks 4, 5, 6 and 7.
ghost use Rattle.std.specs.Prelude.{◌≡◌, Option, [], ◌∷◌, ◌+◌, ◌<◌, ◌^◌, take, drop};
ghost use Rattle.card.specs.declared.Value.{Value};
ghost use Rattle.ascii.specs.Text.{bytes, same};
ghost use Rattle.keyword.specs.Names.{index_limit};
ghost use Rattle.refusal.specs.Refusal.{accepted, outcome_of};
ghost use Rattle.layout.specs.Layout.{tfields_limit};
ghost use Rattle.bintable.specs.Checks.{is_integer, is_string, not_negative, within, text_in, check4, check5};
ghost use Rattle.bintable.specs.Checks.{check6, first_refusal};
ghost use Rattle.bintable.specs.Entry.{required, limited, theap_check, nine, nine_checks};

use crate::Indexed;
use crate::record::KeywordRecord;
use keyword::{INDEX_LIMIT, Keyword};
use layout::{NAXIS1_LIMIT, NAXIS2_LIMIT, PCOUNT_LIMIT, TFIELDS_LIMIT};
use refusal::Refusal;

impl KeywordRecord<'_> {
    // A name that must be there, by 4, 5 and 6.
    #[tactic(auto, unfolding(crate::specs::Checks::first_refusal))]
    fn check_required(&self, kind: bool, right: bool) -> Result<(), Refusal>
        ensures { outcome_of result
            ≡ first_refusal (check4 0 self.now.number ∷ check5 kind self.now.number ∷ check6 right self.now.number ∷ []) }
    {
        self.check4(0)?;
        self.check5(kind)?;
        self.check6(right)
    }

    #[tactic(auto, unfolding(crate::specs::Entry::required, ascii::specs::Text::bytes))]
    fn check_xtension(&self) -> Result<(), Refusal>
        ensures { outcome_of result ≡ required self.now.header.now self.now.number is_string
            (λ (v : Option Value). same (text_in self.now.header.now v) (bytes "BINTABLE")) }
    {
        let right = ascii::same_bytes(self.text(), b"BINTABLE");
        self.check_required(self.is_string(), right)
    }

    // A name that has one value only.
    #[tactic(auto, unfolding(crate::specs::Entry::required))]
    fn check_fixed(&self, n: u64) -> Result<(), Refusal>
        ensures { outcome_of result ≡ required self.now.header.now self.now.number is_integer (within n n) }
    {
        self.check_required(self.is_integer(), self.is_within(n, n))
    }

    // A size and its limit.
    #[tactic(auto, unfolding(crate::specs::Checks::first_refusal, crate::specs::Entry::limited))]
    fn check_size(&self, limit: u64) -> Result<(), Refusal>
        ensures { outcome_of result ≡ limited self.now.header.now self.now.number is_integer not_negative limit }
    {
        self.check_required(self.is_integer(), self.not_negative())?;
        self.check7(limit)
    }

    #[tactic(auto, unfolding(crate::specs::Checks::first_refusal, crate::specs::Entry::limited))]
    fn check_tfields(&self) -> Result<(), Refusal>
        ensures { outcome_of result
            ≡ limited self.now.header.now self.now.number is_integer (within 0 index_limit) tfields_limit }
    {
        self.check_required(self.is_integer(), self.is_within(0, INDEX_LIMIT as u64))?;
        self.check7(TFIELDS_LIMIT as u64)
    }

    #[tactic(auto, unfolding(crate::specs::Checks::first_refusal, crate::specs::Entry::theap_check))]
    fn check_theap(&self, main: u64, pcount: u64) -> Result<(), Refusal>
        requires { main + pcount < 2 ^ 64 }
        ensures { outcome_of result ≡ theap_check self.now.header.now self.now.number main pcount }
    {
        self.check5(self.is_integer())?;
        self.check6(self.is_within(main, main + pcount))
    }
}

impl Indexed<'_> {
    // XTENSION, BITPIX and NAXIS.
    #[tactic(auto, unfolding(crate::specs::Checks::first_refusal, crate::specs::Entry::nine))]
    fn check_kind(&self) -> Result<(), Refusal>
        ensures { outcome_of result ≡ first_refusal (take 3 (nine self.now.header.now)) }
    {
        self.find(Keyword::Xtension).check_xtension()?;
        self.find(Keyword::Bitpix).check_fixed(8)?;
        self.find(Keyword::Naxis).check_fixed(2)
    }

    // NAXIS1, NAXIS2 and PCOUNT.
    #[tactic(auto, unfolding(crate::specs::Checks::first_refusal, crate::specs::Entry::nine))]
    fn check_sizes(&self) -> Result<(), Refusal>
        ensures { outcome_of result ≡ first_refusal (take 3 (drop 3 (nine self.now.header.now))) }
    {
        self.find(Keyword::Naxis1).check_size(NAXIS1_LIMIT)?;
        self.find(Keyword::Naxis2).check_size(NAXIS2_LIMIT)?;
        self.find(Keyword::Pcount).check_size(PCOUNT_LIMIT)
    }

    // GCOUNT, TFIELDS and THEAP, whose range needs sizes within their limits.
    #[tactic(auto, unfolding(crate::specs::Checks::first_refusal, crate::specs::Entry::nine))]
    fn check_rest(&self) -> Result<(), Refusal>
        requires { first_refusal (take 3 (drop 3 (nine self.now.header.now))) ≡ accepted }
        ensures { outcome_of result ≡ first_refusal (drop 6 (nine self.now.header.now)) }
    {
        let naxis1 = self.size(Keyword::Naxis1);
        let naxis2 = self.size(Keyword::Naxis2);
        let pcount = self.size(Keyword::Pcount);
        self.find(Keyword::Gcount).check_fixed(1)?;
        self.find(Keyword::Tfields).check_tfields()?;
        self.find(Keyword::Theap)
            .check_theap(naxis1 * naxis2, pcount)
    }

    #[tactic(auto, using(crate::proofs::Nine::nine_parts))]
    pub fn check_nine(&self) -> Result<(), Refusal>
        ensures { outcome_of result ≡ nine_checks self.now.header.now }
    {
        self.check_kind()?;
        self.check_sizes()?;
        self.check_rest()
    }
}
