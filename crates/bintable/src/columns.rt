// The columns of a header, and the layout.
ghost use Rattle.std.specs.Prelude.{◌≡◌, cond, ◌++◌, ℕ, ◌+◌, ◌-◌, ◌≤◌, ◌<◌, ◌^◌, eqb, leb, length, replicate, IfOk};
ghost use Rattle.card.specs.declared.Value.TheVariants.{String};
ghost use Rattle.keyword.specs.Names.{column_slots};
ghost use Rattle.refusal.specs.Refusal.{accepted, refused, before, outcome_of};
ghost use Rattle.header.specs.Checks.{checked};
ghost use Rattle.layout.specs.Layout.{tfields_limit, no_column, row_bytes};
ghost use Rattle.tform.specs.declared.TForm.{TForm};
ghost use Rattle.bintable.specs.Checks.{size_for, check8};
ghost use Rattle.layout.specs.declared.BinTable.{BinTable};
ghost use Rattle.layout.specs.declared.Column.{Column};
ghost use Rattle.bintable.specs.Entry.{column_check, column_checks, name_in, theap_in, column_at};
ghost use Rattle.bintable.specs.Entry.{columns_from, nine_checks, layout_of, check9, entry_of, entry};

use crate::Indexed;
use crate::record::KeywordRecord;
use card::Value;
use keyword::{Keyword, Root};
use layout::{BinTable, Column, NO_COLUMN, Name, TFIELDS_LIMIT};
use refusal::Refusal;
use tform::TForm;

// The columns up to TFIELDS, in the array of a layout, and the bytes that they take in a row.
#[derive(Clone, Copy)]
struct Columns {
    columns: [Column; TFIELDS_LIMIT],
    bytes: u64,
}

// The stretch that a value is, which fits 32 bits as every one of a header does.
fn name_in(value: Option<Value>) -> Option<Name>
    requires { (a n : ℕ) → value ≡ Some (String a n) → (a < 2 ^ 32) × (n < 2 ^ 32) }
    ensures { result ≡ name_in value }
{
    let Some(Value::String { start, len }) = value else {
        return None;
    };
    Some(Name {
        start: start as u32,
        len: len as u32,
    })
}

impl KeywordRecord<'_> {
    // Where the heap starts: at the main size, if THEAP is missing.
    fn heap_start(&self, main: u64) -> u64
        ensures { result ≡ theap_in main self.now.value self.now.number }
    {
        match self.number() {
            Some(_) => self.size(),
            None => main,
        }
    }
}

// The form that passes check 8.
fn check8(n: usize, form: Option<TForm>) -> Result<TForm, Refusal>
    ensures check { outcome_of result ≡ check8 n form }
    ensures form { IfOk result (λ (f : TForm). form ≡ Some f) }
{
    form.ok_or(Refusal::BadForm { n })
}

fn check9(bytes: u64, naxis1: u64) -> Result<(), Refusal>
    ensures { outcome_of result ≡ cond (eqb bytes naxis1) accepted (refused 9 0) }
{
    if bytes == naxis1 {
        return Ok(());
    }
    Err(Refusal::RowSizeMismatch)
}

fn check10(size: u64, len: usize) -> Result<(), Refusal>
    ensures { outcome_of result ≡ cond (leb size len) accepted (refused 10 0) }
{
    if size <= len as u64 {
        return Ok(());
    }
    Err(Refusal::Mismatch)
}

impl<'a> Indexed<'a> {
    // Column i, from 0, which starts at byte `start` of a row.
    #[tactic(auto, unfolding(crate::specs::Checks::first_refusal, crate::specs::Entry::column_check))]
    fn read_column(&self, i: usize, start: u64) -> Result<Column, Refusal>
        requires { (length self.now.header.now < 2 ^ 32) × (i < column_slots) }
        ensures check { outcome_of result ≡ column_check self.now.header.now (i + 1) }
        ensures column { IfOk result (λ (c : Column). c ≡ column_at self.now.header.now (i + 1) start) }
    {
        let form = self.column_record(Root::Tform, i);
        let name = self.column_record(Root::Ttype, i);
        form.check4(i + 1)?;
        form.check5(form.is_string())?;
        let tform = check8(i + 1, tform::parse_tform(form.text()))?;
        name.check5(name.is_string())?;
        let scaling = self.read_scaling(i, tform.form)?;
        let null = self.read_null(i, tform.form)?;
        Ok(Column {
            form: tform.form,
            count: tform.count,
            start,
            name: name_in(name.value()),
            scaling_given: self.scaling_given(i),
            scaling,
            null,
        })
    }

    // The first refusal of a column ends the reading. Check 7 has kept `tfields` within its limit.
    fn read_columns(&self, tfields: usize) -> Result<Columns, Refusal>
        requires { (length self.now.header.now < 2 ^ 32) × (tfields ≤ tfields_limit) }
        ensures check { outcome_of result ≡ column_checks self.now.header.now tfields }
        ensures columns { IfOk result (λ (r : Columns). (r.columns ≡ columns_from self.now.header.now 0 1 tfields
            ++ replicate (tfields_limit - tfields) no_column)
            × (r.bytes ≡ row_bytes (columns_from self.now.header.now 0 1 tfields))) }
    {
        let mut columns = [NO_COLUMN; TFIELDS_LIMIT];
        let mut bytes: u64 = 0;
        for i in 0..tfields {
            let column = self.read_column(i, bytes)?;
            columns[i] = column;
            let form = column.form;
            bytes += tform::num_bytes_field(form, column.count);
        }
        Ok(Columns { columns, bytes })
    }

    // The layout of a header whose nine names pass their checks, if its columns do too.
    fn read_layout(&self) -> Result<BinTable, Refusal>
        requires { (checked self.now.header.now ≡ accepted) × (nine_checks self.now.header.now ≡ accepted) }
        ensures check { outcome_of result
            ≡ before (column_checks self.now.header.now (size_for self.now.header.now "TFIELDS"))
            (check9 (layout_of self.now.header.now)) }
        ensures layout { IfOk result (λ (l : BinTable). l ≡ layout_of self.now.header.now) }
    {
        let naxis1 = self.size(Keyword::Naxis1);
        let naxis2 = self.size(Keyword::Naxis2);
        let pcount = self.size(Keyword::Pcount);
        let tfields = self.size(Keyword::Tfields) as usize;
        let theap = self.find(Keyword::Theap).heap_start(naxis1 * naxis2);
        let read = self.read_columns(tfields)?;
        let columns = read.columns;
        check9(read.bytes, naxis1)?;
        Ok(BinTable {
            naxis1,
            naxis2,
            pcount,
            theap,
            tfields,
            columns,
        })
    }

    // What `parse` answers on a header whose nine names pass their checks.
    pub fn parse_table(&self, area: &[u8]) -> Result<BinTable, Refusal>
        requires { (checked self.now.header.now ≡ accepted) × (nine_checks self.now.header.now ≡ accepted) }
        ensures { entry_of result ≡ entry self.now.header.now area.now }
    {
        let layout = self.read_layout()?;
        check10(layout.naxis1 * layout.naxis2 + layout.pcount, area.len())?;
        Ok(layout)
    }
}
