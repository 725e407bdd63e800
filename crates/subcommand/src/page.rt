// A refusal of a page in words.
ghost use Rattle.std.specs.Prelude.{◌≡◌, [], ◌∷◌, map};
ghost use Rattle.std.specs.List.{concat};
ghost use Rattle.subcommand.specs.Message.{is_column, is_e, no_page_text, page_words_with};

use layout::{BinTable, NO_COLUMN};
use refusal::Refusal;
use words::PIECES;

// Whether a column that was sought is one of the table's.
fn is_column(layout: &BinTable, column: Option<usize>) -> bool
    ensures { result ≡ is_column layout.now column }
{
    column.is_some_and(|c| c < layout.tfields)
}

// Whether its form's letter is E.
fn is_e(layout: &BinTable, column: Option<usize>) -> bool
    ensures { result ≡ is_e layout.now column }
{
    column.is_some_and(|c| tform::form_letter(layout.columns.get(c).unwrap_or(&NO_COLUMN).form)
        == b'E')
}

// Why there is no page in an edition of a column that was sought.
#[tactic(auto, unfolding(crate::specs::Message::no_page_text))]
fn no_page<'a>(layout: &BinTable, column: Option<usize>, edition: u64) -> &'a [u8]
    ensures { result.now ≡ no_page_text layout.now column edition }
{
    if edition != 1 && edition != 2 {
        return b"there is no edition but 1 and 2";
    }
    if !is_column(layout, column) {
        return b"the table has no such column";
    }
    if is_e(layout, column) {
        return b"the column has TSCALn or TZEROn, and such a column has no page";
    }
    b"the column is not of form E (PE is another form)"
}

// Words of up to three pieces.
fn three<'a>(a: &'a [u8], b: &'a [u8], c: &'a [u8]) -> [&'a [u8]; PIECES]
    ensures { concat (map (λ p. p.now) result) ≡ concat (a.now ∷ b.now ∷ c.now ∷ []) }
{
    [a, b, c, b"", b"", b"", b""]
}

// A refusal of a page in words, as the pieces that make them. `place` is its place as text.
pub fn words<'a>(
    refusal: Refusal,
    file: &'a [u8],
    layout: &BinTable,
    column: Option<usize>,
    edition: u64,
    place: &'a [u8],
) -> [&'a [u8]; PIECES]
    ensures { concat (map (λ p. p.now) result)
        ≡ page_words_with place.now layout.now file.now column edition refusal }
{
    match refusal {
        Refusal::Unsuitable => three(no_page(layout, column, edition), b"", b""),
        Refusal::ShortList { needed: _ } => three(
            b"the page takes ",
            place,
            b" bytes, 27 a line, and there is room for 155,344 lines",
        ),
        _ => words::words(refusal, file, place),
    }
}
