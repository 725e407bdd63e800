// Whether a text is what `replay` prints of a table and a file of steps: the text beside the lines, page by page.
ghost use Rattle.std.specs.Prelude.{◌≡◌, ◌+◌, ◌≤◌, length, is_some, IfSome};
ghost use Rattle.ascii.specs.Text.{same};
ghost use Rattle.output.specs.Cells.{file_limit};
ghost use Rattle.output.specs.State.{left_of};
ghost use Rattle.output.specs.Page.{page_room, lines_text};
ghost use Rattle.output.specs.declared.Page.{Page};
ghost use Rattle.cases.specs.Text.{replay_text, begins_page, IsPage};

use output::{PAGE_ROOM, Page, Source, Start, State};

// The buffer of a page. Its contents do not matter, and the proof of a caller is shorter without them.
fn zeros() -> [u8; PAGE_ROOM]
    ensures { page_room ≡ length result }
{
    [0; PAGE_ROOM]
}

// The next page, if the text begins with it.
#[tactic(auto, using(crate::proofs::Beside::page_fits, crate::proofs::Beside::page_taken, crate::proofs::Beside::page_front, crate::proofs::Beside::told))]
fn compare_page(source: &Source, state: State, text: &[u8]) -> Option<Page>
    ensures begins { is_some result ≡ begins_page text.now (left_of source.now state) }
    ensures page { IfSome result (λ (p : Page).
        IsPage (length source.now.file.now + 128) (left_of source.now state) (left_of source.now p.state) p.len) }
{
    let mut out = zeros();
    let page = source.next_page(state, &mut out);
    ascii::begins_with(text, &out[..page.len]).then_some(page)
}

// Whether a text is what is left to print: page after page stands in it, and after the last one nothing is left of it.
#[tactic(auto, using(crate::proofs::Beside::page_differs))]
fn same_pages(source: &Source, state: State, text: &[u8]) -> bool
    requires { length source.now.file.now ≤ file_limit }
    ensures { result ≡ same text.now (lines_text (left_of source.now state)) }
{
    let mut rest = text;
    let mut current = state;
    loop {
        let Some(page) = compare_page(source, current, rest) else {
            return false;
        };
        // No Option: the page after the last has no text, and `page_text` says so.
        if page.len == 0 {
            return rest.is_empty();
        }
        rest = &rest[page.len..];
        current = page.state;
    }
}

// Of both files the bytes are taken that `replay` looks at.
pub fn same_text(file: &[u8], steps: &[u8], expected: &[u8]) -> bool
    ensures { result ≡ same expected.now (replay_text file.now steps.now) }
{
    let table = output::first_bytes(file);
    let Start { layout, state } = output::replay_start(table, steps);
    let source = Source {
        file: table,
        layout,
        steps: output::first_bytes(steps),
    };
    same_pages(&source, state, expected)
}
