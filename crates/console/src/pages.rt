// One page after the other, of a file that is no longer than the programs look at: each of its lines has room in a
// page.
ghost use Rattle.std.specs.Prelude.{◌≡◌, [], ◌+◌, ◌≤◌, length};
ghost use Rattle.output.specs.Cells.{file_limit};
ghost use Rattle.output.specs.State.{left_of};
ghost use Rattle.output.specs.Page.{page_room, page_text, page_rest, Whole};

use output::{PAGE_ROOM, Page, Source, State};

// Prints the next page.
fn print_page(rt: &HostRuntime, source: &Source, state: State) -> Page
    ensures len { result.len ≡ length (page_text page_room (left_of source.now state)) }
    ensures state { left_of source.now result.state ≡ page_rest page_room (left_of source.now state) }
    ensures whole { Whole (length source.now.file.now + 128) page_room result.len (left_of source.now state) }
{
    let mut out = [0u8; PAGE_ROOM];
    let page = source.next_page(state, &mut out);
    let _ = super::write_text(rt, &out, page.len);
    page
}

// Prints one page after the other, until nothing is left. An empty page is the last, as `next_page` says.
#[tactic(auto, using(output::proofs::Whole::rest_none))]
pub fn print_rest(rt: &HostRuntime, source: &Source, state: State) -> State
    requires { length source.now.file.now ≤ file_limit }
    ensures { left_of source.now result ≡ [] }
{
    let mut current = state;
    loop {
        let page = print_page(rt, source, current);
        if page.len == 0 {
            return page.state;
        }
        current = page.state;
    }
}
