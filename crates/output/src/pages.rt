// As many whole lines as the buffer has room for.
ghost use Rattle.std.specs.Prelude.{◌≡◌, ◌+◌, length};
ghost use Rattle.ascii.specs.Buffer.{put_in};
ghost use Rattle.output.specs.Next.{left_in};
ghost use Rattle.output.specs.Page.{page_text, page_rest, Whole};

use crate::{Next, Page, Parts, State};

impl Parts<'_> {
    pub fn fill_page(&self, state: State, out: &mut [u8]) -> Page
        ensures len { result.len ≡ length (page_text (length out.old) (left_in self.now state)) }
        ensures buffer { out.new ≡ put_in out.old 0 (page_text (length out.old) (left_in self.now state)) }
        ensures state { left_in self.now result.state ≡ page_rest (length out.old) (left_in self.now state) }
        ensures whole { Whole (length self.now.header.now + 128) (length out.old) result.len (left_in self.now state) }
    {
        let mut len: usize = 0;
        let mut current = state;
        loop {
            let next = self.next_line(current);
            let Some(Next { line, state: after }) = next else {
                return Page {
                    len,
                    state: current,
                };
            };
            let written = listing::put_line_of(out, len, self.header, self.layout, line);
            let Some(end) = written else {
                return Page {
                    len,
                    state: current,
                };
            };
            len = end;
            current = after;
        }
    }
}
