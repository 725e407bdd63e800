// Prints the answers to the steps of the file steps.txt on the table of the file table.fits (docs/FORMAT.md,
// section 17).
#![tactic(auto)]

ghost use Rattle.std.specs.Prelude.{◌≤◌, length};

use output::{Source, Start};

// The steps are read only if the table is accepted.
fn read_steps<'a>(rt: &HostRuntime, file: &[u8], buffer: &'a mut [u8]) -> &'a [u8]
    ensures { length result.now ≤ length buffer.old }
{
    if bintable::parse_file(file).is_err() {
        return &[];
    }
    console::read_file(rt, b"steps.txt", buffer)
}

fn main(rt: HostRuntime) {
    let mut buffer = console::file_buffer();
    let file = console::read_file(&rt, b"table.fits", &mut buffer);
    let mut text = console::file_buffer();
    let steps = read_steps(&rt, file, &mut text);
    let Start { layout, state } = output::replay_start(file, steps);
    let source = Source {
        file,
        layout,
        steps,
    };
    console::print_pages(&rt, &source, state);
}
