// What the programs ask of the system: a file read into a buffer, a text written to standard output, and the lines of
// `output` printed page by page.
#![tactic(auto)]

mod pages;

ghost use Rattle.std.specs.Prelude.{ℕ, ◌≡◌, ◌≤◌, List, [], length, take, IfOk, IfSome};
ghost use Rattle.output.specs.Cells.{file_limit};
ghost use Rattle.output.specs.State.{file_left, all_printed};

use output::{FILE_LIMIT, Source, Start, State};
use std::fs::File;
use std::io;
use std::io::{Read, Write};

// A buffer for the bytes of a file that are looked at. A program needs no heap for them, however long the file is.
pub fn file_buffer() -> [u8; FILE_LIMIT]
    ensures { file_limit ≡ length result }
{
    [0; FILE_LIMIT]
}

// Reads until the buffer is full, when a read gives no byte, or the file ends. A read that a signal broke off is done
// again. How many bytes were read: the library's calls that read to the end fill a Vec, and `read_exact` does not say
// how far it came.
fn fill(file: &mut File, buffer: &mut [u8]) -> io::Result<usize>
    ensures { IfOk result (λ n. n ≤ length buffer.new) }
{
    let mut n: usize = 0;
    for _ in 0..u64::MAX {
        match file.read(&mut buffer[n..]) {
            Ok(0) => break,
            Ok(read) => n += read,
            Err(error) if error.kind() == io::ErrorKind::Interrupted => {}
            Err(error) => return Err(error),
        }
    }
    Ok(n)
}

// The first bytes of a file, as many as the buffer takes: the part of it that they fill. None where the file is missing
// or cannot be read, as one whose name is not UTF-8, since the standard library opens none.
pub fn load<'a>(rt: &HostRuntime, name: &[u8], buffer: &'a mut [u8]) -> Option<&'a [u8]>
    ensures { IfSome result (λ s. length s.now ≤ length buffer.old) }
{
    let path = std::str::from_utf8(name).ok()?;
    let mut file = File::open(rt, path).ok()?;
    let n = fill(&mut file, buffer).ok()?;
    Some(&buffer[..n])
}

// The same, where a file that cannot be read counts as an empty one.
pub fn read_file<'a>(rt: &HostRuntime, name: &[u8], buffer: &'a mut [u8]) -> &'a [u8]
    ensures { length result.now ≤ length buffer.old }
{
    load(rt, name, buffer).unwrap_or(&[])
}

// Writes the first `len` bytes of a text to standard output, all of it where it has fewer. The length goes apart, so
// that no caller has to prove that it lies within the text.
pub fn write_text(rt: &HostRuntime, text: &[u8], len: usize) -> io::Result<()> {
    io::writer(rt).write_all(text.get(..len).unwrap_or(text))
}

// Prints what is left to print of the first bytes of a file and of its steps, one page after the other. In the state
// that it returns nothing is left.
pub fn print_pages(rt: &HostRuntime, source: &Source, state: State) -> State
    ensures { let s = source.now in
        file_left (take file_limit s.file.now) s.layout (take file_limit s.steps.now) result ≡ [] }
{
    let first = Source {
        file: output::first_bytes(source.file),
        layout: source.layout,
        steps: output::first_bytes(source.steps),
    };
    pages::print_rest(rt, &first, state)
}

// What the program `cells` does: prints the table of the file table.fits, its columns and every cell (docs/FORMAT.md,
// section 16). In the state that it returns nothing is left of what is printed of the bytes that were read.
pub fn print_cells(rt: &HostRuntime) -> State
    ensures { (file : List ℕ) × (length file ≤ file_limit) × all_printed file result }
{
    let mut buffer = file_buffer();
    let file = read_file(rt, b"table.fits", &mut buffer);
    let Start { layout, state } = output::cells_start(file);
    let source = Source {
        file,
        layout,
        steps: b"",
    };
    print_pages(rt, &source, state)
}
