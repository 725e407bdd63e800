// Runs the fixed list of cases in the file vectors.bin and prints how many there are, how many differ and which is the
// first that does. How the list was made stands in README.md.
#![tactic(auto)]

use std::{fs, io};

fn main(rt: HostRuntime) -> io::Result<()> {
    let list = fs::read(&rt, "vectors.bin")?;
    // The library has no heap: it writes the line at the front of a buffer that it is lent, and says how long it is.
    let mut out = [0u8; 256];
    if let Some(len) = cases::report_cases(list.as_slice(), &mut out) {
        let _ = console::write_text(&rt, &out, len);
    }
    Ok(())
}
