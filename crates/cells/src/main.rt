// Prints the table of the file table.fits: its columns and every cell (docs/FORMAT.md, section 16).
#![tactic(auto)]

fn main(rt: HostRuntime) {
    console::print_cells(&rt);
}
