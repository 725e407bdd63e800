// The program `cells` once more, for the gate: its data/ has the request's example.
#![tactic(auto)]

fn main(rt: HostRuntime) {
    console::print_cells(&rt);
}
