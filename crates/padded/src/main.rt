// Reads what `pack` reads from standard input, and prints a line for each unit: its place, and its padded size fields (G1, G14, G17).
#![tactic(auto)]

fn main(rt: HostRuntime) {
    running::padded::run(&mut running::standard(&rt));
}
