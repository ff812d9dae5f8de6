// Reads mtu, first number and units from standard input, and writes the train of their packets (G1 to G4, G6, G7, G12, G14).
#![tactic(auto)]

fn main(rt: HostRuntime) {
    running::pack::run(&mut running::standard(&rt));
}
