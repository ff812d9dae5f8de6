// Reads a train from standard input and writes the OBUs that one fresh receiver hands out (G1, G5 to G7, G14).
#![tactic(auto)]

fn main(rt: HostRuntime) {
    running::unpack::run(&mut running::standard(&rt));
}
