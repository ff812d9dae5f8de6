// planlist: reads a head and a unit from standard input, and prints the unit's plan (G8 to G14).
#![tactic(auto)]

fn main(rt: HostRuntime) {
    running::planlist::run(&mut running::standard(&rt));
}
