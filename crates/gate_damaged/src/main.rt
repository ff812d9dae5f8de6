// Gives damaged payloads to the receive call: every prefix of two payloads, and these with each value of each byte. It prints a line
// for each: the payload's length, or the place and the byte there; then the number of the refusal, or the bytes handed out, in
// brackets, the new state, how many length fields and how many size fields are padded, and whether an open fragment and an element were
// thrown away; and last the whole store, in brackets. Bytes are in hexadecimal.
#![tactic(auto)]

mod payloads;

use std::io;

fn main(rt: HostRuntime) -> io::Result<()> {
    payloads::print_answers(&rt, &payloads::CONTINUED)?;
    payloads::print_answers(&rt, &payloads::WHOLE)
}
