// Runs the loops of the programs on files (G2 to G11, G14, G15, G17): the very functions that the programs call. A case is three arguments:
// the program, how it is run, and the file that it reads. A line names the case; then come, as the program makes them, the bytes that it
// writes and the lines that it says. `out`: both stand in one stream. `nowhere`: every write of bytes fails, since they go to a file that is
// open for reading alone. `prefixes`: it is run on every beginning of the file, the empty one first; a line with how many bytes that is
// stands before, and an empty line after each run. From a folder every read fails.
#![tactic(auto)]

use running::Streams;
use std::fs::File;
use std::io::{Read, Write};
use std::rt::Files;
use std::{env, fs, io};

// The file that each beginning of another is put into.
const PART: &str = "part";

// The program of a case. What it says goes to standard output.
fn run_on<P: Print, R: Read, W: Write>(rt: &P, program: &str, from: &mut R, to: &mut W) {
    let mut streams = Streams {
        from: from,
        to: to,
        errors: io::writer(rt),
    };
    match program {
        "unpack" => running::unpack::run(&mut streams),
        "pack" => running::pack::run(&mut streams),
        "padded" => running::padded::run(&mut streams),
        _ => running::planlist::run(&mut streams),
    }
}

// A run on these bytes, which are made a file of their own.
fn run_part<R: Files + Print>(rt: &R, program: &str, bytes: &[u8]) -> io::Result<()> {
    fs::write(rt, PART, bytes)?;
    println!(rt; "{}", bytes.len())?;
    run_on(rt, program, &mut File::open(rt, PART)?, &mut io::writer(rt));
    println!(rt; "")?;
    fs::remove_file(rt, PART)
}

// A run on each beginning of these bytes.
fn run_parts<R: Files + Print>(rt: &R, program: &str, bytes: &[u8]) -> io::Result<()> {
    for n in 0..bytes.len() {
        run_part(rt, program, &bytes[..n])?;
    }
    run_part(rt, program, bytes)
}

// A run on each beginning of a file.
fn run_prefixes<R: Files + Print + Alloc>(rt: &R, program: &str, file: &str) -> io::Result<()> {
    run_parts(rt, program, &fs::read(rt, file)?)
}

// The case of these words.
fn run<R: Files + Print + Alloc>(rt: &R, program: &str, how: &str, file: &str) -> io::Result<()> {
    println!(rt; "{program} {how} {file}")?;
    match how {
        "prefixes" => run_prefixes(rt, program, file)?,
        "nowhere" => run_on(
            rt,
            program,
            &mut File::open(rt, file)?,
            &mut File::open(rt, file)?,
        ),
        _ => run_on(rt, program, &mut File::open(rt, file)?, &mut io::writer(rt)),
    }
    Ok(())
}

fn main(rt: HostRuntime) -> io::Result<()> {
    let words: Vec<String> = env::args(&rt)?.skip(1).collect(rt.alloc())?;
    for case in words.chunks(3) {
        if let [program, how, file] = case {
            run(&rt, program, how, file)?;
        }
    }
    Ok(())
}
