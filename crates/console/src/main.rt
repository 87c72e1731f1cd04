// The console: plays a script from standard input, one command to a line, and prints what took place.
#![tactic(auto)]

mod command;
mod digits;
mod fault;
mod reading;
mod setup;
mod words;

use command::{Command, parse};
use fault::{LineFault, Refusal};
use reading::read;
use setup::Setup;
use std::alloc::AllocError;
use std::io;
use std::io::{BufRead, BufReader};

// Says that the register refuses what a command asks.
fn refuse(rt: &HostRuntime, command: &str, refusal: Refusal) -> io::Result<()> {
    let number = refusal.number();
    println!(rt; "{command}: refused {number}")
}

// Plays a command.
fn play(rt: &HostRuntime, setup: &mut Setup, command: Command) -> io::Result<()> {
    match command {
        Command::Own(octets) => match setup.own(octets.as_slice()) {
            Ok(own) => println!(rt; "own: {own}"),
            Err(fault) => refuse(rt, "own", fault.into()),
        },
        Command::Roam(digits, class) => match setup.roaming.roam(digits.as_slice(), class) {
            Ok(()) => println!(rt; "roam: done"),
            Err(fault) => refuse(rt, "roam", fault.into()),
        },
        Command::Roams(node, bar) => match setup.roams(node.as_slice(), bar) {
            Ok(Ok(())) => println!(rt; "roams: allowed"),
            Ok(Err(cause)) => {
                let cause = u8::from(cause);
                println!(rt; "roams: cause {cause}")
            }
            Err(refusal) => refuse(rt, "roams", refusal),
        },
        Command::Rows(rows) => {
            setup.rows = rows;
            println!(rt; "store: rows {rows}")
        }
        Command::Read(octets) => {
            let reading = read(octets.as_slice());
            println!(rt; "{reading}")
        }
    }
}

// Plays one line, the one with this number.
fn play_line(rt: &HostRuntime, setup: &mut Setup, number: u64, line: &[u8]) -> io::Result<()> {
    match parse(rt.alloc(), line) {
        Ok(Some(command)) => play(rt, setup, command),
        Ok(None) => Ok(()),
        Err(LineFault::NotUnderstood) => println!(rt; "line {number}: not understood"),
        Err(LineFault::OutOfMemory) => Err(AllocError.into()),
    }
}

// One line is read after another into the same memory: lines of their own would ask for more, and a long one might not be had.
fn main(rt: HostRuntime) -> io::Result<()> {
    let mut input = BufReader::new(rt.alloc(), rt.stdin())?;
    let mut line = Vec::new(rt.alloc());
    let mut setup = Setup::new();
    for number in 1..u64::MAX {
        line.clear();
        if input.read_until(b'\n', &mut line)? == 0 {
            break;
        }
        play_line(&rt, &mut setup, number, line.as_slice())?;
    }
    Ok(())
}
