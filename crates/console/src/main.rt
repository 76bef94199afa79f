// The console: lines of commands on standard input, answers on standard output.
#![tactic(auto)]

mod blocks;
mod dispatch;
mod errors;
mod help;
mod lines;

use std::io;

fn main(rt: HostRuntime) -> io::Result<()> {
    blocks::run(&mut rt.stdin(), &mut rt.stdout())
}
