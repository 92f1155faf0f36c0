// The program of crates/jellyalloy once more, which the gate runs here on jobs of cuts.
#![tactic(auto)]

use anyhow::anyhow;
use report::program::answer_job;
use std::io;

// (Once in each program: of what a main reads and prints no contract can tell, and a public function that
// both call would promise nothing.)
fn main(rt: HostRuntime) -> anyhow::Result<()> {
    if let Err(failure) = answer_job(rt.alloc(), &mut rt.stdin(), &mut io::writer(&rt))? {
        eprintln!(rt; "{failure}")?;
        return Err(anyhow!("the job was not carried out"));
    }
    Ok(())
}
