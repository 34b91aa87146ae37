//! Runs a script from standard input and prints its listing.
#![tactic(auto)]

use anyhow::anyhow;
use session::runs::run_script;
use std::env;
use std::io::Read;
use std::process::ExitCode;
use text::reading::LONGEST;

const HELP: &str = "\
Usage: tukpasi < SCRIPT

Runs a script on a new book and prints its listing. A script has one key=value
to a line, for each call its name and then its keys in their order:

    call=list
    sec=7

An accepted call prints ok= and its name, a refused one refused= and the number
of the refusal. A fault of the script ends the listing with fault= and line=.
The status is 0 in all these cases, and 1 if reading, writing or memory fails.
";

/// One byte more than the longest script has: enough to see that a script is too long.
const ENOUGH: u64 = LONGEST as u64 + 1;

/// Whether help is asked for. Any other word is refused.
fn help_asked(rt: &HostRuntime) -> anyhow::Result<bool> {
    let mut words = env::args(rt)?;
    let _program = words.next();
    match words.next() {
        None => Ok(false),
        Some(word) if word.as_str() == "--help" => Ok(true),
        Some(_) => Err(anyhow!(
            "no argument is taken but --help: the script comes from standard input"
        )),
    }
}

fn run(rt: &HostRuntime) -> anyhow::Result<()> {
    if help_asked(rt)? {
        rt.print(HELP)?;
        return Ok(());
    }
    let mut script = Vec::new(rt.alloc());
    rt.stdin().take(ENOUGH).read_to_end(&mut script)?;
    let transcript = run_script(rt.alloc(), script.as_slice())?;
    rt.print(transcript.listing.as_str())?;
    Ok(())
}

fn main(rt: HostRuntime) -> ExitCode {
    match run(&rt) {
        Ok(()) => ExitCode::SUCCESS,
        Err(e) => {
            let _ = eprintln!(rt; "tukpasi: {e}");
            ExitCode::FAILURE
        }
    }
}
