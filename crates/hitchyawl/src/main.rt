// The bench's commands for a person at a shell: the words say what is done to which file, and the status how it ended.
#![tactic(auto)]

mod carry;
mod sizes;
mod work;

use files::Stop;
use std::process::ExitCode;
use words::Asked;
use words::help::Help;

// Does what is asked, unless help is asked for or a word is wrong.
fn answer(rt: &HostRuntime) -> Result<(), Stop> {
    match words::read(rt) {
        Ok(Asked::Work(request)) => work::run(rt, &request),
        Ok(Asked::Help(command)) => files::printed(rt, rt.print(Help(command))),
        Err(wrong) => {
            wrong.tell(rt);
            Err(Stop::WrongWords)
        }
    }
}

fn main(rt: HostRuntime) -> ExitCode {
    match answer(&rt) {
        Ok(()) => ExitCode::SUCCESS,
        Err(stop) => ExitCode::from(stop),
    }
}
