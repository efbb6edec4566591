// `plancheck < FILE`: reads one plan file from standard input into a cleared buffer and prints the outcome.
#![tactic(auto)]

use answer::{print_answer, print_refusal, read_full};
use std::env::FillError;
use std::io::Read;
use std::rt::Env;
use types::{PlanFile, Reason, Refusal};

fn main(rt: HostRuntime) {
    if has_argument(&rt) {
        let _ = eprintln!(&rt;
            "plancheck reads standard input and takes no argument: plancheck < FILE"
        );
        return;
    }
    let mut input = rt.stdin();
    let mut buffer = [0u8; PlanFile::MOST];
    let n = read_full(&mut input, &mut buffer);
    if n == PlanFile::MOST && more_input(&mut input) {
        print_refusal(&rt, Refusal::outside(Reason::FileTooLong));
        return;
    }
    print_answer(&rt, &buffer[..n]);
}

// Argument 0 is the program's own name. One that doesn't fit the buffer is there too.
fn has_argument(rt: &impl Env) -> bool {
    let mut text = [0u8; 1];
    !matches!(rt.arg(1, &mut text), Err(FillError::NotPresent))
}

// One byte past a full buffer tells a longer input from one that just fits.
fn more_input(input: &mut impl Read) -> bool {
    let mut more = [0u8; 1];
    0 < read_full(input, &mut more)
}
