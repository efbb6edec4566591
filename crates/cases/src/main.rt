// Many cases in one run, for tests: standard input has each as the byte that names its call and what that call takes.
// Each call's module says what it takes and what is printed of it. tools/pack writes the input and what is expected.
#![tactic(auto)]

mod check;
mod input;
mod listing;
mod placement;
mod printing;
mod running;

use input::next_byte;
use std::io::Read;

// Whether there was one more case of one of these calls; it is answered. Past the end of the input the byte is 0.
fn one_case(rt: &impl Print, input: &mut impl Read) -> bool {
    let call = next_byte(input);
    match call {
        1 => check::answer_case(rt, input),
        2 => placement::answer_case(rt, input),
        3 => listing::answer_case(rt, input),
        4 => running::answer_case(rt, input),
        5 => listing::answer_ordered_case(rt, input),
        _ => return false,
    }
    true
}

// Stays: (d) a proved loop has to end, so it counts down from a number that no run uses up, and ends sooner as a rule.
fn main(rt: HostRuntime) {
    let mut input = rt.stdin();
    let mut turns = u64::MAX;
    while turns > 0 && one_case(&rt, &mut input) {
        turns -= 1;
    }
}
