// Call 4, the run: a plan file, and the words of work and of spare. Prints `ok` or `no NUMBER STEP`, and on two lines
// more all words of work and of spare after the call, refused or not.
ghost use Rattle.std.specs.Prelude.{◌≡◌, length};

use super::input::{MOST, file_buffer, read_file, read_words};
use super::printing::print_numbers;
use answer::print_refusal;
use ishkrela::{Refusal, run};
use std::io::Read;

fn buffer() -> [u32; MOST]
    ensures { 65536 ≡ length result }
{
    [0; MOST]
}

fn print_outcome(rt: &impl Print, outcome: Result<(), Refusal>) {
    match outcome {
        Ok(()) => {
            let _ = println!(rt; "ok");
        }
        Err(refusal) => {
            print_refusal(rt, refusal);
        }
    }
}

fn print_buffer(rt: &impl Print, name: &str, words: &[u32]) {
    let _ = print!(rt; "{name}");
    print_numbers(rt, words);
    let _ = println!(rt; "");
}

// Makes the call and prints what it answers and leaves.
fn answer_run(rt: &impl Print, file: &[u8], work: &mut [u32], spare: &mut [u32]) {
    let ran = run(file, work, spare);
    print_outcome(rt, ran.outcome);
    print_buffer(rt, "work", work);
    print_buffer(rt, "spare", spare);
}

// Reads a case and answers it.
pub(crate) fn answer_case(rt: &impl Print, input: &mut impl Read) {
    let mut file = file_buffer();
    let n = read_file(input, &mut file) as usize;
    let mut work = buffer();
    let in_work = read_words(input, &mut work) as usize;
    let mut spare = buffer();
    let in_spare = read_words(input, &mut spare) as usize;
    answer_run(
        rt,
        &file[0..n],
        &mut work[0..in_work],
        &mut spare[0..in_spare],
    );
}
