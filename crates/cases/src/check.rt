// Call 1, the check: a plan file. Prints what `plancheck` prints of it.
use super::input::{file_buffer, read_file};
use answer::print_answer;
use std::io::Read;

// Reads a case and answers it.
pub(crate) fn answer_case(rt: &impl Print, input: &mut impl Read) {
    let mut file = file_buffer();
    let n = read_file(input, &mut file) as usize;
    print_answer(rt, &file[0..n]);
}
