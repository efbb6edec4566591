// Call 2, the placement: a plan file, and the state and the device in two bytes each. Prints `no NUMBER STEP`, or
// `ok lists DIMS UNREDUCED sizes SHARD first INDEXES`, the replicated axes after the unreduced ones where there are any.
use super::input::{file_buffer, next_number, read_file};
use super::printing::{print_list, print_lists, print_sizes};
use answer::print_refusal;
use ishkrela::{AxisList, Device, Placed, place};
use std::io::Read;

fn print_replicated(rt: &impl Print, list: AxisList) {
    if list.len() != 0 {
        let _ = print!(rt; " ");
        print_list(rt, list);
    }
}

fn print_found(rt: &impl Print, placed: Placed, rank: usize) {
    let sharding = placed.sharding;
    let _ = print!(rt; "ok lists ");
    print_lists(rt, sharding.dims, rank);
    let _ = print!(rt; " ");
    print_list(rt, sharding.unreduced);
    print_replicated(rt, sharding.replicated);
    let _ = print!(rt; " sizes ");
    print_sizes(rt, placed.shard, rank);
    let _ = print!(rt; " first ");
    print_sizes(rt, placed.first, rank);
    let _ = println!(rt; "");
}

fn print_placed(rt: &impl Print, placed: Placed) {
    match placed.outcome {
        Ok(rank) => {
            print_found(rt, placed, rank);
        }
        Err(refusal) => {
            print_refusal(rt, refusal);
        }
    }
}

// Reads a case and answers it.
pub(crate) fn answer_case(rt: &impl Print, input: &mut impl Read) {
    let mut file = file_buffer();
    let n = read_file(input, &mut file) as usize;
    let state = next_number(input);
    let device = Device(next_number(input));
    let placed = place(&file[0..n], state, device);
    print_placed(rt, placed);
}
