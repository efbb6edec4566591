// Call 3, the group listing: mesh sizes, axes, and the length of the output in two bytes. Call 5, by an order: the same
// with the device numbers after the mesh sizes. Prints `no NUMBER STEP`, or `ok D` and all entries of the output, those
// past D too.
ghost use Rattle.std.specs.Prelude.{◌≡◌, length};

use super::input::{MOST, next_number, read_axes, read_mesh, read_order};
use super::printing::print_numbers;
use answer::print_refusal;
use ishkrela::{Refusal, groups, groups_ordered};
use std::io::Read;

// The output before the call: 9999 is no device of any mesh.
fn blank() -> [u16; MOST]
    ensures { 65536 ≡ length result }
{
    [9999; MOST]
}

// Prints what the call answered and left.
fn print_outcome(rt: &impl Print, outcome: Result<usize, Refusal>, out: &[u16]) {
    match outcome {
        Ok(devices) => {
            let _ = print!(rt; "ok {devices}");
            print_numbers(rt, out);
            let _ = println!(rt; "");
        }
        Err(refusal) => {
            print_refusal(rt, refusal);
        }
    }
}

fn answer_groups(rt: &impl Print, mesh: &[u16], axes: &[u8], out: &mut [u16]) {
    let outcome = groups(mesh, axes, out);
    print_outcome(rt, outcome, out);
}

fn answer_ordered(rt: &impl Print, mesh: &[u16], order: &[u16], axes: &[u8], out: &mut [u16]) {
    let outcome = groups_ordered(mesh, order, axes, out);
    print_outcome(rt, outcome, out);
}

// Reads a case by an order and answers it.
pub(crate) fn answer_ordered_case(rt: &impl Print, input: &mut impl Read) {
    let mut mesh = [0u16; 256];
    let n = read_mesh(input, &mut mesh) as usize;
    let mut order = blank();
    let devices = read_order(input, &mut order) as usize;
    let mut axes = [0u8; 256];
    let named = read_axes(input, &mut axes) as usize;
    let mut out = blank();
    let length = next_number(input) as usize;
    answer_ordered(
        rt,
        &mesh[0..n],
        &order[0..devices],
        &axes[0..named],
        &mut out[0..length],
    );
}

// Reads a case and answers it.
pub(crate) fn answer_case(rt: &impl Print, input: &mut impl Read) {
    let mut mesh = [0u16; 256];
    let n = read_mesh(input, &mut mesh) as usize;
    let mut axes = [0u8; 256];
    let named = read_axes(input, &mut axes) as usize;
    let mut out = blank();
    let length = next_number(input) as usize;
    answer_groups(rt, &mesh[0..n], &axes[0..named], &mut out[0..length]);
}
