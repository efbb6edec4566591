// Printing: numbers after each other on a line, and lists in brackets.
// A write that fails is let go.
use ishkrela::{AxisList, Dim, DimLists};
use std::fmt::Display;

// Prints each number after a space.
pub(crate) fn print_numbers<T: Display>(rt: &impl Print, numbers: &[T]) {
    for number in numbers {
        let _ = print!(rt; " {number}");
    }
}

// Between the entries of a list.
fn comma(i: usize) -> &'static str {
    if i == 0 { "" } else { ", " }
}

// Prints an axis list.
pub(crate) fn print_list(rt: &impl Print, list: AxisList) {
    let _ = print!(rt; "[");
    for (i, axis) in list.as_slice().iter().enumerate() {
        let _ = print!(rt; "{}{}", comma(i), axis.0);
    }
    let _ = print!(rt; "]");
}

// Prints the lists of the dimensions; nothing past the rank, here and below.
pub(crate) fn print_lists(rt: &impl Print, lists: DimLists, rank: usize) {
    let _ = print!(rt; "[");
    for (i, list) in lists.0.iter().take(rank).enumerate() {
        let _ = print!(rt; "{}", comma(i));
        print_list(rt, *list);
    }
    let _ = print!(rt; "]");
}

// Prints sizes or indexes, one for each dimension.
pub(crate) fn print_sizes(rt: &impl Print, sizes: [u16; Dim::MOST], rank: usize) {
    let _ = print!(rt; "[");
    for (i, size) in sizes.iter().take(rank).enumerate() {
        let _ = print!(rt; "{}{size}", comma(i));
    }
    let _ = print!(rt; "]");
}
