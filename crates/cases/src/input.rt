// Reading from standard input. Numbers are little-endian; past the end of the input every byte is 0.
ghost use Rattle.std.specs.Prelude.{◌≡◌, ◌≤◌, length};

use answer::read_full;
use std::io::Read;

// As many as a number in two bytes can count.
pub(crate) const MOST: usize = 65536;

// Room for a plan file of any length that two bytes count, all 0.
pub(crate) fn file_buffer() -> [u8; MOST]
    ensures { 65536 ≡ length result }
{
    [0; MOST]
}

// The next byte.
pub(crate) fn next_byte(input: &mut impl Read) -> u8 {
    let mut bytes = [0u8; 1];
    read_full(input, &mut bytes);
    bytes[0]
}

// The next number, in two bytes.
pub(crate) fn next_number(input: &mut impl Read) -> u16 {
    let mut bytes = [0u8; 2];
    read_full(input, &mut bytes);
    u16::from_le_bytes(bytes)
}

// The next word, in four bytes.
fn next_word(input: &mut impl Read) -> u32 {
    let mut bytes = [0u8; 4];
    read_full(input, &mut bytes);
    u32::from_le_bytes(bytes)
}

fn fill_numbers(input: &mut impl Read, numbers: &mut [u16]) {
    for number in numbers {
        *number = next_number(input);
    }
}

fn fill_words(input: &mut impl Read, words: &mut [u32]) {
    for word in words {
        *word = next_word(input);
    }
}

// Reads a plan file to the front of a buffer: its length in two bytes, and its bytes. Answers the length.
pub(crate) fn read_file(input: &mut impl Read, file: &mut [u8]) -> u16
    requires { 65536 ≤ length file.old }
{
    let length = next_number(input);
    let n = length as usize;
    read_full(input, &mut file[0..n]);
    length
}

// Reads words to the front of a buffer: how many in two bytes, and each in four. Answers how many.
pub(crate) fn read_words(input: &mut impl Read, words: &mut [u32]) -> u16
    requires { 65536 ≤ length words.old }
{
    let count = next_number(input);
    let n = count as usize;
    fill_words(input, &mut words[0..n]);
    count
}

// Reads mesh sizes to the front of an array: how many in one byte, and each in two. Answers how many.
pub(crate) fn read_mesh(input: &mut impl Read, sizes: &mut [u16]) -> u8
    requires { 256 ≤ length sizes.old }
{
    let count = next_byte(input);
    let n = count as usize;
    fill_numbers(input, &mut sizes[0..n]);
    count
}

// Reads device numbers to the front of an array: how many in two bytes, and each in two. Answers how many.
pub(crate) fn read_order(input: &mut impl Read, order: &mut [u16]) -> u16
    requires { 65536 ≤ length order.old }
{
    let count = next_number(input);
    let n = count as usize;
    fill_numbers(input, &mut order[0..n]);
    count
}

// Reads axes to the front of an array: how many in one byte, and each in one. Answers how many.
pub(crate) fn read_axes(input: &mut impl Read, axes: &mut [u8]) -> u8
    requires { 256 ≤ length axes.old }
{
    let count = next_byte(input);
    let n = count as usize;
    read_full(input, &mut axes[0..n]);
    count
}
