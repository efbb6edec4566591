// An order of devices: the device number at each place, the row-major number of coordinates. Its tests, its inverse, and what goes by it: listed
// places that become device numbers, and shards that are put in their places.
// rules/specs/Mesh.antt and PlanFile.antt say what an order is, specs/Order.antt what the functions ask for and leave.
#![tactic(auto)]

ghost use Rattle.std.specs.Prelude.{◌≡◌, map, ◌++◌, ◌*◌, ◌≤◌, length, get_or, drop};
ghost use Rattle.rules.specs.Limits.{most_devices};
ghost use Rattle.rules.specs.Mesh.{plain_order, place_in, Rearrangement};
ghost use Rattle.rules.specs.PlanFile.{same, rearranges, order_allowed};
ghost use Rattle.order.specs.Order.{EachBelow, places_of, words_by_place, ShardsFit};

use types::Device;

// Whether the numbers are a rearrangement of 0 to n-1.
pub fn rearranges(order: &[u16], n: usize) -> bool
    requires { n ≤ most_devices }
    ensures { result ≡ rearranges n order.now }
{
    if order.len() != n {
        return false;
    }
    let mut seen = [false; Device::MOST];
    for number in order {
        let device = *number as usize;
        if n <= device {
            return false;
        }
        if seen[device] {
            return false;
        }
        seen[device] = true;
    }
    true
}

// Whether each device's number is its place.
pub fn is_plain(order: &[u16]) -> bool
    ensures { result ≡ same order.now (plain_order (length order.now)) }
{
    order
        .iter()
        .enumerate()
        .all(|(place, number)| *number as usize == place)
}

// "a rearrangement of 0 to D-1 other than the plain one"
pub fn order_allowed(order: &[u16], n: usize) -> bool
    requires { n ≤ most_devices }
    ensures { result ≡ order_allowed n order.now }
{
    rearranges(order, n) && !is_plain(order)
}

// The place of device d, the number of places where it has none.
pub fn place_in(order: &[u16], d: usize) -> usize
    ensures { result ≡ place_in d order.now }
{
    order
        .iter()
        .position(|number| *number as usize == d)
        .unwrap_or(order.len())
}

// The place of every device.
pub fn invert(order: &[u16], places: &mut [u16])
    requires { Rearrangement (length places.old) order.now }
    ensures { places.new ≡ places_of order.now }
{
    for (i, number) in order.iter().enumerate() {
        places[*number as usize] = i as u16;
    }
}

// Places that become the numbers of the devices there.
pub fn look_up(numbers: &mut [u16], order: &[u16])
    requires { EachBelow (length order.now) numbers.old }
    ensures { numbers.new ≡ map (λ p. get_or order.now p 0) numbers.old }
{
    for number in numbers {
        *number = order[*number as usize];
    }
}

// The words of from.
// Stays: (b) copy_from_slice takes up to a seventh longer for shards of one to eight words, zip a third longer for four.
fn copy_shard(to: &mut [u32], from: &[u32])
    requires { length to.old ≡ length from.now }
    ensures { to.new ≡ from.now }
{
    for (t, word) in from.iter().enumerate() {
        to[t] = *word;
    }
}

// Shards of m words, each from its number in the order to its place there; the words behind them stay. By the inverse they go back.
pub fn place_shards(to: &mut [u32], from: &[u32], order: &[u16], m: usize)
    requires { ShardsFit order.now m (length to.old) (length from.now) }
    ensures { to.new ≡ words_by_place 0 order.now m from.now
        ++ drop (length order.now * m) to.old }
{
    for (i, number) in order.iter().enumerate() {
        let first = i * m;
        let at = *number as usize * m;
        copy_shard(&mut to[first..first + m], &from[at..at + m]);
    }
}
