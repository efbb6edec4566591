// What no program calls: the judgement of an order of so many devices, which no mesh need have.
use super::judge_order;
use types::{Device, Reason, Refusal};

// "a rearrangement of 0 to D-1 other than the plain one"; "An order of no numbers counts as none"
#[test]
fn order_of_so_many_devices(rt: HostRuntime) {
    let wrong = Err(Refusal {
        reason: Reason::WrongOrder,
        step: 0,
    });
    assert_eq!(rt; judge_order(&[], 4), Ok(()));
    assert_eq!(rt; judge_order(&[1, 0, 2, 3], 4), Ok(()));
    assert_eq!(rt; judge_order(&[0, 1, 2, 3], 4), wrong, "the plain one");
    assert_eq!(rt; judge_order(&[1, 0, 2], 4), wrong, "too short");
    assert_eq!(rt; judge_order(&[1, 0, 2, 3, 4], 4), wrong, "too long");
    assert_eq!(rt; judge_order(&[1, 0, 2, 4], 4), wrong, "no device");
    assert_eq!(rt; judge_order(&[1, 0, 2, 2], 4), wrong, "twice");
}

#[test]
fn order_of_no_devices(rt: HostRuntime) {
    let wrong = Err(Refusal {
        reason: Reason::WrongOrder,
        step: 0,
    });
    assert_eq!(rt; judge_order(&[], 0), Ok(()));
    assert_eq!(rt; judge_order(&[0], 0), wrong);
}

#[test]
fn order_of_the_most_devices(rt: HostRuntime) {
    let mut turned = [0u16; Device::MOST];
    for d in 0..Device::MOST {
        turned[d] = (Device::MOST - 1 - d) as u16;
    }
    assert_eq!(rt; judge_order(&turned, Device::MOST), Ok(()));
}
