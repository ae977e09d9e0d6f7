// Examples of circuits that are the same, that are not, and that are refused.
use circuits::component::{finished, open_net};
use circuits::memo::Memo;
use circuits::netlist::{Circuit, Device, count};
use circuits::pairing::{Pairing, Partners, agree, complete, first_free, own_partners};
use circuits::search::pairable;
use circuits::{Comparison, compare};
use layout::refusal::Refusal;
use std::test::Fail;

const HIGH: Device = Device {
    gate: 299,
    one: 0,
    other: 256,
};

// Its partner, where net n goes to net 299 - n.
const TURNED: Device = Device {
    gate: 0,
    one: 299,
    other: 43,
};

#[test]
fn takes_more_nets_than_a_comparison_does(rt: HostRuntime) -> Result<(), Fail> {
    let heap = rt.alloc();
    let mut to = Vec::new(heap);
    let mut low = Vec::new(heap);
    let mut none = Vec::new(heap);
    for net in 0..300 {
        to.push(Some(299 - net))?;
        low.push(if net < 299 { Some(299 - net) } else { None })?;
        none.push(None)?;
    }
    let (a, b) = ([HIGH], [TURNED]);
    let mut memo = Memo::new(&a, &b);
    assert!(rt; agree(&a, &b, &to, &mut memo));
    assert!(rt; complete(&a, &b, 300, &to, &to, &mut memo));
    assert!(rt; finished(&a, &b, &none, &to, &to, false, &mut memo));
    assert!(rt; !agree(&a, &a, &to, &mut memo));
    assert_eq!(rt; first_free(&to, 300), None);
    assert_eq!(rt; first_free(&to, 301), Some(300));
    assert_eq!(rt; open_net(&a, &none, &low), Some(299));
    assert_eq!(rt; first_free(&low, 300), Some(299));
    assert_eq!(rt; count(&[HIGH, HIGH], HIGH), 2);
    Ok(())
}

#[test]
fn pairs_nets_of_large_numbers(rt: HostRuntime) -> Result<(), Fail> {
    let mut to = Vec::new(rt.alloc());
    let mut back = Vec::new(rt.alloc());
    for _ in 0..300 {
        to.push(None)?;
        back.push(None)?;
    }
    let mut pairing = Pairing { to, back };
    if pairing.to.len() == 300 && pairing.back.len() == 300 {
        pairing.pair(299, 256);
    }
    assert_eq!(rt; pairing.to.partner(299), Some(256));
    assert_eq!(rt; pairing.back.partner(256), Some(299));
    assert_eq!(rt; pairing.back.partner(299), None);
    Ok(())
}

#[test]
fn pairs_circuits_that_are_made_elsewhere(rt: HostRuntime) {
    let devices = [Device {
        gate: 0,
        one: 1,
        other: 2,
    }];
    let circuit = Circuit {
        nets: 3,
        devices: &devices,
    };
    let own = own_partners(1);
    assert!(rt; pairable(circuit, circuit, &Pairing { to: own, back: own }));
}

#[test]
fn pairs_devices_and_nets(rt: HostRuntime) {
    let pair = [2, 0, 1, 2, 1, 3];
    assert_eq!(rt;
        compare(4, 4, 2, &pair, &[3, 2, 1, 3, 0, 1]),
        Ok(Comparison::Equal)
    );
    assert_eq!(rt;
        compare(4, 4, 2, &pair, &[2, 0, 1, 3, 1, 3]),
        Ok(Comparison::Unequal)
    );
}

#[test]
fn refuses_the_first_fault(rt: HostRuntime) {
    let fault = Err(Refusal::Circuit(0));
    assert_eq!(rt; compare(1, 1, 0, &[0, 0], &[]), fault);
    assert_eq!(rt; compare(0, 1, 0, &[], &[]), fault);
    assert_eq!(rt; compare(257, 1, 0, &[], &[]), fault);
    assert_eq!(rt; compare(4, 0, 0, &[0, 0, 4], &[]), fault);
    assert_eq!(rt; compare(1, 1, 2, &[], &[1, 0, 0]), Err(Refusal::Circuit(1)));
    assert_eq!(rt; compare(2, 3, 3, &[], &[]), Err(Refusal::Circuit(2)));
}
