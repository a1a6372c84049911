//! Lists out of order, settings past their limits, copies, and pairs in both their forms.

use std::alloc::Global;
use std::test::Fail;
use tk_base::{Cut, NoMemory, Obj, ObjSet, Pairs, Places, SettingFault, Settings};

fn listed(alloc: Global, numbers: &[u32]) -> Result<Vec<Obj>, NoMemory> {
    let mut list = Vec::new(alloc);
    for number in numbers {
        list.push(Obj(*number))?;
    }
    Ok(list)
}

#[test]
fn the_first_place_out_of_order_is_named(rt: HostRuntime) -> Result<(), Fail> {
    let cases: [(&[u32], Option<usize>); 5] = [
        (&[], None),
        (&[1, 4, 9], None),
        (&[0, 1], Some(0)),
        (&[2, 5, 5, 1], Some(2)),
        (&[3, 2, 1], Some(1)),
    ];
    for (numbers, place) in cases {
        let list = listed(rt.alloc(), numbers)?;
        let refused = ObjSet::new(list).err().map(|fault| fault.place);
        assert_eq!(rt; refused, place, "at {numbers:?}");
    }
    Ok(())
}

#[test]
fn settings_are_refused_in_their_order(rt: HostRuntime) {
    let most = 1_267_650_600_228_229_401_496_703_205_376;
    let cases = [
        ((0, most + 1, 1_001, 0, 2), Some(SettingFault::BadCount)),
        ((0, most + 1, 1_001, 2, 65), Some(SettingFault::BadCount)),
        ((1, 0, 1, 65_537, 1), Some(SettingFault::BadCount)),
        ((1, 0, 1, 65_536, 17), Some(SettingFault::BadCount)),
        ((0, most + 1, 1_001, 2, 2), Some(SettingFault::BadK)),
        ((3, 0, 1, 2, 2), Some(SettingFault::BadK)),
        ((1_025, 0, 1, 2_000, 2), Some(SettingFault::BadK)),
        ((1, most + 1, 1_001, 2, 2), Some(SettingFault::BadEpsilon)),
        ((1, most, 1_001, 2, 2), Some(SettingFault::BadWeight)),
        ((1_024, most, 1_000, 65_536, 16), None),
        ((1, 0, 0, 1, 1), None),
    ];
    for ((k, epsilon, own_weight, objects, monitors), fault) in cases {
        let made = Settings::new(k, epsilon, own_weight, objects, monitors);
        assert_eq!(rt; made.err(), fault, "at {k} {objects} {monitors}");
    }
}

#[test]
fn a_clone_is_made_with_ample_memory(rt: HostRuntime) -> Result<(), Fail> {
    let alloc = rt.alloc();
    let set = ObjSet::new(listed(alloc, &[1, 3])?)?;
    assert!(rt; set.try_clone()? == set);
    let pairs = Pairs::new(vec![in alloc; (Obj(2), -7), (Obj(5), 4)]?)?;
    let copy = pairs.try_clone()?;
    assert!(rt; copy == pairs);
    assert_eq!(rt; (copy.get(Obj(2)), copy.get(Obj(3))), (Some(-7), None));
    let places = Places::new(vec![in alloc; 0, 2]?);
    assert!(rt; places.try_clone()? == places);
    let cut = Cut::new(vec![in alloc; places]?);
    assert!(rt; cut.try_clone()? == cut);
    Ok(())
}

/// Whether two lists made of these pairs are equal and unlike one with another number, and of the first its length, its
/// last pair, and what stands under 2 and under 3. Where the run refuses an allocation, their forms may differ.
fn told(
    alloc: Global,
    first: i128,
    last: i128,
) -> Option<((bool, bool), usize, (Obj, i128), [Option<i128>; 2])> {
    let pairs = Pairs::new(vec![in alloc; (Obj(2), first), (Obj(5), last)].ok()?).ok()?;
    let same = Pairs::new(vec![in alloc; (Obj(2), first), (Obj(5), last)].ok()?).ok()?;
    let other = Pairs::new(vec![in alloc; (Obj(2), 9), (Obj(5), last)].ok()?).ok()?;
    let equal = (pairs == same, pairs == other);
    Some((
        equal,
        pairs.len(),
        pairs.at(1),
        [pairs.get(Obj(2)), pairs.get(Obj(3))],
    ))
}

#[test]
fn pairs_are_the_same_in_both_forms(rt: HostRuntime) -> Result<(), Fail> {
    let cases = [
        (5, -7),
        (2_147_483_647, -2_147_483_648),
        (2_147_483_648, 0),
        (0, -2_147_483_649),
        (1_000_000_000_000_000_000_000, -1),
    ];
    for (first, last) in cases {
        let kept = ((true, false), 2, (Obj(5), last), [Some(first), None]);
        assert_eq!(rt; told(rt.alloc(), first, last).ok_or(NoMemory)?, kept);
    }
    Ok(())
}
