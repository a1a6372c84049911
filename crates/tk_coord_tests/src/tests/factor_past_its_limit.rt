//! A full round that would give a factor past its limit, and the wide round in its place.

ghost use Rattle.std.specs.Prelude.{◌≡◌, ◌≤ℤ◌, pos, [], ◌∷◌, length, IfOk};
ghost use Rattle.tk_rows.specs.Factors.{factor_at};
ghost use Rattle.tk_coord_tests.specs.Pairing.{at_both, of_both};

use super::{Factors, Said, Turn, factors, leads, takes};
use std::alloc::Global;
use std::test::Fail;
use tk_base::{Mon, Obj, ObjSet, Pairs, Settings};
use tk_coord::Coordinator;
use tk_rows::{MonChange, Reallocation, Table};

/// The greatest factor, 2^112.
const FACTOR: i128 = 5_192_296_858_534_827_628_530_496_329_220_096;

/// The factors of a and of b.
fn both(alloc: Global, factor: i128) -> Result<Pairs, Fail>
    ensures { IfOk result (λ p. p ≡ of_both factor) }
{
    let list = [(Obj(1), factor), (Obj(2), factor)].to_vec(alloc)?;
    let pairs = Pairs::new(list)?;
    Ok(pairs)
}

fn only_a(alloc: Global) -> Result<ObjSet, Fail>
    ensures { IfOk result (λ s. s ≡ 1 ∷ []) }
{
    let set = ObjSet::new([Obj(1)].to_vec(alloc)?)?;
    Ok(set)
}

/// These factors of a and of b at two monitors.
fn changes(alloc: Global, one: i128, two: i128) -> Result<Vec<MonChange>, Fail>
    ensures { IfOk result (λ v. v.items ≡ at_both one two) }
{
    let one = MonChange {
        mon: Mon(1),
        changes: both(alloc, one)?,
    };
    let two = MonChange {
        mon: Mon(2),
        changes: both(alloc, two)?,
    };
    let at = vec![in alloc; one, two]?;
    Ok(at)
}

/// The same beside the own factors, which are 0.
fn reallocation(alloc: Global, one: i128, two: i128) -> Result<Reallocation, Fail>
    ensures own { IfOk result (λ r. r.own ≡ of_both (pos 0)) }
    ensures at { IfOk result (λ r. r.at.items ≡ at_both one two) }
{
    let members = only_a(alloc)?;
    let own = both(alloc, 0)?;
    let at = changes(alloc, one, two)?;
    Ok(Reallocation { members, own, at })
}

/// A table in which a and b have the factors 0, 2^112 and -2^112.
fn far_table(alloc: Global) -> Result<Table, Fail>
    ensures objects { IfOk result (λ t. length t.rows ≡ 2) }
    ensures monitors { IfOk result (λ t. t.monitors ≡ 2) }
    ensures first { IfOk result (λ t. factor_at t 0 1 ≡ pos 0) }
    ensures second { IfOk result (λ t. factor_at t 0 2 ≡ pos 0) }
{
    let change = reallocation(alloc, FACTOR, -FACTOR)?;
    let mut table = Table::new(alloc, 2, 2)?;
    table.replace(&change);
    Ok(table)
}

fn settings(k: u64, epsilon: u128) -> Result<Settings, Fail>
    ensures objects { IfOk result (λ s. s.objects ≡ 2) }
    ensures monitors { IfOk result (λ s. s.monitors ≡ 2) }
    ensures k { IfOk result (λ s. s.k ≡ k) }
    ensures no_debt { IfOk result (λ s. pos 0 ≤ℤ s.epsilon) }
{
    let settings = Settings::new(k, epsilon, 1, 2, 2)?;
    if settings.objects() == 2 && settings.monitors() == 2 && u64::from(settings.k()) == k {
        Ok(settings)
    } else {
        Err("other settings")?
    }
}

/// A coordinator with the member a and such a table.
fn far(alloc: Global) -> Result<Coordinator, Fail> {
    let settings = settings(1, 0)?;
    let members = only_a(alloc)?;
    let table = far_table(alloc)?;
    let c = Coordinator::with_table(alloc, settings, members, table)?;
    Ok(c)
}

/// The Report of monitor 1 that opens a full round, and the Values of monitor 2 that end it.
static FULL: [Turn<'static>; 2] = [
    (1, Said::Report(1, FACTOR, &[2], &[(1, 0), (2, 1)])),
    (2, Said::Values(1, 1, -FACTOR, &[(1, 0), (2, 30)])),
];

/// The Values of both monitors that end the wide round.
static WIDE: [Turn<'static>; 2] = [
    (1, Said::Values(2, 1, FACTOR, &[(1, 0), (2, 1)])),
    (2, Said::Values(2, 1, -FACTOR, &[(1, 0), (2, 30)])),
];

/// Whether no round is open, and the factors of a and of b.
type Dealt = (bool, Factors, Factors);

fn dealt(c: &Coordinator) -> Dealt {
    (c.idle(), factors(c, 1), factors(c, 2))
}

/// What stands after the Values to the full round, and after those to the wide one, in which b leads, if it takes them.
fn both_rounds(alloc: Global, c: &mut Coordinator) -> Option<(Dealt, Dealt, bool)> {
    if !takes(alloc, c, &FULL) {
        return None;
    }
    let full = dealt(c);
    if !takes(alloc, c, &WIDE) {
        return None;
    }
    Some((full, dealt(c), leads(c, 2)))
}

/// The same of one that ends here.
fn last_rounds(alloc: Global, c: Coordinator) -> Option<(Dealt, Dealt, bool)> {
    let mut c = c;
    let rounds = both_rounds(alloc, &mut c);
    drop(c);
    rounds
}

/// The same of the coordinator with such a table.
fn far_rounds(alloc: Global) -> Result<Option<(Dealt, Dealt, bool)>, Fail> {
    match far(alloc) {
        Ok(c) => Ok(last_rounds(alloc, c)),
        Err(fail) => Err(fail),
    }
}

#[test]
fn a_wide_round_in_its_place(rt: HostRuntime) -> Result<(), Fail> {
    let far = Some((0, FACTOR, -FACTOR));
    let wide = (true, Some((0, 0, 0)), Some((11, 9, -20)));
    let found = far_rounds(rt.alloc())?;
    assert!(rt; found == Some(((false, far, far), wide, true)));
    Ok(())
}
