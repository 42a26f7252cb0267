ghost use Rattle.std.specs.Prelude.{◌≡◌, ◌<◌, ◌+◌, ◌≤◌, OnOk, length};
ghost use Rattle.example_rules.specs.Examples.{example};

use example_rules::{CHOICE, GIVES, MAPS, PLUS, example, ones, rule, variables};
use rule_core::{AddError, Rulebook};
use sig_core::{ConId, RelId, Signature};
use std::alloc::Global;

/// Adds a rule for the constructor that maps each input to 1, by so many existentials.
fn add_map(
    alloc: Global,
    book: &mut Rulebook,
    signature: &Signature,
    con: ConId,
    more: u8,
) -> Result<(), AddError>
    requires room { length book.old < 4 }
    requires signature { signature.now ≡ example }
    requires con { con.0 < 2 }
    requires more { more ≤ 62 }
    ensures { OnOk result (length book.new ≡ length book.old + 1) }
{
    let atoms = ones(alloc, more + 2)?;
    let vars = variables(alloc, more)?;
    book.add(signature, rule(alloc, MAPS, con, vars, atoms))
}

/// A book of three rules of one relation, the second for another constructor.
fn three_rules(alloc: Global) -> Result<Rulebook, AddError> {
    let Ok(signature) = example(alloc) else {
        return Err(AddError::Memory);
    };
    let mut book = Rulebook::new(alloc);
    add_map(alloc, &mut book, &signature, PLUS, 0)?;
    add_map(alloc, &mut book, &signature, CHOICE, 1)?;
    add_map(alloc, &mut book, &signature, PLUS, 2)?;
    Ok(book)
}

/// How many rules the relation has in all, and for each constructor.
fn counts(alloc: Global, relation: RelId) -> Result<(u32, u32, u32), AddError> {
    let book = three_rules(alloc)?;
    let sums = book.count(relation, PLUS);
    Ok((book.len(), sums, book.count(relation, CHOICE)))
}

#[test]
fn keeps_rules_by_pair(rt: HostRuntime) {
    assert_eq!(rt; counts(rt.alloc(), MAPS), Ok((3, 2, 1)));
    assert_eq!(rt; counts(rt.alloc(), GIVES), Ok((3, 0, 0)));
}

/// The number of existentials of a rule of the constructor, counted among those of the constructor.
fn of_pair(alloc: Global, con: ConId, k: u32) -> Result<Option<usize>, AddError> {
    let book = three_rules(alloc)?;
    Ok(book.rule(MAPS, con, k).map(|rule| rule.more.len()))
}

/// The number of existentials of a rule of the relation.
fn of_relation(alloc: Global, relation: RelId, k: u32) -> Result<Option<usize>, AddError> {
    let book = three_rules(alloc)?;
    Ok(book.of_relation(relation, k).map(|rule| rule.more.len()))
}

#[test]
fn numbers_rules_within_a_pair(rt: HostRuntime) {
    assert_eq!(rt; of_pair(rt.alloc(), PLUS, 0), Ok(Some(0)));
    assert_eq!(rt; of_pair(rt.alloc(), PLUS, 1), Ok(Some(2)));
    assert_eq!(rt; of_pair(rt.alloc(), PLUS, 2), Ok(None));
    assert_eq!(rt; of_pair(rt.alloc(), CHOICE, 0), Ok(Some(1)));
}

#[test]
fn numbers_rules_within_a_relation(rt: HostRuntime) {
    assert_eq!(rt; of_relation(rt.alloc(), MAPS, 1), Ok(Some(1)));
    assert_eq!(rt; of_relation(rt.alloc(), MAPS, 3), Ok(None));
    assert_eq!(rt; of_relation(rt.alloc(), GIVES, 0), Ok(None));
}
