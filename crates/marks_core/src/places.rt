//! Where constructors hand on.
ghost use Rattle.std.specs.Prelude.{◌≡◌, ◌<◌, length, IfOk};
ghost use Rattle.eval_core.specs.Lenses.{hands_on};
ghost use Rattle.marks_core.specs.Tables.{all_places, places_of};

use items::Items;
use problem_core::Problem;
use sig_core::ConId;
use std::alloc::{AllocError, Global};

/// For each place of a constructor, whether it hands on there.
pub(crate) type Places = Items<bool>;

/// The places of each constructor, in order.
pub(crate) fn all_places(alloc: Global, problem: &Problem) -> Result<Items<Places>, AllocError>
    ensures { IfOk result (λ lists. lists ≡ all_places problem.now) }
{
    let count = problem.signature().constructors();
    let mut lists = Items::new(alloc);
    for number in 0..count {
        lists.push(places_of(alloc, problem, ConId(number))?)?;
    }
    Ok(lists)
}

fn places_of(alloc: Global, problem: &Problem, con: ConId) -> Result<Places, AllocError>
    requires { con.0 < length problem.now.signature.constructors }
    ensures { IfOk result (λ places. places ≡ places_of problem.now con) }
{
    let count = problem.signature().constructor(con).args.len();
    let mut places = Places::new(alloc);
    for i in 0..count {
        places.push(hands_on(problem, con, i))?;
    }
    Ok(places)
}

fn hands_on(problem: &Problem, con: ConId, i: usize) -> bool
    ensures { result ≡ hands_on problem.now con i }
{
    problem.rulebook().hands_on(problem.signature(), con, i)
}
