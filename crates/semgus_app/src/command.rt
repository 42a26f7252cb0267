ghost use Rattle.std.specs.Prelude.{◌≡◌, ◌≢◌, ◌≤◌, ℕ, List, Some, MatchOption, slice_get, codes, decimal};
ghost use Rattle.semgus_app.specs.Commands.{task_of};
ghost use Rattle.semgus_app.specs.Tasks.{Asks, HaveNoForm, problem_file, solve, show, check};

use itoa::Buffer;
use semgus_io::Words;

/// The greatest bound on the height of derivations.
const MAX_HEIGHT: u32 = 1000;

/// The greatest bound on the size of terms.
const MAX_SIZE: u32 = 40;

/// The bound on the height of derivations where none is given.
const USUAL_HEIGHT: u32 = 64;

/// The bound on the size of terms where none is given.
const USUAL_SIZE: u32 = 16;

/// What the words ask for.
#[derive(Clone, Copy, Debug)]
pub enum Command<'a> {
    /// a file, a bound on the height of derivations and one on the size of terms
    Solve(&'a str, u32, u32),
    /// a file
    Show(&'a str),
    /// a file, an answer file and a bound on the height of its steps
    Check(&'a str, &'a str, u32),
}

impl<'a> Command<'a> {
    /// The name of the problem file.
    pub fn file(&self) -> &'a str
        ensures { problem_file (task_of self.now) ≡ Some (record { name = result.now; limit = 1048576 }) }
    {
        match self {
            Command::Solve(file, _, _) | Command::Show(file) | Command::Check(file, _, _) => file,
        }
    }
}

/// The command that the words are.
pub fn command_of(words: &Words) -> Option<Command<'_>>
    ensures { MatchOption result (HaveNoForm words.now) (λ command. Asks words.now (task_of command)) }
{
    let name = words.get(0)?;
    if name == "solve" {
        return solve_of(words);
    }
    if name == "show" {
        return show_of(words);
    }
    if name == "check" {
        return check_of(words);
    }
    None
}

/// `solve FILE HEIGHT SIZE`, or `solve FILE`, where the first word is `solve`.
fn solve_of(words: &Words) -> Option<Command<'_>>
    requires { slice_get words.now 0 ≡ Some (codes "solve") }
    ensures { MatchOption result ((file : List ℕ) (height size : ℕ) → ¬ Asks words.now (solve file height size)) (λ command. Asks words.now (task_of command)) }
{
    let file = words.get(1)?;
    if words.len() == 2 {
        return Some(Command::Solve(file, USUAL_HEIGHT, USUAL_SIZE));
    }
    let height = numeral_between(words.get(2)?, 1, MAX_HEIGHT)?;
    let size = numeral_between(words.get(3)?, 1, MAX_SIZE)?;
    if words.len() != 4 {
        return None;
    }
    Some(Command::Solve(file, height, size))
}

/// `show FILE`, where the first word is `show`.
fn show_of(words: &Words) -> Option<Command<'_>>
    requires { slice_get words.now 0 ≡ Some (codes "show") }
    ensures { MatchOption result ((file : List ℕ) → ¬ Asks words.now (show file)) (λ command. Asks words.now (task_of command)) }
{
    let file = words.get(1)?;
    if words.len() != 2 {
        return None;
    }
    Some(Command::Show(file))
}

/// `check FILE ANSWER HEIGHT`, where the first word is `check`.
fn check_of(words: &Words) -> Option<Command<'_>>
    requires { slice_get words.now 0 ≡ Some (codes "check") }
    ensures { MatchOption result ((file answer : List ℕ) (height : ℕ) → ¬ Asks words.now (check file answer height)) (λ command. Asks words.now (task_of command)) }
{
    let file = words.get(1)?;
    let answer = words.get(2)?;
    let height = numeral_between(words.get(3)?, 1, MAX_HEIGHT)?;
    if words.len() != 4 {
        return None;
    }
    Some(Command::Check(file, answer, height))
}

/// The number that a numeral between two numbers spells: `0`, or digits without a leading 0.
fn numeral_between(word: &str, low: u32, high: u32) -> Option<u32>
    ensures { MatchOption result ((n : ℕ) → low ≤ n → n ≤ high → word.now ≢ decimal n) (λ n. (low ≤ n) × (n ≤ high) × (word.now ≡ decimal n)) }
{
    let Ok(number) = word.parse::<u32>() else {
        return None;
    };
    if number < low || number > high || Buffer::new().format(number) != word {
        return None;
    }
    Some(number)
}
