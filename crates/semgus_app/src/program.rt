ghost use Rattle.std.specs.Prelude.{◌≡◌, ◌≢◌, ◌+◌, ◌<◌, ◌≤◌, ◌⊎◌, ℕ, List, Some, None, Ok, IsTrue, take};
ghost use Rattle.std.specs.Option.{ForSome};
ghost use Rattle.grammar_core.specs.Grammars.{Lang, start};
ghost use Rattle.problem_core.specs.Problems.{Parts, IsAnswer, Solves};
ghost use Rattle.problem_core.specs.Texts.{problem_text};
ghost use Rattle.answer_core.specs.Readings.{TreeAnswer};
ghost use Rattle.semgus_io.specs.Counts.{Rises, Stays};
ghost use Rattle.semgus_io.specs.Writes.{Grows};
ghost use Rattle.solution_core.specs.Answers.{IsAnswerText};
ghost use Rattle.checking_core.specs.Checks.{Reads};
ghost use Rattle.semgus_app.specs.Dues.{IsDue};
ghost use Rattle.semgus_app.specs.Files.{Inputs, AreTold, Tell, IsReached};
ghost use Rattle.semgus_app.specs.Lines.{bad_words_line, cannot_open_line, read_fault_line, none_line, valid_line, line_of};
ghost use Rattle.semgus_app.specs.Outputs.{IsOutput, IsPrinted, NoneRose};
ghost use Rattle.elab_core.specs.Judging.{Judges};
ghost use Rattle.semgus_app.specs.Statuses.{IsJudged};
ghost use Rattle.semgus_app.specs.Tasks.{Task, NamedFile, Asks, HaveNoForm, solve, show, check, most_taken, problem_file, second_file};

use crate::command::command_of;
use crate::status::Status;
use crate::task::output_of;
use semgus_io::{Files, Sink, Words, put_all};
use std::alloc::Global;

/// Does what the words ask for. All lines go to the sink and end with LF.
///
/// The words are judged first. Then the problem file is begun and read to its end or to the byte past its limit, and
/// judged as its bytes come; a refusal is told only then. A second file is begun only after the problem was accepted.
/// The whole output is built before the first write.
pub fn run<F: Files, S: Sink>(alloc: Global, words: &Words, files: &mut F, out: &mut S) -> Status
    // Words that have none of the forms touch no file, and have their line printed.
    ensures bad_words { HaveNoForm words.now → (files.new ≡ files.old)
        × IsPrinted result (S.faults out.old) (S.faults out.new) (S.written out.old) (S.written out.new) Status.BadWords bad_words_line }
    ensures bad_words_only { result ≡ Status.BadWords → HaveNoForm words.now }

    // Others have the output of their task printed: what is due for the bytes that were read, or the line of the call
    // that failed. Where a write failed, a first part of it was printed.
    ensures output { (task : Task) → Asks words.now task → (result ≡ Status.Memory) ⊎ ((state : Status) × (text : List ℕ)
        × IsOutput (F.held files.old) (F.steady files.old) (F.open_faults files.old) (F.open_faults files.new) (F.read_faults files.old) (F.read_faults files.new) task state text
        × IsPrinted result (S.faults out.old) (S.faults out.new) (S.written out.old) (S.written out.new) state text) }

    // A status whose line is fixed has it printed, whatever the files tell.
    ensures line { ForSome (line_of result) (λ line. Grows (S.written out.old) (S.written out.new) line) }

    // Want of memory leaves the sink as it was.
    ensures memory { result ≡ Status.Memory → (S.written out.new ≡ S.written out.old) × (S.faults out.new ≡ S.faults out.old) }

    ensures read_at_most { F.taken files.new ≤ F.taken files.old + (1048577 + 8388609) }
    ensures taken { (task : Task) → Asks words.now task → F.taken files.new ≤ F.taken files.old + most_taken task }
    ensures held { F.held files.new ≡ F.held files.old }
    ensures steady { F.steady files.new ≡ F.steady files.old }

    // Each other status comes only where no call failed and it is the due one, with its output written whole.
    ensures due { IsJudged result → NoneRose (F.open_faults files.old) (F.open_faults files.new) (F.read_faults files.old) (F.read_faults files.new) (S.faults out.old) (S.faults out.new)
        × ((task : Task) (inputs : Inputs) → Asks words.now task → Tell (F.held files.old) task inputs →
        (text : List ℕ) × IsDue inputs task result text × Grows (S.written out.old) (S.written out.new) text) }

    // The due one comes, or `Memory`, where no count rose, or the files are steady and no count of writes rose.
    ensures complete { (task : Task) (inputs : Inputs) → Asks words.now task → Tell (F.held files.old) task inputs →
        (Stays (F.open_faults files.old) (F.open_faults files.new) × Stays (F.read_faults files.old) (F.read_faults files.new)) ⊎ IsTrue (F.steady files.old) →
        Stays (S.faults out.old) (S.faults out.new) →
        (result ≡ Status.Memory) ⊎ ((text : List ℕ) × IsDue inputs task result text × Grows (S.written out.old) (S.written out.new) text) }

    // The headline. The printed term is the first, in order of size, of the grammar's terms for which every constraint
    // has a derivation within the height, and valid derivations are printed; `none` is printed where there is no such term.
    ensures found { result ≡ Status.Found → (file bytes : List ℕ) (height size : ℕ) → Asks words.now (solve file height size) → F.held files.old file ≡ Some (Some bytes) →
        (problem : Parts) × (text : List ℕ) × Judges (take 1048577 bytes) (Ok problem)
        × IsAnswerText problem height size text × Grows (S.written out.old) (S.written out.new) text }
    ensures no_term { result ≡ Status.NoTerm → (file bytes : List ℕ) (height size : ℕ) → Asks words.now (solve file height size) → F.held files.old file ≡ Some (Some bytes) →
        (problem : Parts) × Judges (take 1048577 bytes) (Ok problem)
        × IsAnswer problem height size None × Grows (S.written out.old) (S.written out.new) none_line }

    // What is shown is the canonical text of the problem.
    ensures shown { result ≡ Status.Shown → (file bytes : List ℕ) → Asks words.now (show file) → F.held files.old file ≡ Some (Some bytes) →
        (problem : Parts) × Judges (take 1048577 bytes) (Ok problem) × Grows (S.written out.old) (S.written out.new) (problem_text problem) }

    // The term of a valid answer is in the language and solves the problem within the height.
    ensures valid { result ≡ Status.Valid → (file name bytes text : List ℕ) (height : ℕ) → Asks words.now (check file name height) →
        F.held files.old file ≡ Some (Some bytes) → F.held files.old name ≡ Some (Some text) →
        (problem : Parts) × (answer : TreeAnswer) × Judges (take 1048577 bytes) (Ok problem) × Reads problem (take 8388609 text) (Ok answer)
        × Lang problem.grammar start answer.term × Solves problem height answer.term × Grows (S.written out.old) (S.written out.new) valid_line }

    // Each fault comes only where its count rose, with the line that it prints.
    ensures cannot_open { result ≡ Status.CannotOpen → Rises (F.open_faults files.old) (F.open_faults files.new)
        × (F.read_faults files.new ≡ F.read_faults files.old) × (S.faults out.new ≡ S.faults out.old)
        × ((task : Task) → Asks words.now task → (file : NamedFile) × IsReached (F.held files.old) task file
        × (IsTrue (F.steady files.old) → F.held files.old file.name ≡ Some None) × Grows (S.written out.old) (S.written out.new) (cannot_open_line file.name)) }
    ensures read_fault { result ≡ Status.ReadFault → Rises (F.read_faults files.old) (F.read_faults files.new)
        × (F.open_faults files.new ≡ F.open_faults files.old) × (S.faults out.new ≡ S.faults out.old)
        × (¬ IsTrue (F.steady files.old)) × Grows (S.written out.old) (S.written out.new) read_fault_line }
    ensures write_fault { result ≡ Status.WriteFault → Rises (S.faults out.old) (S.faults out.new) }

    // The counts decide the status.
    ensures write_fault_counts { S.faults out.old < S.faults out.new → result ≡ Status.WriteFault }
    ensures read_fault_counts { F.read_faults files.old < F.read_faults files.new →
        (result ≡ Status.ReadFault) ⊎ ((result ≡ Status.WriteFault) ⊎ (result ≡ Status.Memory)) }
    ensures open_fault_counts { F.open_faults files.old < F.open_faults files.new →
        (result ≡ Status.CannotOpen) ⊎ ((result ≡ Status.WriteFault) ⊎ (result ≡ Status.Memory)) }
    ensures not_held { (task : Task) (file : NamedFile) → Asks words.now task → problem_file task ≡ Some file → F.held files.old file.name ≡ Some None →
        (result ≡ Status.CannotOpen) ⊎ ((result ≡ Status.WriteFault) ⊎ (result ≡ Status.Memory)) }

    ensures second_not_held { (task : Task) (file next : NamedFile) (bytes : List ℕ) (problem : Parts) → Asks words.now task →
        problem_file task ≡ Some file → AreTold (F.held files.old) file bytes → Judges bytes (Ok problem) →
        second_file task ≡ Some next → F.held files.old next.name ≡ Some None → Stays (F.read_faults files.old) (F.read_faults files.new) →
        (result ≡ Status.CannotOpen) ⊎ ((result ≡ Status.WriteFault) ⊎ (result ≡ Status.Memory)) }

    // Steady files that hold what the task names can be opened.
    ensures steady_opens { (task : Task) (inputs : Inputs) → Asks words.now task → Tell (F.held files.old) task inputs → IsTrue (F.steady files.old) → result ≢ Status.CannotOpen }
{
    let Some(command) = command_of(words) else {
        return put_text(out, b"bad words\n", Status::BadWords);
    };
    match output_of(alloc, &command, files) {
        Ok(due) => put_text(out, due.text.as_slice(), due.status),
        Err(_) => Status::Memory,
    }
}

/// Prints a text, and answers the status, or that a write failed.
fn put_text<S: Sink>(out: &mut S, text: &[u8], status: Status) -> Status
    ensures { IsPrinted result (S.faults out.old) (S.faults out.new) (S.written out.old) (S.written out.new) status text.now }
{
    match put_all(out, text) {
        Ok(()) => status,
        Err(_) => Status::WriteFault,
    }
}
