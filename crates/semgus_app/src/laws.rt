//! What holds of the definitions.
ghost use Rattle.std.specs.Prelude.{◌≡◌, ℕ, List, Some};
ghost use Rattle.semgus_app.specs.Dues.{IsDue};
ghost use Rattle.semgus_app.specs.Files.{Inputs};
ghost use Rattle.semgus_app.specs.Lines.{line_of};
ghost use Rattle.semgus_app.specs.Tasks.{Task, Asks};
ghost use Rattle.semgus_app.specs.declared.status.Status.{Status};

/// One status is due for a task and the bytes of its files, and one text where the status has a fixed line.
pub fn one_status()
    ensures status { (inputs : Inputs) (task : Task) (state other : Status) (text more : List ℕ) →
        IsDue inputs task state text → IsDue inputs task other more → state ≡ other }
    ensures text { (inputs : Inputs) (task : Task) (state : Status) (text : List ℕ) →
        IsDue inputs task state text → (line : List ℕ) → line_of state ≡ Some line → text ≡ line }
{}

/// Words ask for one task at most.
pub fn one_task()
    ensures { (words : List (List ℕ)) (task other : Task) → Asks words task → Asks words other → task ≡ other }
{}
