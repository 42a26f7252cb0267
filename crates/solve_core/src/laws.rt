ghost use Rattle.grammar_core.specs.Languages.{IsGrammarOf};
ghost use Rattle.problem_core.specs.Problems.{Parts};
ghost use Rattle.solve_core.specs.Pruning.{AlikeLeadersAmongCandidates, AlikeLeadersAnswer, FirstIsLeader, IsFit, LeadersAnswer, OneAlikeLooks, SoundIsFit};
ghost use Rattle.solve_core.specs.Searching.{FoundIsFirst, NoneFoundIsNone};
ghost use Rattle.eval_core.specs.ShiftExample.{shift_problem};

use lens_core::Lens;

/// For each lens: where terms with equal marks solve alike, the first solution is a leader of the start, and the first
/// solution among the leaders is the answer.
pub fn leaders_answer<L: Lens>(_lens: &L)
    ensures first { (problem : Parts) → FirstIsLeader problem (L.same_mark _lens.now) }
    ensures answer { (problem : Parts) → L.is_for _lens.now problem.signature → IsGrammarOf problem.signature problem.grammar
        → LeadersAnswer problem (L.same_mark _lens.now) }
{}

/// Leaders by alikeness: the search among them finds the answer, they are those candidates, made from leaders at places
/// that hand on, that no leader before them is alike to, and there is one number of looks up to each size.
pub fn alike_leaders()
    ensures answer { AlikeLeadersAnswer }
    ensures candidates { AlikeLeadersAmongCandidates }
    ensures looks { OneAlikeLooks }
{}

/// For each lens: of a search by size through the leaders of the start, the first that solves, of the least size that has
/// one, is the first solution among them, and where no size within the bound has one, none of them is a solution.
pub fn search_laws<L: Lens>(_lens: &L)
    ensures found { (problem : Parts) → FoundIsFirst problem (L.same_mark _lens.now) }
    ensures none { (problem : Parts) → NoneFoundIsNone problem (L.same_mark _lens.now) }
{}

/// The parts of a problem are fit.
pub fn sound_is_fit()
    ensures { SoundIsFit }
{}

/// An example: the problem of shifts is fit.
pub fn fit_example()
    ensures { IsFit shift_problem }
{}
