//! The text of a problem file, judged as its bytes come in pieces.
ghost use Rattle.std.specs.Prelude.{◌≡◌, ◌+◌, ◌++◌, ◌<◌, ◌≤◌, ◌^◌, ℕ, List, [], Some, length, All, OnOk, option_map};
ghost use Rattle.sexpr_core.specs.declared.form.Sexpr.{Sexpr};
ghost use Rattle.sexpr_core.specs.Feeds.{Gave, StandsFor, bytes_fed};
ghost use Rattle.sexpr_core.specs.Sizes.{IsSmall};
ghost use Rattle.elab_core.specs.Elaborating.{fault_in, next};
ghost use Rattle.name_core.specs.States.{start};
ghost use Rattle.elab_core.specs.Feeding.{HasRoom, IsEnding, IsJudgement, IsJudging, IsRest};
ghost use Rattle.state_core.specs.Commands.{Outcome, stands};
ghost use Rattle.elab_core.specs.Judging.{after, cut_short};
ghost use Rattle.sort_core.specs.declared.error.ElabError.TheVariants as error;

use crate::elaborator::Elaborator;
use problem_core::Problem;
use sexpr_core::{FeedError, Forest, LexFault, Reader, Sexpr};
use sort_core::ElabError;
use std::alloc::{AllocError, Global};
use syntax_core::{Fault, refusal};

/// A problem file has at most so many bytes.
const MOST_BYTES: u32 = 1_048_576;

/// Judges the text of a problem file, as its bytes come in pieces. Each command is judged as soon as it is complete, and
/// its form is dropped.
#[derive(Drop)]
pub struct Judge {
    alloc: Global,
    reader: Reader,
    /// the forms that were read and aren't judged yet
    forms: Forest,
    elaborator: Elaborator,
    /// how many bytes were fed
    count: u32,
}

/// Reads a piece. After a lexical fault the complete forms before it were given.
fn read(reader: &mut Reader, piece: &[u8], forms: &mut Forest) -> Result<(), AllocError>
    requires { bytes_fed reader.old + length piece.now < 2 ^ 32 }
    ensures { OnOk result ((bytes : List ℕ) (given : List Sexpr) → StandsFor reader.old bytes given → Gave reader.new (bytes ++ piece.now) given forms.old forms.new) }
{
    match reader.feed(piece, forms) {
        Ok(()) | Err(FeedError::Lex(_)) => Ok(()),
        Err(FeedError::Memory) => Err(AllocError),
    }
}

/// Judges a form, which may be refused.
fn judge_one(elaborator: &mut Elaborator, form: &Sexpr) -> Result<(), AllocError>
    requires { IsSmall form.now }
    ensures { OnOk result (elaborator.new ≡ next elaborator.old form.now) }
{
    match elaborator.command(form) {
        Ok(()) | Err(ElabError::Fault(_)) => Ok(()),
        Err(ElabError::Memory) => Err(AllocError),
    }
}

/// Judges forms, one after the other.
fn judge_all(elaborator: &mut Elaborator, forms: &Forest) -> Result<(), AllocError>
    requires { All IsSmall forms.now }
    ensures { OnOk result (elaborator.new ≡ option_map (λ outcome. after outcome forms.now) elaborator.old) }
{
    for k in 0..forms.len() {
        if let Some(form) = forms.get(k) {
            judge_one(elaborator, form)?;
        }
    }
    Ok(())
}

/// Why a text is refused that has this lexical fault, after its complete forms.
fn cut_short(elaborator: &Elaborator, fault: LexFault) -> Fault
    ensures { (outcome : Outcome) → elaborator.now ≡ Some outcome → result ≡ cut_short fault.place fault.reason outcome }
{
    match elaborator.fault() {
        Some(earlier) => earlier,
        None => refusal(fault.place, fault.reason),
    }
}

impl Judge {
    /// No byte was fed yet.
    pub fn new(alloc: Global) -> Judge
        ensures { IsJudging result [] }
    {
        Judge {
            alloc,
            reader: Reader::new(alloc),
            forms: Forest::new(alloc),
            elaborator: Elaborator::new(alloc),
            count: 0,
        }
    }

    /// Takes the next piece of the text. A refusal is told at the end. After want of memory the judge can only be dropped.
    pub fn feed(&mut self, piece: &[u8]) -> Result<(), AllocError>
        requires { HasRoom self.old (length piece.now) }
        ensures { OnOk result ((bytes : List ℕ) → IsJudging self.old bytes → IsJudging self.new (bytes ++ piece.now)) }
    {
        read(&mut self.reader, piece, &mut self.forms)?;
        judge_all(&mut self.elaborator, &self.forms)?;
        self.forms = Forest::new(self.alloc);
        self.count += piece.len() as u32;
        Ok(())
    }

    /// The problem that the text states, or why it is refused: reason 50 at the byte past the greatest length, else the
    /// first refusal of a command, else the lexical fault, else reason 60 at the end where no `check-synth` came.
    pub fn finish(self) -> Result<Problem, ElabError>
        requires { HasRoom self 0 }
        ensures { (bytes : List ℕ) → IsJudging self bytes → IsJudgement bytes result }
    {
        if self.count > MOST_BYTES {
            return Err(too_long());
        }
        let Judge {
            alloc: _,
            reader,
            forms,
            elaborator,
            count,
        } = self;
        finish_short(reader, forms, elaborator, count)
    }
}

/// Why a text of too many bytes is refused.
fn too_long() -> ElabError
    ensures { result ≡ error.Fault (record { place = 1048576; reason = 50; limit = 1 }) }
{
    ElabError::Fault(Fault {
        place: MOST_BYTES,
        reason: 50,
        limit: 1,
    })
}

/// Judges the last forms of a text that is a spelling, or answers why it is refused that is none.
fn judge_rest(
    elaborator: &mut Elaborator,
    forms: &Forest,
    read: Result<(), FeedError>,
) -> Result<(), ElabError>
    requires { OnOk read (All IsSmall forms.now) }
    ensures { (outcome : Outcome) → elaborator.old ≡ Some outcome → IsRest read forms.now outcome elaborator.new result }
{
    match read {
        Ok(()) => Ok(judge_all(elaborator, forms)?),
        Err(FeedError::Lex(fault)) => Err(ElabError::Fault(cut_short(elaborator, fault))),
        Err(FeedError::Memory) => Err(ElabError::Memory),
    }
}

/// Judges what is left of a text that ends at this place, after these forms were judged.
fn finish_after(
    read: Result<(), FeedError>,
    forms: &Forest,
    elaborator: Elaborator,
    end: u32,
) -> Result<Problem, ElabError>
    requires { OnOk read (All IsSmall forms.now) }
    ensures { (outcome : Outcome) → elaborator ≡ Some outcome → IsEnding read forms.now end outcome result }
{
    let mut elaborator = elaborator;
    match judge_rest(&mut elaborator, forms, read) {
        Ok(()) => elaborator.finish(end),
        Err(error) => Err(error),
    }
}

/// Judges what is left of a text that isn't too long.
fn finish_short(
    reader: Reader,
    forms: Forest,
    elaborator: Elaborator,
    end: u32,
) -> Result<Problem, ElabError>
    requires { (bytes : List ℕ) × (given : List Sexpr) × StandsFor reader bytes given × (length bytes < 2 ^ 32) × (forms ≡ []) }
    ensures { (bytes : List ℕ) (given : List Sexpr) → StandsFor reader bytes given → end ≡ length bytes → length bytes ≤ 1048576 →
        forms ≡ [] → elaborator ≡ Some (after (stands start) given) → IsJudgement bytes result }
{
    let mut forms = forms;
    let read = reader.finish(&mut forms);
    finish_after(read, &forms, elaborator, end)
}
