//! One command after what has been stated.
ghost use Rattle.std.specs.Prelude.{◌≡◌, [], ◌∷◌, ◌++◌, Ok, Err, true, IsTrue, is_some, IfOk, IfErr, OnOk};
ghost use Rattle.std.specs.Option.{option_map_or};
ghost use Rattle.state_core.specs.Commands.{command_fault, judged, may_come};
ghost use Rattle.making_core.specs.Making.{info_of, added};
ghost use Rattle.making_core.specs.Soundness.{IsSoundState};
ghost use Rattle.sexpr_core.specs.declared.form.Sexpr.{Sexpr};
ghost use Rattle.syntax_core.specs.declared.commands.Head.TheVariants.{SetInfo, CheckSynth};

use crate::stated::StatedParts;
use items::at;
use problem_core::Info;
use sexpr_core::{Sexpr, parts_of, print};
use sig_core::Bytes;
use std::alloc::{AllocError, Global};
use syntax_core::{Fault, Head, first_item, head_named, refusal};

impl StatedParts {
    /// The command that the form begins: reason 10 for a form that is no list with a symbol first, 11 at an unknown word,
    /// 12 for a command out of order.
    pub(crate) fn head_of(&self, form: &Sexpr) -> Result<Head, Fault>
        ensures refused { IfErr result (λ fault. judged self.now form.now ≡ Err fault) }
        ensures come { IfOk result (λ head. may_come self.now head ≡ true) }
        ensures judged { IfOk result (λ head. judged self.now form.now ≡ option_map_or Err (command_fault self.now head form.now) (Ok head)) }
    {
        let Some(first) = first_item(form) else {
            return Err(refusal(form.place(), 10));
        };
        let Some(name) = first.symbol() else {
            return Err(refusal(form.place(), 10));
        };
        let Some(head) = head_named(name) else {
            return Err(refusal(first.place(), 11));
        };
        if self.may_come(head) {
            Ok(head)
        } else {
            Err(refusal(form.place(), 12))
        }
    }

    /// Adds the information of a `set-info`.
    pub(crate) fn add_info(&mut self, alloc: Global, form: &Sexpr) -> Result<(), AllocError>
        ensures added { OnOk result (self.new ≡ added self.old SetInfo form.now) }
        ensures sound { IsSoundState self.old → OnOk result (IsSoundState self.new) }
    {
        self.infos.push(info_of(alloc, form)?)?;
        Ok(())
    }

    /// Takes a `check-synth`.
    pub(crate) fn end(&mut self)
        requires { IsTrue (is_some self.old.wanted) }
        ensures added { (form : Sexpr) → self.new ≡ added self.old CheckSynth form }
        ensures sound { IsSoundState self.old → IsSoundState self.new }
    {
        self.is_over = true;
    }
}

/// The name of the keyword in place 1 of a form; none where it is no keyword.
fn key_of(alloc: Global, form: &Sexpr) -> Result<Bytes, AllocError>
    ensures { IfOk result (λ key. key ≡ (info_of form.now).key) }
{
    let mut key = Bytes::new(alloc);
    if let Some(item) = at(parts_of(form), 1) {
        if let Some(name) = item.keyword() {
            key.append(name)?;
        }
    }
    Ok(key)
}

/// The canonical spelling of the form in place 2; empty where there is none.
fn text_of_value(alloc: Global, form: &Sexpr) -> Result<Bytes, AllocError>
    ensures { IfOk result (λ text. text ≡ (info_of form.now).value) }
{
    let mut text = Bytes::new(alloc);
    if let Some(value) = at(parts_of(form), 2) {
        print(value, &mut text)?;
    }
    Ok(text)
}

/// `(set-info K)` or `(set-info K V)`
fn info_of(alloc: Global, form: &Sexpr) -> Result<Info, AllocError>
    ensures { IfOk result (λ info. info ≡ info_of form.now) }
{
    Ok(Info {
        key: key_of(alloc, form)?,
        value: text_of_value(alloc, form)?,
    })
}
