ghost use Rattle.std.specs.Prelude.{◌≡◌, [], ◌∷◌, ◌++◌, ◌<◌, length, slice_get, MatchOption, OnOk, OnErr, OnSome};
ghost use Rattle.std.specs.Option.{option_copied};

use crate::form::{Forms, Sexpr};
use std::alloc::{AllocError, Global};
use std::collections::VecDeque;
use std::marker::Model;

/// The forms of a text, in order. Forms are added last and taken off first.
#[derive(Debug, Drop)]
pub struct Forest {
    forms: VecDeque<Sexpr>,
}

impl Model for Forest {
    ghost use Rattle.std.specs.Prelude.{List};
    ghost use Rattle.sexpr_core.specs.declared.form.Sexpr.{Sexpr};
    ghost use Rattle.sexpr_core.specs.contracts.form.Sexpr as sexpr;
    ghost use Rattle.std.specs.Coded.{codes};

    ghost Value = { List Sexpr };

    ghost coded = { Prim.hlevel (codes, sexpr.the_row.coded) };

    ghost view = { λ forest. forest.forms.items };
}

impl Forest {
    /// No form.
    pub fn new(alloc: Global) -> Forest
        ensures { result ≡ [] }
    {
        Forest {
            forms: VecDeque::new(alloc),
        }
    }

    /// These forms, without a walk over them.
    pub(crate) fn of(forms: Forms) -> Forest
        ensures { result ≡ forms }
    {
        Forest {
            forms: VecDeque::from_vec(forms.into_vec()),
        }
    }

    pub fn len(&self) -> usize
        ensures { result ≡ length self.now }
    {
        self.forms.len()
    }

    pub fn get(&self, k: usize) -> Option<&Sexpr>
        ensures value { option_copied result ≡ slice_get self.now k }
        ensures within { OnSome result (k < length self.now) }
    {
        self.forms.get(k)
    }

    /// Takes the first form off.
    pub fn take_first(&mut self) -> Option<Sexpr>
        ensures { MatchOption result ((self.old ≡ []) × (self.new ≡ [])) (λ first. self.old ≡ first ∷ self.new) }
    {
        self.forms.pop_front()
    }

    /// Puts a form last.
    pub fn push(&mut self, form: Sexpr) -> Result<(), AllocError>
        ensures ok { OnOk result (self.new ≡ self.old ++ form ∷ []) }
        ensures err { OnErr result (self.new ≡ self.old) }
    {
        self.forms.push_back(form)?;
        Ok(())
    }
}
