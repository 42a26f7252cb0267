ghost use Rattle.std.specs.Prelude.{◌≡◌, ◌<◌, IfOk, None, length, replicate, slice_set};

use items::at;
use sig_core::Value;
use std::alloc::{AllocError, Global};
use std::marker::Model;

/// The values of a rule's slots while the rule is run. A slot may be empty.
#[derive(Debug, Drop)]
pub struct Env {
    slots: Vec<Option<Value>>,
}

impl Model for Env {
    ghost use Rattle.std.specs.Prelude.{List, Option};
    ghost use Rattle.sig_core.specs.declared.value.Value.{Value as SlotValue};

    ghost Value = { List (Option SlotValue) };

    ghost view = { λ env. env.slots.items };
}

impl Env {
    ghost use Rattle.expr_core.specs.Expressions.{look};

    /// So many slots, each empty.
    pub fn new(alloc: Global, len: usize) -> Result<Self, AllocError>
        ensures { IfOk result (λ env. env ≡ replicate len None) }
    {
        let slots = vec![in alloc; None; len]?;
        Ok(Env { slots })
    }

    /// Fills the slot, or empties it.
    pub fn set(&mut self, slot: u8, value: Option<Value>)
        requires { slot < length self.old }
        ensures { self.new ≡ slice_set self.old slot value }
    {
        self.slots[usize::from(slot)] = value;
    }

    /// The slot's value; none where the slot is empty and where there is no such slot.
    pub fn get(&self, slot: u8) -> Option<Value>
        ensures { result ≡ look self.now slot }
    {
        match at(self.slots.as_slice(), usize::from(slot)) {
            Some(value) => *value,
            None => None,
        }
    }
}
