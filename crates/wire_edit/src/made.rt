//! The steps that a trial has made.
ghost use Rattle.std.specs.Prelude.{◌≡◌, ◌+◌, ◌≤◌, ◌<◌, ◌++◌, ◌∷◌, [], IfOk, length, true, false};
ghost use Rattle.wire_edit.specs.Tried.{StepList};

use crate::steps::Step;
use rm_base::NoMemory;
use std::alloc::Global;
use std::marker::Model;

// Steps, with room for more.
#[derive(Drop)]
pub(crate) struct Made {
    steps: Vec<Step>,
    spare: usize,
}

impl Model for Made {
    ghost use Rattle.wire_edit.specs.Tried.{StepList};

    ghost Value = { StepList };

    ghost use Rattle.std.specs.Prelude.{◌+◌, ◌≤◌, length, vec_capacity};

    ghost view = { λ m. record { steps = m.steps.items; spare = m.spare } };

    ghost invariant = { λ m. length m.steps.items + m.spare ≤ vec_capacity m.steps };
}

impl Made {
    // No steps, with room for so many.
    pub(crate) fn new(alloc: Global, steps: usize) -> Result<Made, NoMemory>
        ensures { IfOk result (λ m. m ≡ record { steps = []; spare = steps }) }
    {
        let mut list = Vec::new(alloc);
        match list.reserve(steps) {
            Ok(()) => Ok(Made {
                steps: list,
                spare: steps,
            }),
            Err(_) => Err(NoMemory),
        }
    }

    pub(crate) fn push(&mut self, step: Step)
        requires { 0 < self.old.spare }
        ensures steps { self.new.steps ≡ self.old.steps ++ step ∷ [] }
        ensures spare { self.new.spare + 1 ≡ self.old.spare }
    {
        match self.steps.push(step) {
            Ok(()) => self.spare -= 1,
            Err(_) => unreachable!(),
        }
    }

    pub(crate) fn steps(&self) -> &[Step]
        ensures { result.now ≡ self.now.steps }
    {
        self.steps.as_slice()
    }

    pub(crate) fn spare(&self) -> usize
        ensures { result ≡ self.now.spare }
    {
        self.spare
    }

    // Gives room for so many more steps, where the list has it, and tells whether it has.
    pub(crate) fn offer(&mut self, steps: usize) -> bool
        ensures given { result ≡ true → self.new ≡ record { steps = self.old.steps; spare = steps } }
        ensures refused { result ≡ false → self.new ≡ self.old }
    {
        if steps > self.steps.capacity() - self.steps.len() {
            return false;
        }
        self.spare = steps;
        true
    }

    // Forgets the steps, and gives their room back.
    pub(crate) fn give_back(&mut self)
        ensures { self.new ≡ record { steps = []; spare = self.old.spare + length self.old.steps } }
    {
        self.spare += self.steps.len();
        self.steps.clear();
    }
}
