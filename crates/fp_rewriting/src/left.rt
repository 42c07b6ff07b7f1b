//! Fuel, room and steps.
ghost use Rattle.std.specs.Prelude.{◌≡◌, IfOk, true, false};
ghost use Rattle.fp_rewriting.specs.Spending.{stepped, affords, paid, emptied};

use fp_term::{Term, nodes};
use std::alloc::AllocError;

/// What is left to spend, and how many steps were done.
#[derive(Clone, Copy)]
pub struct Left {
    /// So many contractions and uses of rules.
    pub fuel: u32,
    /// So many nodes of what they make.
    pub room: u32,
    /// So many entries into terms, into their parts first and then to rewrite them.
    pub steps: u64,
}

impl Left {
    /// One step more.
    pub fn stepped(self) -> Result<Left, AllocError>
        ensures { IfOk result (λ l. l ≡ stepped self) }
    {
        let steps = self.steps.checked_add(1).ok_or(AllocError)?;
        Ok(Left {
            fuel: self.fuel,
            room: self.room,
            steps,
        })
    }

    /// Is there fuel, and room for the result?
    pub fn affords(&self, made: &Term) -> bool
        ensures { result ≡ affords self.now made.now }
    {
        self.fuel != 0 && nodes(made) <= u64::from(self.room)
    }

    /// What is left once the result was made.
    pub fn paid(&self, made: &Term) -> Left
        requires { affords self.now made.now ≡ true }
        ensures { result ≡ paid self.now made.now }
    {
        Left {
            fuel: self.fuel.saturating_sub(1),
            room: self.room.saturating_sub(nodes(made) as u32),
            steps: self.steps,
        }
    }

    /// Nothing more is made.
    pub fn emptied(&self) -> Left
        ensures { result ≡ emptied self.now }
    {
        Left {
            fuel: 0,
            room: self.room,
            steps: self.steps,
        }
    }
}
