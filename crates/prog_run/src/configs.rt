//! What a run gives: its configurations, and its end.

ghost use Rattle.std.specs.Prelude.{◌≡◌, ◌<◌, ◌∷◌, ◌++◌, [], Some, map, length, slice_get, OnOk, OnErr};
ghost use Rattle.prog_run.specs.Views.{config_of};

use crate::NoMemory;
use prog_tree::Numbers;
use std::alloc::Global;
use std::marker::Model;

/// Why a run ends. At each configuration the first of these that holds is its end.
#[derive(Clone, Copy, Debug, PartialEq, Eq)]
pub enum End {
    /// No statement is left.
    Finished,
    /// As many steps were taken as were asked for.
    TurnsSpent,
    /// The next step needs a choice, and none is left.
    OutOfChoices,
    /// The condition of an `assume` is false.
    AssumeFailed,
}

/// A configuration of a run: which statement is next, and the state.
#[derive(Drop)]
pub struct Config {
    /// The number of the statement that is next; none at the end of the program.
    pub point: Option<u32>,
    /// The numbers of the variables.
    pub state: Numbers,
}

/// A list of configurations.
#[derive(Drop)]
pub struct Configs {
    items: Vec<Config>,
}

impl Model for Configs {
    ghost use Rattle.std.specs.Prelude.{List, map};
    ghost use Rattle.prog_run.specs.Shown.{Shown};
    ghost use Rattle.prog_run.specs.Views.{config_of};

    ghost Value = { List Shown };

    ghost view = { λ c. map config_of c.items.items };
}

impl Configs {
    /// No configuration.
    pub fn new(alloc: Global) -> Configs
        ensures { result ≡ [] }
    {
        Configs {
            items: Vec::new(alloc),
        }
    }

    /// Appends a configuration. Want of memory leaves the list as it was.
    pub fn push(&mut self, item: Config) -> Result<(), NoMemory>
        ensures added { OnOk result (self.new ≡ self.old ++ config_of item ∷ []) }
        ensures unchanged { OnErr result (self.new ≡ self.old) }
    {
        self.items.push(item)?;
        Ok(())
    }

    /// The number of configurations.
    pub fn len(&self) -> usize
        ensures { result ≡ length self.now }
    {
        self.items.len()
    }

    /// The configuration at a place, from 0.
    pub fn get(&self, k: usize) -> &Config
        requires { k < length self.now }
        ensures { slice_get self.now k ≡ Some (config_of result.now) }
    {
        &self.items[k]
    }

    /// The configurations in order.
    pub fn as_slice(&self) -> &[Config]
        ensures { map config_of result.now ≡ self.now }
    {
        self.items.as_slice()
    }
}

/// A run: its configurations, from the start on, and its end.
#[derive(Drop)]
pub struct Traced {
    /// The first has the state of the start, and each other one follows the one before it by a step; there is at least
    /// one.
    pub configs: Configs,
    /// Why no step follows the last of them.
    pub ended: End,
}
