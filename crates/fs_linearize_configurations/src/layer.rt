//! Layers of the search.

ghost use Rattle.std.specs.Prelude.{◌≡◌, ◌↔◌, true, [], length, Contains, OnOk};
ghost use Rattle.fs_linearize_histories.specs.Apart.{AreApart};
ghost use Rattle.fs_linearize_configurations.specs.code.Ways.{configurations};
ghost use Rattle.fs_linearize_configurations.specs.code.Searching.{AddsIfNew};

use crate::chains::Chains;
use crate::configuration::Configuration;
use crate::reached::Reached;
use std::alloc::{AllocError, Global};
use std::marker::Model;

/// What was reached before an entry, each configuration once. It is found again by the key of the calls that it holds.
#[derive(Drop)]
pub struct Layer {
    reached: Vec<Reached>,
    chains: Chains,
}

impl Model for Layer {
    ghost use Rattle.std.specs.Prelude.{List};
    ghost use Rattle.fs_linearize_configurations.specs.declared.reached.Reached.{Reached as Way};

    ghost Value = { List Way };

    ghost use Rattle.fs_linearize_configurations.specs.code.Layers.{IsLayer};

    ghost view = { λ l. l.reached.items };

    ghost invariant = { IsLayer };
}

impl Layer {
    /// Nothing yet.
    pub fn new(alloc: Global) -> Self
        ensures { result ≡ [] }
    {
        Layer {
            reached: Vec::new(alloc),
            chains: Chains::new(alloc),
        }
    }

    /// How many configurations there are.
    pub fn len(&self) -> usize
        ensures { result ≡ length self.now }
    {
        self.reached.len()
    }

    /// All that was reached, to look at.
    pub fn as_slice(&self) -> &[Reached]
        ensures { result.now ≡ self.now }
    {
        self.reached.as_slice()
    }

    /// All that was reached, to take.
    pub fn into_reached(self) -> Vec<Reached>
        ensures { result.items ≡ self }
    {
        self.reached
    }

    /// No configuration is there twice.
    pub fn is_apart(&self)
        ensures { AreApart (configurations self.now) }
    {
        let _reached = &self.reached;
    }

    /// Whether a configuration is there.
    pub fn contains(&self, x: &Configuration) -> bool
        ensures { result ≡ true ↔ Contains (configurations self.now) x.now }
    {
        let mut next = self.chains.last(x.key());
        while let Some(place) = next {
            if self.reached[place].configuration.same(x) {
                return true;
            }
            next = self.chains.before(place);
        }
        false
    }

    /// Adds what was reached, if its configuration is not there.
    pub fn add(&mut self, reached: Reached) -> Result<(), AllocError>
        ensures { OnOk result (AddsIfNew reached self.old self.new) }
    {
        if self.contains(&reached.configuration) {
            return Ok(());
        }
        self.reached.reserve(1)?;
        self.chains.push(reached.configuration.key())?;
        self.reached.push(reached)?;
        Ok(())
    }
}
