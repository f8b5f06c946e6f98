//! Configurations of the search.

ghost use Rattle.std.specs.Prelude.{◌≡◌, ◌↔◌, true, IfOk};
ghost use Rattle.fs_calls.specs.Starts.{start_tree};
ghost use Rattle.fs_linearize_histories.specs.Configurations as specs;
ghost use Rattle.fs_linearize_histories.specs.Meeting.{HasRoom};
ghost use Rattle.fs_linearize_configurations.specs.code.Keys.{key_of};

use crate::{chains, numbers};
use fs_linearize_flat::FlatTree;
use fs_seq::SeqTree;
use std::alloc::{AllocError, Global};
use std::marker::Model;

/// How many entries have passed, the tree, and which calls are committed and have not returned.
#[derive(Drop)]
pub struct Configuration {
    pub at: usize,
    pub tree: FlatTree,
    pub held: Vec<u64>,
}

impl Model for Configuration {
    ghost use Rattle.fs_linearize_histories.specs.Configurations as specs;

    ghost Value = { specs.Configuration };

    ghost view = { λ x. record { at = x.at; now = x.tree; held = x.held.items } };
}

impl Configuration {
    /// Before the first entry, from a start tree.
    pub fn start(alloc: Global, start: &SeqTree) -> Result<Self, AllocError>
        ensures { IfOk result (λ x. x ≡ specs.at_start start.now) }
    {
        Ok(Configuration {
            at: 0,
            tree: FlatTree::of(alloc, start)?,
            held: Vec::new(alloc),
        })
    }

    /// How many entries have passed.
    pub fn passed_count(&self) -> usize
        ensures { result ≡ self.now.at }
    {
        self.at
    }

    /// Whether a call is committed and has not returned.
    pub fn holds(&self, number: u64) -> bool
        ensures { result ≡ specs.is_in number self.now.held }
    {
        numbers::is_in(&self.held, number)
    }

    /// Whether so many calls more were found to fill no directory, whatever they add.
    pub fn has_room(&self, calls: usize) -> bool
        ensures { result ≡ true → HasRoom self.now.now.limits calls (start_tree self.now.now) }
    {
        let most = self.tree.limits().entries();
        calls <= most && self.tree.len() <= most - calls
    }

    /// The same configuration again.
    pub fn copy(&self, alloc: Global) -> Result<Self, AllocError>
        ensures { IfOk result (λ x. x ≡ self.now) }
    {
        Ok(Configuration {
            at: self.at,
            tree: self.tree.copy()?,
            held: Vec::from_slice(alloc, &self.held)?,
        })
    }

    /// A key of the calls that it holds.
    pub fn key(&self) -> u64
        ensures { result ≡ key_of self.now.held }
    {
        chains::key_of(&self.held)
    }

    /// A number made of it: mostly another for another configuration.
    pub fn mark(&self) -> u64 {
        let of_tree = chains::mixed(self.tree.mark(), self.at as u64);
        chains::mixed(of_tree, self.key())
    }

    /// Whether both are the same.
    pub fn same(&self, other: &Configuration) -> bool
        ensures { result ≡ true ↔ self.now ≡ other.now }
    {
        if self.at != other.at || self.held != other.held {
            return false;
        }
        self.tree.same(&other.tree)
    }

    /// A call is committed that leaves the tree as it is.
    pub fn hold(self, alloc: Global, number: u64) -> Result<Self, AllocError>
        ensures { IfOk result (λ x. x ≡ record self { held = specs.placed number self.held }) }
    {
        Ok(Configuration {
            at: self.at,
            tree: self.tree,
            held: numbers::with(alloc, &self.held, number)?,
        })
    }

    /// A call begins, with which so many entries have passed.
    pub fn passed(self, at: usize) -> Self
        ensures { result ≡ record self { at = at } }
    {
        Configuration {
            at,
            tree: self.tree,
            held: self.held,
        }
    }

    /// A call returns, with which so many entries have passed.
    pub fn returned(self, alloc: Global, number: u64, at: usize) -> Result<Self, AllocError>
        ensures { IfOk result (λ x. x ≡ record self { at = at; held = specs.without number self.held }) }
    {
        Ok(Configuration {
            at,
            tree: self.tree,
            held: numbers::without(alloc, &self.held, number)?,
        })
    }
}
