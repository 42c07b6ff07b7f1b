//! Rules by the constant at their head.
ghost use Rattle.std.specs.Prelude.{◌≡◌, [], ◌∷◌, ◌++◌, ◌+◌, ◌*◌, ◌%◌, IfOk, OnOk};
ghost use Rattle.fp_term.specs.Names.{name_hash};
ghost use Rattle.fp_rewriting.specs.Candidates.{head_constant};
ghost use Rattle.fp_rewriting.specs.Index.{Tree, tip, fork, sought, with_rule, with_rule_of, with_rules};

use crate::rule::{Rule, head_constant};
use fp_term::{Items, Name};
use std::alloc::{AllocError, Global};
use std::marker::Model;

// How many levels an index has at most. Only names with one hash need many.
const ROOM: u32 = 4000;

/// Rules by the constant at the head of their left side. The bits of a name's hash lead the way, the lowest first.
#[cycle(index)]
#[derive(Drop)]
pub(crate) struct Index {
    branch: Branch,
}

#[cycle(index)]
#[derive(Drop)]
enum Branch {
    Tip,
    Fork {
        head: Name,
        rules: Items<Rule>,
        zero: Box<Index>,
        one: Box<Index>,
    },
}

impl Model for Index {
    ghost use Rattle.fp_rewriting.specs.Index.{Tree, tree_size, coded_tree};

    ghost Value = { Tree };

    ghost coded = { coded_tree };

    ghost use Rattle.fp_rewriting.specs.IndexView.{seen_tree};

    ghost view = { λ t. seen_tree t.branch };

    ghost size = { tree_size };

    ghost use Rattle.std.proofs.Common.{arith};

    ghost size_decreases = { λ a h. Prim.grind arith };
}

// The hash of a longer name, from that of the name before the byte.
fn hashed_on(hash: u32, byte: u8) -> u32
    ensures { result ≡ (hash * 131 + byte) % 4294967296 }
{
    ((u64::from(hash) * 131 + u64::from(byte)) % 4294967296) as u32
}

fn hash_of(name: &Name) -> u32
    ensures { result ≡ name_hash name.now }
{
    let mut hash = 1;
    for byte in name.as_slice() {
        hash = hashed_on(hash, *byte);
    }
    hash
}

fn push_copy(alloc: Global, rules: &mut Items<Rule>, rule: &Rule) -> Result<(), AllocError>
    ensures { OnOk result (rules.new ≡ rules.old ++ rule.now ∷ []) }
{
    rules.push(rule.copy(alloc)?)
}

impl Index {
    fn tip() -> Index
        ensures { result ≡ tip }
    {
        Index {
            branch: Branch::Tip,
        }
    }

    fn leaf(alloc: Global, head: &Name, rule: &Rule) -> Result<Index, AllocError>
        ensures { IfOk result (λ t. t ≡ fork head.now (rule.now ∷ []) tip tip) }
    {
        let mut rules = Items::new(alloc);
        push_copy(alloc, &mut rules, rule)?;
        let zero = Box::new(alloc, Index::tip())?;
        let one = Box::new(alloc, Index::tip())?;
        Ok(Index {
            branch: Branch::Fork {
                head: head.copy()?,
                rules,
                zero,
                one,
            },
        })
    }

    // The rules that stand with the name of that hash.
    fn sought(&self, hash: u32, name: &Name) -> &[Rule]
        ensures { result.now ≡ sought hash name.now self.now }
    {
        match &self.branch {
            Branch::Tip => &[],
            Branch::Fork {
                head,
                rules,
                zero,
                one,
            } => {
                if head.equals(name) {
                    rules.as_slice()
                } else if hash % 2 == 0 {
                    zero.sought(hash / 2, name)
                } else {
                    one.sought(hash / 2, name)
                }
            }
        }
    }

    // One rule more for the name of that hash, if there are no more levels than there is room for.
    fn insert(
        &mut self,
        alloc: Global,
        room: u32,
        hash: u32,
        name: &Name,
        rule: &Rule,
    ) -> Result<(), AllocError>
        ensures { OnOk result (self.new ≡ with_rule hash name.now rule.now self.old) }
    {
        if room == 0 {
            return Err(AllocError);
        }
        match &mut self.branch {
            Branch::Tip => {
                *self = Index::leaf(alloc, name, rule)?;
                Ok(())
            }
            Branch::Fork {
                head,
                rules,
                zero,
                one,
            } => {
                if head.equals(name) {
                    push_copy(alloc, rules, rule)
                } else if hash % 2 == 0 {
                    zero.insert(alloc, room - 1, hash / 2, name, rule)
                } else {
                    one.insert(alloc, room - 1, hash / 2, name, rule)
                }
            }
        }
    }

    fn add(&mut self, alloc: Global, rule: &Rule) -> Result<(), AllocError>
        ensures { OnOk result (self.new ≡ with_rule_of (head_constant rule.now.lhs) rule.now self.old) }
    {
        match head_constant(&rule.lhs) {
            Some(head) => self.insert(alloc, ROOM, hash_of(head), head, rule),
            None => Ok(()),
        }
    }

    /// The rules, each by the constant at its head.
    pub(crate) fn of(alloc: Global, rules: &[Rule]) -> Result<Index, AllocError>
        ensures { IfOk result (λ t. t ≡ with_rules rules.now tip) }
    {
        let mut index = Index::tip();
        for rule in rules {
            index.add(alloc, rule)?;
        }
        Ok(index)
    }

    /// The rules with that constant at their head, in their order.
    pub(crate) fn find(&self, name: &Name) -> &[Rule]
        ensures { result.now ≡ sought (name_hash name.now) name.now self.now }
    {
        self.sought(hash_of(name), name)
    }
}
