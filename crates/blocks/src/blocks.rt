// The blocks of a text under its decorations.
ghost use Rattle.std.specs.Prelude.{◌≡◌, ◌-◌, ◌<◌, ◌≤◌, length, slice_get, Some, IfOk};
ghost use Rattle.blocks.specs.Hiding.{BlocksView, IsLineAt, blocks_of};

use crate::block::Block;
use crate::collecting::joins_of;
use crate::joins::Joins;
use crate::searching::{block_count, block_of_line, numbered_block};
use decoration::Layers;
use line_tree::Text;
use std::alloc::{AllocError, Global};
use std::marker::Model;

/// The blocks of a text under its decorations.
#[derive(Drop)]
pub struct Blocks {
    text: Text,
    joins: Joins,
}

impl Model for Blocks {
    ghost use Rattle.std.specs.Prelude.{◌≡◌, length};
    ghost use Rattle.line_tree.specs.Lines.{lines_of};
    ghost use Rattle.blocks.specs.Hiding.{BlocksView, joined_lines};
    ghost use Rattle.blocks.specs.Joins.{AreJoins, is_joined};

    ghost Value = { BlocksView };

    ghost view = { λ b. record { text = b.text.characters; blocks = joined_lines (is_joined b.joins.list.items) (lines_of b.text.characters) } };

    ghost invariant = { λ b. (b.joins.lines ≡ length (lines_of b.text.characters)) × AreJoins b.joins.lines 0 0 b.joins.list.items };
}

impl Blocks {
    /// The blocks of a text under these layers. `Err`: out of memory.
    pub fn of(alloc: Global, text: &Text, layers: &Layers) -> Result<Blocks, AllocError>
        ensures { IfOk result (λ b. b ≡ record { text = text.now.characters; blocks = blocks_of text.now.characters layers.now }) }
    {
        let joins = joins_of(alloc, text, layers)?;
        let text = text.try_copy()?;
        Ok(Blocks { text, joins })
    }

    /// How many blocks there are, at least one.
    pub fn count(&self) -> u64
        ensures value { result ≡ length self.now.blocks }
        ensures some { 0 < result }
    {
        block_count(&self.text, &self.joins)
    }

    /// The block in which a place stands.
    pub fn at(&self, pos: u32) -> Block
        requires { pos ≤ length self.now.text }
        ensures block { slice_get self.now.blocks (result.number - 1) ≡ Some (record { number = result.number; from = result.from; to = result.to }) }
        ensures starts { result.from ≤ pos }
        ensures ends { pos ≤ result.to }
        ensures within { result.to ≤ length self.now.text }
        ensures first { IsLineAt self.now.text result.first result.from }
        ensures last { IsLineAt self.now.text result.last result.to }
    {
        let line = self.text.line_at(pos);
        block_of_line(&self.text, &self.joins, line)
    }

    /// The block of a number, from 1 to the count of blocks.
    pub fn span(&self, number: u64) -> Block
        requires first { 0 < number }
        requires last { number ≤ length self.now.blocks }
        ensures number { result.number ≡ number }
        ensures block { slice_get self.now.blocks (number - 1) ≡ Some (record { number = number; from = result.from; to = result.to }) }
        ensures order { result.from ≤ result.to }
        ensures within { result.to ≤ length self.now.text }
        ensures first { IsLineAt self.now.text result.first result.from }
        ensures last { IsLineAt self.now.text result.last result.to }
    {
        numbered_block(&self.text, &self.joins, number)
    }
}
