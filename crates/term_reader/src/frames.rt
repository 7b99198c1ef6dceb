//! Brackets that are open.

ghost use Rattle.std.specs.Prelude.{◌≡◌, [], ◌∷◌, IfOk, MatchOption};
ghost use Rattle.term_reader.specs.Frames.{level_of, levels, with_part};
ghost use Rattle.term_reader.specs.Reads.{tree};

use crate::make::PartList;
use crate::operator::Operator;
use crate::part::Part;
use sqlite_items::Items;
use std::alloc::{AllocError, Global};

/// A bracket that is open: what stands after it, and the parts that are read.
#[derive(Drop)]
pub struct Frame {
    pub operator: Operator,
    pub parts: PartList,
}

/// Brackets that are open.
#[derive(Drop)]
pub struct Frames {
    /// The innermost last.
    pub frames: Items<Frame>,
}

impl Frames {
    /// No brackets.
    pub fn new(alloc: Global) -> Frames
        ensures { levels result ≡ [] }
    {
        Frames {
            frames: Items::new(alloc),
        }
    }

    /// How many brackets are open.
    pub fn count(&self) -> usize {
        self.frames.len()
    }

    /// Opens a bracket. The error comes where memory was refused.
    #[tactic(auto, using(crate::proofs::Levels::pushed_level))]
    pub fn push(&mut self, frame: Frame) -> Result<(), AllocError>
        ensures { IfOk result (λ _. levels self.new ≡ level_of frame ∷ levels self.old) }
    {
        self.frames.push(frame)
    }

    /// Takes the innermost bracket.
    #[tactic(auto, using(crate::proofs::Levels::popped_level))]
    pub fn pop(&mut self) -> Option<Frame>
        ensures { MatchOption result (levels self.old ≡ []) (λ f. levels self.old ≡ level_of f ∷ levels self.new) }
    {
        self.frames.pop()
    }

    /// Opens a bracket again with one part more. The error comes where memory was refused.
    #[tactic(auto, using(crate::proofs::Levels::one_part_more))]
    pub fn place(&mut self, mut frame: Frame, part: Part) -> Result<(), AllocError>
        ensures { IfOk result (λ _. levels self.new ≡ with_part (level_of frame) (tree part) ∷ levels self.old) }
    {
        frame.parts.push(part)?;
        self.push(frame)
    }
}
