//! Steps of the reader.

ghost use Rattle.std.specs.Prelude.{◌≡◌, ◌≢◌, ◌+◌, ◌<◌, ◌≤◌, ◌∷◌, ℕ, List, true, length, drop, IfOk, IfErr};
ghost use Rattle.term_reader.specs.Bytes.{first};
ghost use Rattle.term_reader.specs.Frames.{level_of, levels};
ghost use Rattle.term_reader.specs.Atoms.{atom_tree};
ghost use Rattle.term_reader.specs.Operators.{build};
ghost use Rattle.term_reader.specs.Reads.{tree, IsRead, IsReadFault};
ghost use Rattle.term_reader.specs.Trees.{is_full, IsAt, IsAfter};
ghost use Rattle.term_reader.specs.Steps.{IsStep, IsStopped};
ghost use Rattle.term_reader.specs.declared.part.Side.{Side};

use crate::atom::Atom;
use crate::bytes::byte_at;
use crate::fault::ReadFault;
use crate::frames::{Frame, Frames};
use crate::leaf::read_leaf;
use crate::make::make;
use crate::opening::read_opening;
use crate::part::{Part, Side};
use logic_terms::{MOST_LEVELS, Starved};
use sqlite_items::Items;
use std::alloc::Global;

/// What is read next.
#[derive(Drop)]
pub enum Step {
    /// A part.
    Part(Side),
    /// A space or a bracket.
    Mark,
    /// Nothing: this is the whole.
    Done(Part),
}

/// What is read next, and where.
#[derive(Drop)]
pub struct Moved {
    pub step: Step,
    pub to: usize,
}

/// Adds a part to the innermost bracket, if one is open.
fn place(frames: &mut Frames, part: Part) -> Result<Step, Starved>
    ensures { IfOk result (λ s. (text : List ℕ) (whole : Side) (r : List ℕ)
        → IsAfter text whole (tree part) (levels frames.old) r
        → IsStep text whole s (levels frames.new) r) }
{
    match frames.pop() {
        None => Ok(Step::Done(part)),
        Some(frame) => match frames.place(frame, part) {
            Ok(()) => Ok(Step::Mark),
            Err(_) => Err(Starved),
        },
    }
}

/// Adds a part without brackets to the innermost bracket, if one is open.
fn place_atom(alloc: Global, frames: &mut Frames, atom: Atom) -> Result<Step, Starved>
    ensures { IfOk result (λ s. (text : List ℕ) (whole : Side) (r : List ℕ)
        → IsAfter text whole (atom_tree atom) (levels frames.old) r
        → IsStep text whole s (levels frames.new) r) }
{
    let part = atom.part(alloc)?;
    place(frames, part)
}

/// Opens a bracket, whose place this is.
fn open(
    alloc: Global,
    bytes: &[u8],
    at: usize,
    side: Side,
    frames: &mut Frames,
) -> Result<Moved, ReadFault>
    requires place { at < length bytes.now }
    requires open { drop at bytes.now ≡ 40 ∷ drop (at + 1) bytes.now }
    ensures before { IfOk result (λ m. at < m.to) }
    ensures inside { IfOk result (λ m. m.to ≤ length bytes.now) }
    ensures ok { IfOk result (λ m. (text : List ℕ) (whole : Side)
        → IsAt text whole (Some side) (levels frames.old) (drop at bytes.now)
        → IsStep text whole m.step (levels frames.new) (drop m.to bytes.now)) }
    ensures fault { IfErr result (λ f. (text : List ℕ) (whole : Side)
        → IsAt text whole (Some side) (levels frames.old) (drop at bytes.now)
        → IsStopped text whole bytes.now f) }
{
    match read_opening(bytes, at + 1, side) {
        Err(to) => Err(ReadFault::BadText(to)),
        Ok(opening) => {
            let frame = Frame {
                operator: opening.operator,
                parts: Items::new(alloc),
            };
            if frames.count() >= MOST_LEVELS as usize {
                return Err(ReadFault::Starved);
            }
            match frames.push(frame) {
                Err(_) => Err(ReadFault::Starved),
                Ok(()) => Ok(Moved {
                    step: Step::Mark,
                    to: opening.to,
                }),
            }
        }
    }
}

/// Reads a part without brackets.
fn take_leaf(
    alloc: Global,
    bytes: &[u8],
    at: usize,
    side: Side,
    frames: &mut Frames,
) -> Result<Moved, ReadFault>
    requires place { at ≤ length bytes.now }
    requires open { first (drop at bytes.now) ≢ 40 }
    ensures before { IfOk result (λ m. at < m.to) }
    ensures inside { IfOk result (λ m. m.to ≤ length bytes.now) }
    ensures ok { IfOk result (λ m. (text : List ℕ) (whole : Side)
        → IsAt text whole (Some side) (levels frames.old) (drop at bytes.now)
        → IsStep text whole m.step (levels frames.new) (drop m.to bytes.now)) }
    ensures fault { IfErr result (λ f. (text : List ℕ) (whole : Side)
        → IsAt text whole (Some side) (levels frames.old) (drop at bytes.now)
        → IsStopped text whole bytes.now f) }
{
    match read_leaf(bytes, at, side) {
        Err(to) => Err(ReadFault::BadText(to)),
        Ok(leaf) => match place_atom(alloc, frames, leaf.atom) {
            Err(_) => Err(ReadFault::Starved),
            Ok(step) => Ok(Moved { step, to: leaf.to }),
        },
    }
}

/// Reads a part, or its bracket and what stands after it.
#[tactic(auto, using(crate::proofs::Fronts::first_is))]
fn read_front(
    alloc: Global,
    bytes: &[u8],
    at: usize,
    side: Side,
    frames: &mut Frames,
) -> Result<Moved, ReadFault>
    requires { at ≤ length bytes.now }
    ensures before { IfOk result (λ m. at < m.to) }
    ensures inside { IfOk result (λ m. m.to ≤ length bytes.now) }
    ensures ok { IfOk result (λ m. (text : List ℕ) (whole : Side)
        → IsAt text whole (Some side) (levels frames.old) (drop at bytes.now)
        → IsStep text whole m.step (levels frames.new) (drop m.to bytes.now)) }
    ensures fault { IfErr result (λ f. (text : List ℕ) (whole : Side)
        → IsAt text whole (Some side) (levels frames.old) (drop at bytes.now)
        → IsStopped text whole bytes.now f) }
{
    if byte_at(bytes, at) == 40 {
        open(alloc, bytes, at, side, frames)
    } else {
        take_leaf(alloc, bytes, at, side, frames)
    }
}

/// Closes a bracket.
fn close(alloc: Global, frame: Frame, frames: &mut Frames) -> Result<Step, Starved>
    ensures { IfOk result (λ s. (text : List ℕ) (whole : Side) (r : List ℕ) (q : List ℕ)
        → is_full (build frame.operator) (length frame.parts) ≡ true
        → r ≡ 41 ∷ q
        → IsAt text whole None (level_of frame ∷ levels frames.old) r
        → IsStep text whole s (levels frames.new) q) }
{
    match make(alloc, frame.operator, frame.parts) {
        Err(_) => Err(Starved),
        Ok(part) => match place(frames, part) {
            Err(_) => Err(Starved),
            Ok(step) => Ok(step),
        },
    }
}

/// Reads a space or a bracket.
fn read_mark(
    alloc: Global,
    bytes: &[u8],
    at: usize,
    frames: &mut Frames,
) -> Result<Moved, ReadFault>
    requires { at ≤ length bytes.now }
    ensures before { IfOk result (λ m. at < m.to) }
    ensures inside { IfOk result (λ m. m.to ≤ length bytes.now) }
    ensures ok { IfOk result (λ m. (text : List ℕ) (whole : Side)
        → IsAt text whole None (levels frames.old) (drop at bytes.now)
        → IsStep text whole m.step (levels frames.new) (drop m.to bytes.now)) }
    ensures fault { IfErr result (λ f. (text : List ℕ) (whole : Side)
        → IsAt text whole None (levels frames.old) (drop at bytes.now)
        → IsStopped text whole bytes.now f) }
{
    let byte = byte_at(bytes, at);
    match frames.pop() {
        None => Err(ReadFault::Starved),
        Some(frame) => {
            if byte == 32 {
                match frame.operator.wants(frame.parts.len()) {
                    None => Err(ReadFault::BadText(at)),
                    Some(side) => match frames.push(frame) {
                        Err(_) => Err(ReadFault::Starved),
                        Ok(()) => Ok(Moved {
                            step: Step::Part(side),
                            to: at + 1,
                        }),
                    },
                }
            } else if byte != 41 {
                Err(ReadFault::BadText(at))
            } else if frame.operator.is_full(frame.parts.len()) {
                match close(alloc, frame, frames) {
                    Err(_) => Err(ReadFault::Starved),
                    Ok(step) => Ok(Moved { step, to: at + 1 }),
                }
            } else {
                Err(ReadFault::BadText(at))
            }
        }
    }
}

/// A part that is read, and the place after it.
#[derive(Drop)]
pub struct Read {
    pub part: Part,
    pub to: usize,
}

/// Reads what is wanted: a part, or a space or a bracket.
fn read_next(
    alloc: Global,
    bytes: &[u8],
    at: usize,
    want: Option<Side>,
    frames: &mut Frames,
) -> Result<Moved, ReadFault>
    requires { at ≤ length bytes.now }
    ensures before { IfOk result (λ m. at < m.to) }
    ensures inside { IfOk result (λ m. m.to ≤ length bytes.now) }
    ensures ok { IfOk result (λ m. (text : List ℕ) (whole : Side)
        → IsAt text whole want (levels frames.old) (drop at bytes.now)
        → IsStep text whole m.step (levels frames.new) (drop m.to bytes.now)) }
    ensures fault { IfErr result (λ f. (text : List ℕ) (whole : Side)
        → IsAt text whole want (levels frames.old) (drop at bytes.now)
        → IsStopped text whole bytes.now f) }
{
    match want {
        Some(side) => read_front(alloc, bytes, at, side, frames),
        None => read_mark(alloc, bytes, at, frames),
    }
}

/// The term, formula or sort at a place. `BadText` is the first byte after which none goes on so. `Starved` comes where
/// memory was refused, or where more than `MOST_LEVELS` brackets are open.
pub fn read_part(alloc: Global, bytes: &[u8], at: usize, side: Side) -> Result<Read, ReadFault>
    requires { at ≤ length bytes.now }
    ensures ok { IfOk result (λ r. IsRead side (tree r.part) bytes.now at r.to) }
    ensures fault { IfErr result (λ f. IsReadFault side bytes.now at f) }
{
    let mut frames = Frames::new(alloc);
    let mut want = Some(side);
    let mut to = at;
    loop {
        match read_next(alloc, bytes, to, want, &mut frames) {
            Err(fault) => return Err(fault),
            Ok(moved) => {
                to = moved.to;
                match moved.step {
                    Step::Part(side) => want = Some(side),
                    Step::Mark => want = None,
                    Step::Done(part) => return Ok(Read { part, to }),
                }
            }
        }
    }
}
