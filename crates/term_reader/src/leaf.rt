//! Parts without brackets at a place of a text.

ghost use Rattle.std.specs.Prelude.{◌≡◌, ◌≢◌, ◌+◌, ◌<◌, ◌≤◌, ◌∷◌, length, drop, IfOk, IfErr};
ghost use Rattle.logic_terms.specs.Node.{num};
ghost use Rattle.term_reader.specs.Atoms.{atom_tree};
ghost use Rattle.term_reader.specs.Bytes.{first};
ghost use Rattle.term_reader.specs.Reads.{IsRead, IsUnread};
ghost use Rattle.term_reader.specs.Trees.{of_node};
ghost use Rattle.term_reader.specs.declared.part.Side.{Side};

use crate::atom::Atom;
use crate::bytes::byte_at;
use crate::number::read_number;
use crate::part::Side;
use crate::whole::read_whole;

/// A part without brackets, and the place after it.
#[derive(Clone, Copy)]
pub struct Leaf {
    pub atom: Atom,
    pub to: usize,
}

/// A symbol at its letter.
fn read_symbol(bytes: &[u8], at: usize) -> Result<Leaf, usize>
    requires place { at < length bytes.now }
    requires letter { drop at bytes.now ≡ 115 ∷ drop (at + 1) bytes.now }
    ensures ok { IfOk result (λ l. IsRead Side.Term (atom_tree l.atom) bytes.now at l.to) }
    ensures fault { IfErr result (λ to. IsUnread Side.Term bytes.now at to) }
{
    match read_number(bytes, at + 1, 0, u32::MAX as u128) {
        Err(to) => Err(to),
        Ok(number) => Ok(Leaf {
            atom: Atom::Sym(number.value as u32),
            to: number.to,
        }),
    }
}

/// A bound variable at its letter.
fn read_bound(bytes: &[u8], at: usize) -> Result<Leaf, usize>
    requires place { at < length bytes.now }
    requires letter { drop at bytes.now ≡ 98 ∷ drop (at + 1) bytes.now }
    ensures ok { IfOk result (λ l. IsRead Side.Term (atom_tree l.atom) bytes.now at l.to) }
    ensures fault { IfErr result (λ to. IsUnread Side.Term bytes.now at to) }
{
    match read_number(bytes, at + 1, 0, u32::MAX as u128) {
        Err(to) => Err(to),
        Ok(number) => Ok(Leaf {
            atom: Atom::Bound(number.value as u32),
            to: number.to,
        }),
    }
}

fn number_leaf(value: i128, to: usize) -> Leaf
    ensures atom { atom_tree result.atom ≡ of_node (num value) }
    ensures to { result.to ≡ to }
{
    Leaf {
        atom: Atom::Num(value),
        to,
    }
}

/// A number where no letter of a term stands.
fn read_numeral(bytes: &[u8], at: usize) -> Result<Leaf, usize>
    requires place { at ≤ length bytes.now }
    requires open { first (drop at bytes.now) ≢ 40 }
    requires symbol { first (drop at bytes.now) ≢ 115 }
    requires bound { first (drop at bytes.now) ≢ 98 }
    ensures ok { IfOk result (λ l. IsRead Side.Term (atom_tree l.atom) bytes.now at l.to) }
    ensures fault { IfErr result (λ to. IsUnread Side.Term bytes.now at to) }
{
    match read_whole(bytes, at) {
        Err(to) => Err(to),
        Ok(whole) => Ok(number_leaf(whole.value, whole.to)),
    }
}

/// A term without brackets.
#[tactic(auto, using(crate::proofs::Fronts::first_is))]
fn read_term(bytes: &[u8], at: usize) -> Result<Leaf, usize>
    requires place { at ≤ length bytes.now }
    requires open { first (drop at bytes.now) ≢ 40 }
    ensures ok { IfOk result (λ l. IsRead Side.Term (atom_tree l.atom) bytes.now at l.to) }
    ensures fault { IfErr result (λ to. IsUnread Side.Term bytes.now at to) }
{
    let byte = byte_at(bytes, at);
    if byte == 115 {
        read_symbol(bytes, at)
    } else if byte == 98 {
        read_bound(bytes, at)
    } else {
        read_numeral(bytes, at)
    }
}

/// A truth value.
#[tactic(auto, using(crate::proofs::Leaves::no_formula))]
fn read_formula(bytes: &[u8], at: usize) -> Result<Leaf, usize>
    requires place { at ≤ length bytes.now }
    requires open { first (drop at bytes.now) ≢ 40 }
    ensures ok { IfOk result (λ l. IsRead Side.Formula (atom_tree l.atom) bytes.now at l.to) }
    ensures fault { IfErr result (λ to. IsUnread Side.Formula bytes.now at to) }
{
    let byte = byte_at(bytes, at);
    if byte == 84 {
        Ok(Leaf {
            atom: Atom::True,
            to: at + 1,
        })
    } else if byte == 70 {
        Ok(Leaf {
            atom: Atom::False,
            to: at + 1,
        })
    } else {
        Err(at)
    }
}

/// A sort without brackets.
#[tactic(auto, using(crate::proofs::Leaves::no_kind))]
fn read_sort(bytes: &[u8], at: usize) -> Result<Leaf, usize>
    requires place { at ≤ length bytes.now }
    requires open { first (drop at bytes.now) ≢ 40 }
    ensures ok { IfOk result (λ l. IsRead Side.Sort (atom_tree l.atom) bytes.now at l.to) }
    ensures fault { IfErr result (λ to. IsUnread Side.Sort bytes.now at to) }
{
    let byte = byte_at(bytes, at);
    if byte == 78 {
        Ok(Leaf {
            atom: Atom::Numbers,
            to: at + 1,
        })
    } else if byte == 66 {
        Ok(Leaf {
            atom: Atom::Truths,
            to: at + 1,
        })
    } else {
        Err(at)
    }
}

/// A part without brackets. The error is the first byte after which none goes on so.
pub fn read_leaf(bytes: &[u8], at: usize, side: Side) -> Result<Leaf, usize>
    requires place { at ≤ length bytes.now }
    requires open { first (drop at bytes.now) ≢ 40 }
    ensures ok { IfOk result (λ l. IsRead side (atom_tree l.atom) bytes.now at l.to) }
    ensures fault { IfErr result (λ to. IsUnread side bytes.now at to) }
{
    match side {
        Side::Term => read_term(bytes, at),
        Side::Formula => read_formula(bytes, at),
        Side::Sort => read_sort(bytes, at),
    }
}
