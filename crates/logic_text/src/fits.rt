//! The numbers of goals and certificates in memory fit, so that their texts are read back.

ghost use Rattle.std.specs.Prelude.{◌≡◌, true, map};
ghost use Rattle.logic_terms.specs.Node.{Node, Nodes, op1, op2, op3, opn};
ghost use Rattle.logic_terms.specs.Operators.{binary_of, comparison_of, connective_of, list_of, ternary_of, unary_of};
ghost use Rattle.logic_terms.specs.View.{term, formula, terms};
ghost use Rattle.logic_terms.specs.Goal.{problem};
ghost use Rattle.cert_lines.specs.View.{step as step_of, line as line_of, lines as lines_of};
ghost use Rattle.term_reader.specs.Values.{are_terms, IsIndex, IsCount, IsNumber, IsTerm, IsFormula};
ghost use Rattle.logic_text.specs.Answers.{IsGoal};
ghost use Rattle.logic_text.specs.Fits.{Every, AreLiterals, IsStep, IsLine, AreLines};

use cert_lines::{Cert, CertLine, CertLines, HintList, StepLine, StepLines};
use logic_terms::{
    BinaryOperator, Comparison, Connective, Formula, FormulaList, FormulaParts, Goal, ListOperator,
    Term, TermList, TermParts, TernaryOperator, UnaryOperator, formula_parts, term_parts,
};

/// The number of a symbol, a variable, a field, a call, a line or a form.
fn index_fits(_index: u32)
    ensures { IsIndex _index }
{}

/// A whole number.
fn number_fits(_number: i128)
    ensures { IsNumber _number }
{}

/// The length of a list.
fn count_fits(_count: usize)
    ensures { IsCount _count }
{}

/// The number of an operator with one operand.
fn unary_fits(op: UnaryOperator)
    ensures { (a : Node) → IsTerm a → IsTerm (op1 (unary_of op) a) }
{
    match op {
        UnaryOperator::First | UnaryOperator::Last => (),
        UnaryOperator::Field(k) => index_fits(k),
    }
}

/// The number of an operator with two operands.
fn binary_fits(op: BinaryOperator)
    ensures { (a : Node) (b : Node) → IsTerm a → IsTerm b → IsTerm (op2 (binary_of op) a b) }
{
    match op {
        BinaryOperator::Compute(_) | BinaryOperator::Select => (),
        BinaryOperator::Update(k) => index_fits(k),
    }
}

/// An operator with three operands.
fn ternary_fits(op: TernaryOperator)
    ensures { (a : Node) (b : Node) (c : Node) → IsTerm a → IsTerm b → IsTerm c → IsTerm (op3 (ternary_of op) a b c) }
{
    match op {
        TernaryOperator::Store | TernaryOperator::Fill => (),
    }
}

/// The number of an operator of a list.
fn list_fits(op: ListOperator)
    ensures { (ns : Nodes) → are_terms ns ≡ true → IsTerm (opn (list_of op) ns) }
{
    match op {
        ListOperator::Record => (),
        ListOperator::Call(k) => index_fits(k),
    }
}

/// What is said of two terms.
fn comparison_fits(op: Comparison)
    ensures { (a : Node) (b : Node) → IsTerm a → IsTerm b → IsFormula (op2 (comparison_of op) a b) }
{
    match op {
        Comparison::AtMost | Comparison::Equal => (),
    }
}

/// What joins two formulas.
fn connective_fits(op: Connective)
    ensures { (p : Node) (q : Node) → IsFormula p → IsFormula q → IsFormula (op2 (connective_of op) p q) }
{
    match op {
        Connective::And | Connective::Or | Connective::Iff => (),
    }
}

#[cycle(fits)]
fn terms_fit(ts: &TermList)
    ensures { are_terms (terms ts.now) ≡ true }
{
    for t in ts.as_slice() {
        term_fits(t);
    }
}

#[cycle(fits)]
fn term_fits(t: &Term)
    ensures { IsTerm (term t.now) }
{
    match term_parts(t) {
        TermParts::Number(n) => number_fits(n),
        TermParts::Symbol(k) | TermParts::Bound(k) => index_fits(k),
        TermParts::Bit(p) => formula_fits(p),
        TermParts::Choice(p, a, b) => {
            formula_fits(p);
            term_fits(a);
            term_fits(b);
        }
        TermParts::One(op, a) => {
            unary_fits(op);
            term_fits(a);
        }
        TermParts::Two(op, a, b) => {
            binary_fits(op);
            term_fits(a);
            term_fits(b);
        }
        TermParts::Three(op, a, b, c) => {
            ternary_fits(op);
            term_fits(a);
            term_fits(b);
            term_fits(c);
        }
        TermParts::List(op, ts) => {
            list_fits(op);
            terms_fit(ts);
        }
    }
}

/// A formula.
#[cycle(fits)]
pub fn formula_fits(p: &Formula)
    ensures { IsFormula (formula p.now) }
{
    match formula_parts(p) {
        FormulaParts::Constant(_) => (),
        FormulaParts::Truth(t) => term_fits(t),
        FormulaParts::Compared(op, a, b) => {
            comparison_fits(op);
            term_fits(a);
            term_fits(b);
        }
        FormulaParts::Not(q) => formula_fits(q),
        FormulaParts::Joined(op, q, r) => {
            connective_fits(op);
            formula_fits(q);
            formula_fits(r);
        }
        FormulaParts::Quantified(_, first, last, q) => {
            term_fits(first);
            term_fits(last);
            formula_fits(q);
        }
    }
}

/// Formulas in order.
fn formulas_fit(ps: &FormulaList)
    ensures { Every IsFormula (map formula ps.now) }
{
    for p in ps.as_slice() {
        formula_fits(p);
    }
}

/// The numbers of a goal fit, as machine integers do. The call goes through all its terms and formulas, in time linear in
/// their size.
#[tactic(auto, using(crate::proofs::Fitting::each_formula))]
pub fn goal_fits(g: &Goal)
    ensures { IsGoal (problem g.now) }
{
    formulas_fit(&g.hypotheses);
    formula_fits(&g.conclusion);
}

/// The literals of a clause.
fn literals_fit(literals: &FormulaList)
    ensures { AreLiterals (map formula literals.now) }
{
    count_fits(literals.len());
    formulas_fit(literals);
}

/// The numbers of earlier lines.
fn hints_fit(hints: &HintList)
    ensures { Every IsIndex hints.now }
{
    for hint in hints.as_slice() {
        index_fits(*hint);
    }
}

/// A step over linear forms.
fn step_fits(step: StepLine)
    ensures { IsStep (step_of step) }
{
    match step {
        StepLine::Add {
            first,
            by_first,
            second,
            by_second,
        } => {
            index_fits(first);
            number_fits(by_first);
            index_fits(second);
            number_fits(by_second);
        }
        StepLine::Tighten(form) => index_fits(form),
    }
}

/// Steps in order.
fn steps_fit(steps: &StepLines)
    ensures { Every IsStep (map step_of steps.now) }
{
    for step in steps.as_slice() {
        step_fits(*step);
    }
}

/// A number and a term.
fn about_fits(k: u32, t: &Term)
    ensures number { IsIndex k }
    ensures term { IsTerm (term t.now) }
{
    index_fits(k);
    term_fits(t);
}

/// A number and a formula.
fn of_fits(k: u32, p: &Formula)
    ensures number { IsIndex k }
    ensures formula { IsFormula (formula p.now) }
{
    index_fits(k);
    formula_fits(p);
}

/// Two terms.
fn pair_fits(a: &Term, b: &Term)
    ensures first { IsTerm (term a.now) }
    ensures second { IsTerm (term b.now) }
{
    term_fits(a);
    term_fits(b);
}

/// A line.
fn line_fits(line: &CertLine)
    ensures { IsLine (line_of line.now) }
{
    match line {
        CertLine::Given(k) => index_fits(*k),
        CertLine::Open { part, formula } => of_fits(*part, formula.get()),
        CertLine::Case { part, term }
        | CertLine::Arr { part, term }
        | CertLine::Fld { part, term } => about_fits(*part, term.get()),
        CertLine::Rup { literals, hints } => {
            literals_fit(literals);
            hints_fit(hints);
        }
        CertLine::Lin { literals, steps } => {
            literals_fit(literals);
            steps_fit(steps);
        }
        CertLine::Tri { left, right }
        | CertLine::Ext { left, right }
        | CertLine::Mul { left, right } => pair_fits(left.get(), right.get()),
        CertLine::Ins { at, formula } => {
            term_fits(at.get());
            formula_fits(formula.get());
        }
        CertLine::New { symbol, formula } => of_fits(*symbol, formula.get()),
        CertLine::Same {
            direction,
            occurrence,
            equation,
            literal,
        } => {
            of_fits(*direction, equation.get());
            of_fits(*occurrence, literal.get());
        }
        CertLine::Div {
            part,
            dividend,
            divisor,
        } => {
            about_fits(*part, dividend.get());
            number_fits(*divisor);
        }
        CertLine::Calc(formula) => formula_fits(formula.get()),
    }
}

/// Lines in order.
fn lines_fit(lines: &CertLines)
    ensures { Every IsLine (map line_of lines.now) }
{
    for line in lines.as_slice() {
        line_fits(line);
    }
}

/// The numbers of a certificate fit, as machine integers do. The call goes through all its lines, in time linear in their
/// size.
pub fn cert_fits(c: &Cert)
    ensures { AreLines (lines_of c.now) }
{
    lines_fit(&c.lines)
}
