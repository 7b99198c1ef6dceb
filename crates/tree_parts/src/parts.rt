//! Parts of a derivation, the first of which is taken.

ghost use Rattle.std.specs.Prelude.{◌≡◌, ◌∷◌, [], OnOk};
ghost use Rattle.tree_parts.specs.Missing.{decl_at, expr_at, item_at, stmt_at, type_def_at, unit_at};
ghost use Rattle.tree_parts.specs.Parts.{choice_part_of, declaration_part_of, expression_part_of, first, item_part_of, place_of, rest, statement_part_of, subprogram_part_of, token_of, type_part_of, unit_part_of};

use crate::Starved;
use crate::chain::Chain;
use crate::declaration_parts::DeclarationPart;
use crate::expression_parts::ExpressionPart;
use crate::item_parts::ItemPart;
use crate::missing::nothing;
use crate::nodes::{decl_at, expr_at, item_at, stmt_at, type_def_at, unit_at};
use crate::relations::RelationTail;
use crate::statement_parts::{ChoicePart, StatementPart};
use crate::subprogram_parts::SubprogramPart;
use crate::type_parts::TypePart;
use crate::unit_parts::UnitPart;
use ada_syntax::{
    Action, Choice, Decl, DeclForm, Expr, ExprNode, Item, ItemForm, Mode, Object, Stmt, TypeForm,
    Unit, UnitForm,
};
use ada_text::{Span, Token};
use sqlite_items::Boxed;
use std::alloc::Global;
use std::marker::Model;

/// A part of a derivation: a token, or what a phrase became.
pub enum Part {
    Token(Token),
    Unit(Boxed<UnitPart>),
    Declaration(Boxed<DeclarationPart>),
    Type(Boxed<TypePart>),
    Subprogram(Boxed<SubprogramPart>),
    Statement(Boxed<StatementPart>),
    Choice(Boxed<ChoicePart>),
    Item(Boxed<ItemPart>),
    Expression(ExpressionPart),
}

impl Drop for Part {
    fn drop(self) {
        match self {
            Part::Token(_) => {}
            Part::Unit(part) => drop(part),
            Part::Declaration(part) => drop(part),
            Part::Type(part) => drop(part),
            Part::Subprogram(part) => drop(part),
            Part::Statement(part) => drop(part),
            Part::Choice(part) => drop(part),
            Part::Item(part) => drop(part),
            Part::Expression(part) => drop(part),
        }
    }
}

impl Part {
    fn token(self) -> Token
        ensures { result ≡ token_of self }
    {
        match self {
            Part::Token(token) => token,
            other => {
                drop(other);
                nothing()
            }
        }
    }

    fn unit(self) -> UnitPart
        ensures { result ≡ unit_part_of self }
    {
        match self {
            Part::Unit(part) => part.into_inner(),
            other => {
                drop(other);
                UnitPart::EndName(None)
            }
        }
    }

    fn declaration(self) -> DeclarationPart
        ensures { result ≡ declaration_part_of self }
    {
        match self {
            Part::Declaration(part) => part.into_inner(),
            other => {
                drop(other);
                DeclarationPart::Object(Object {
                    constant: false,
                    subtype: None,
                    value: None,
                })
            }
        }
    }

    fn type_part(self) -> TypePart
        ensures { result ≡ type_part_of self }
    {
        match self {
            Part::Type(part) => part.into_inner(),
            other => {
                drop(other);
                TypePart::Bounds(None)
            }
        }
    }

    fn subprogram(self) -> SubprogramPart
        ensures { result ≡ subprogram_part_of self }
    {
        match self {
            Part::Subprogram(part) => part.into_inner(),
            other => {
                drop(other);
                SubprogramPart::Mode(Mode::Unstated)
            }
        }
    }

    fn statement(self, alloc: Global) -> StatementPart
        ensures { result ≡ statement_part_of self }
    {
        match self {
            Part::Statement(part) => part.into_inner(),
            other => {
                drop(other);
                StatementPart::Stmts(Chain::new(alloc))
            }
        }
    }

    fn choice(self) -> ChoicePart
        ensures { result ≡ choice_part_of self }
    {
        match self {
            Part::Choice(part) => part.into_inner(),
            other => {
                drop(other);
                ChoicePart::Flag(false)
            }
        }
    }

    fn item(self) -> ItemPart
        ensures { result ≡ item_part_of self }
    {
        match self {
            Part::Item(part) => part.into_inner(),
            other => {
                drop(other);
                ItemPart::OptionalExpr(None)
            }
        }
    }

    fn expression(self) -> ExpressionPart
        ensures { result ≡ expression_part_of self }
    {
        match self {
            Part::Expression(part) => part,
            other => {
                drop(other);
                ExpressionPart::RelationTail(RelationTail::Nothing)
            }
        }
    }
}

/// Parts in order, which contracts see as a list. A method that takes the first one takes it as what it is; one that is
/// something else is never met in a derivation.
#[derive(Drop)]
pub struct Parts {
    chain: Chain<Part>,
}

impl Model for Parts {
    ghost use Rattle.std.specs.Prelude.{List};
    ghost use Rattle.tree_parts.specs.declared.parts.Part.{Part};
    ghost use Rattle.std.specs.Coded.{coded_list};
    ghost use Rattle.tree_parts.specs.contracts.parts.Part as part;

    ghost Value = { List Part };

    ghost coded = { coded_list part.the_row.coded };

    ghost view = { λ p. p.chain };
}

impl Parts {
    pub fn new(alloc: Global) -> Parts
        ensures { result ≡ [] }
    {
        Parts {
            chain: Chain::new(alloc),
        }
    }

    fn take(&mut self) -> Part
        ensures value { result ≡ first self.old }
        ensures rest { self.new ≡ rest self.old }
    {
        match self.chain.take_first() {
            Some(part) => part,
            None => Part::Token(nothing()),
        }
    }

    fn put(&mut self, part: Part) -> Result<(), Starved>
        ensures { OnOk result (self.new ≡ part ∷ self.old) }
    {
        self.chain.put_first(part)
    }

    pub fn skip(&mut self)
        ensures { self.new ≡ rest self.old }
    {
        drop(self.take());
    }

    pub fn token(&mut self) -> Token
        ensures value { result ≡ token_of (first self.old) }
        ensures rest { self.new ≡ rest self.old }
    {
        self.take().token()
    }

    /// The place of a token.
    pub fn place(&mut self) -> Span
        ensures value { result ≡ place_of (first self.old) }
        ensures rest { self.new ≡ rest self.old }
    {
        self.token().span
    }

    pub fn put_token(&mut self, token: Token) -> Result<(), Starved>
        ensures { OnOk result (self.new ≡ Part.Token token ∷ self.old) }
    {
        self.put(Part::Token(token))
    }

    pub fn unit(&mut self) -> UnitPart
        ensures value { result ≡ unit_part_of (first self.old) }
        ensures rest { self.new ≡ rest self.old }
    {
        self.take().unit()
    }

    pub fn put_unit(&mut self, alloc: Global, part: UnitPart) -> Result<(), Starved>
        ensures { OnOk result (self.new ≡ Part.Unit part ∷ self.old) }
    {
        self.put(Part::Unit(Boxed::new(alloc, part)?))
    }

    pub fn declaration(&mut self) -> DeclarationPart
        ensures value { result ≡ declaration_part_of (first self.old) }
        ensures rest { self.new ≡ rest self.old }
    {
        self.take().declaration()
    }

    pub fn put_declaration(&mut self, alloc: Global, part: DeclarationPart) -> Result<(), Starved>
        ensures { OnOk result (self.new ≡ Part.Declaration part ∷ self.old) }
    {
        self.put(Part::Declaration(Boxed::new(alloc, part)?))
    }

    pub fn type_part(&mut self) -> TypePart
        ensures value { result ≡ type_part_of (first self.old) }
        ensures rest { self.new ≡ rest self.old }
    {
        self.take().type_part()
    }

    pub fn put_type(&mut self, alloc: Global, part: TypePart) -> Result<(), Starved>
        ensures { OnOk result (self.new ≡ Part.Type part ∷ self.old) }
    {
        self.put(Part::Type(Boxed::new(alloc, part)?))
    }

    pub fn subprogram(&mut self) -> SubprogramPart
        ensures value { result ≡ subprogram_part_of (first self.old) }
        ensures rest { self.new ≡ rest self.old }
    {
        self.take().subprogram()
    }

    pub fn put_subprogram(&mut self, alloc: Global, part: SubprogramPart) -> Result<(), Starved>
        ensures { OnOk result (self.new ≡ Part.Subprogram part ∷ self.old) }
    {
        self.put(Part::Subprogram(Boxed::new(alloc, part)?))
    }

    pub fn statement(&mut self, alloc: Global) -> StatementPart
        ensures value { result ≡ statement_part_of (first self.old) }
        ensures rest { self.new ≡ rest self.old }
    {
        self.take().statement(alloc)
    }

    pub fn put_statement(&mut self, alloc: Global, part: StatementPart) -> Result<(), Starved>
        ensures { OnOk result (self.new ≡ Part.Statement part ∷ self.old) }
    {
        self.put(Part::Statement(Boxed::new(alloc, part)?))
    }

    pub fn choice(&mut self) -> ChoicePart
        ensures value { result ≡ choice_part_of (first self.old) }
        ensures rest { self.new ≡ rest self.old }
    {
        self.take().choice()
    }

    pub fn put_choice(&mut self, alloc: Global, part: ChoicePart) -> Result<(), Starved>
        ensures { OnOk result (self.new ≡ Part.Choice part ∷ self.old) }
    {
        self.put(Part::Choice(Boxed::new(alloc, part)?))
    }

    pub fn item(&mut self) -> ItemPart
        ensures value { result ≡ item_part_of (first self.old) }
        ensures rest { self.new ≡ rest self.old }
    {
        self.take().item()
    }

    pub fn put_item(&mut self, alloc: Global, part: ItemPart) -> Result<(), Starved>
        ensures { OnOk result (self.new ≡ Part.Item part ∷ self.old) }
    {
        self.put(Part::Item(Boxed::new(alloc, part)?))
    }

    pub fn expression(&mut self) -> ExpressionPart
        ensures value { result ≡ expression_part_of (first self.old) }
        ensures rest { self.new ≡ rest self.old }
    {
        self.take().expression()
    }

    pub fn put_expression(&mut self, part: ExpressionPart) -> Result<(), Starved>
        ensures { OnOk result (self.new ≡ Part.Expression part ∷ self.old) }
    {
        self.put(Part::Expression(part))
    }

    pub fn put_expr(
        &mut self,
        alloc: Global,
        span: Span,
        node: ExprNode<Expr>,
    ) -> Result<(), Starved>
        ensures { OnOk result (self.new ≡ Part.Expression (ExpressionPart.Expr (expr_at span node)) ∷ self.old) }
    {
        self.put_expression(ExpressionPart::Expr(expr_at(alloc, span, node)?))
    }

    pub fn put_formed_item(
        &mut self,
        alloc: Global,
        span: Span,
        form: ItemForm<Expr>,
    ) -> Result<(), Starved>
        ensures { OnOk result (self.new ≡ Part.Item (ItemPart.Item (item_at span form)) ∷ self.old) }
    {
        self.put_item(alloc, ItemPart::Item(item_at(alloc, span, form)?))
    }

    pub fn put_stmt(
        &mut self,
        alloc: Global,
        span: Span,
        action: Action<Stmt>,
    ) -> Result<(), Starved>
        ensures { OnOk result (self.new ≡ Part.Statement (StatementPart.Stmt (stmt_at span action)) ∷ self.old) }
    {
        self.put_statement(alloc, StatementPart::Stmt(stmt_at(alloc, span, action)?))
    }

    pub fn put_decl(
        &mut self,
        alloc: Global,
        span: Span,
        form: DeclForm<Decl>,
    ) -> Result<(), Starved>
        ensures { OnOk result (self.new ≡ Part.Declaration (DeclarationPart.Decl (decl_at span form)) ∷ self.old) }
    {
        self.put_declaration(alloc, DeclarationPart::Decl(decl_at(alloc, span, form)?))
    }

    pub fn put_type_def(&mut self, alloc: Global, span: Span, form: TypeForm) -> Result<(), Starved>
        ensures { OnOk result (self.new ≡ Part.Type (TypePart.TypeDef (type_def_at span form)) ∷ self.old) }
    {
        self.put_type(alloc, TypePart::TypeDef(type_def_at(alloc, span, form)?))
    }

    pub fn put_formed_unit(
        &mut self,
        alloc: Global,
        span: Span,
        form: UnitForm,
    ) -> Result<(), Starved>
        ensures { OnOk result (self.new ≡ Part.Unit (UnitPart.Unit (unit_at span form)) ∷ self.old) }
    {
        self.put_unit(alloc, UnitPart::Unit(unit_at(alloc, span, form)?))
    }
}
