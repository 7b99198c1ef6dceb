//! What a production makes of its parts.

/// What becomes of a file and of pragmas before its unit (Ada RM 2.8, 10.1.1).
#[derive(Clone, Copy)]
pub enum ContextRule {
    /// `File = Start Unit`
    File,
    /// `Start = Pragma Start`
    ContextPragma,
    /// `Start =`
    NoContext,
}

/// What becomes of the with and use clauses before a unit (Ada RM 8.4, 10.1.2).
#[derive(Clone, Copy)]
pub enum ClauseRule {
    /// `Start = with Id Ids ; Start`
    ContextWith,
    /// `Start = use Id Ids ; Start`
    ContextUse,
}

/// What becomes of lists of names and of the name after an `end`.
#[derive(Clone, Copy)]
pub enum NamesRule {
    /// `Ids = , Id Ids`
    Names,
    /// `Ids =`
    NoNames,
    /// `EndId = Id`
    SomeEndName,
    /// `EndId =`
    NoEndName,
}

/// What becomes of library units and of private parts (Ada RM 7.1, 10.1.1).
#[derive(Clone, Copy)]
pub enum UnitRule {
    /// `Unit = package Pack`
    UnitPackage,
    /// `Unit = Sub`
    UnitSub,
    /// `Priv = private Decls`
    SomePrivate,
    /// `Priv =`
    NoPrivate,
}

/// What becomes of packages (Ada RM 7.1, 7.2).
#[derive(Clone, Copy)]
pub enum PackageRule {
    /// `Pack = body Id Asp is Decls end EndId ;`
    PackageBody,
    /// `Pack = Id Asp is Decls Priv end EndId ;`
    PackageSpec,
}

/// What becomes of declarations of types, subtypes and objects (Ada RM 3.2.1, 3.2.2, 3.3.1, 3.11).
#[derive(Clone, Copy)]
pub enum DeclarationRule {
    /// `Decls = Decl Decls`
    Decls,
    /// `Decls =`
    NoDecls,
    /// `Decl = type Id is TypeDef ;`
    Type,
    /// `Decl = subtype Id is SubInd ;`
    Subtype,
    /// `Decl = Id Ids : Obj ;`
    Object,
}

/// What becomes of subprograms, pragmas and use clauses among declarations (Ada RM 3.11, 8.4).
#[derive(Clone, Copy)]
pub enum OtherDeclarationRule {
    /// `Decl = Sub`
    DeclSub,
    /// `Decl = Pragma`
    DeclPragma,
    /// `Decl = use Id Ids ;`
    DeclUse,
}

/// What becomes of objects and named numbers (Ada RM 3.3.1, 3.3.2).
#[derive(Clone, Copy)]
pub enum ObjectRule {
    /// `Obj = SubInd Init`
    Variable,
    /// `Const = := Expr`
    NamedNumber,
    /// `Const = SubInd Init`
    Constant,
}

/// What becomes of definitions of scalar and derived types (Ada RM 3.4, 3.5.1, 3.5.4).
#[derive(Clone, Copy)]
pub enum TypeFormRule {
    /// `TypeDef = range Simple .. Simple`
    Range,
    /// `TypeDef = mod Simple`
    Modular,
    /// `TypeDef = ( Id Ids )`
    Enumeration,
    /// `TypeDef = new SubInd`
    Derived,
}

/// What becomes of definitions of array and record types (Ada RM 3.6, 3.8).
#[derive(Clone, Copy)]
pub enum CompositeRule {
    /// `TypeDef = array ( Index ) of SubInd`
    Array,
    /// `TypeDef = record Comp Comps end record`
    Record,
}

/// What becomes of the indexes of array types (Ada RM 3.6).
#[derive(Clone, Copy)]
pub enum IndexRule {
    /// `Index = Simple IdxTail`
    Index,
    /// `IdxTail = .. Simple`
    IndexUpTo,
    /// `IdxTail =`
    IndexAlone,
    /// `Box = <>`
    IndexUnconstrained,
    /// `Box = Simple .. Simple`
    IndexWithin,
}

/// What becomes of components and subtype indications (Ada RM 3.2.2, 3.8).
#[derive(Clone, Copy)]
pub enum SubtypeRule {
    /// `Comp = Id Ids : SubInd ;`
    Component,
    /// `Comps = Comp Comps`
    Components,
    /// `Comps =`
    NoComponents,
    /// `SubInd = Name SubTail`
    SubInd,
    /// `SubTail = range Simple .. Simple`
    SomeBounds,
    /// `SubTail =`
    NoBounds,
}

/// What becomes of subprograms (Ada RM 6.1).
#[derive(Clone, Copy)]
pub enum SubprogramRule {
    /// `Sub = procedure Id Params Asp Body`
    Procedure,
    /// `Sub = function Id Params return Name Asp Body`
    Function,
}

/// What becomes of bodies of subprograms (Ada RM 6.3).
#[derive(Clone, Copy)]
pub enum BodyRule {
    /// `Body = ;`
    NoBody,
    /// `Body = is Decls begin Stmts end EndId ;`
    SomeBody,
}

/// What becomes of formal parameters (Ada RM 6.1).
#[derive(Clone, Copy)]
pub enum ParamRule {
    /// `Params = ( Param ParMore )`
    ParamGroup,
    /// `Params = | ParMore =`
    NoParams,
    /// `ParMore = ; Param ParMore`
    Params,
    /// `Param = Id Ids : Mode SubInd`
    Param,
}

/// What becomes of modes (Ada RM 6.1).
#[derive(Clone, Copy)]
pub enum ModeRule {
    /// `Mode = out`
    ModeOut,
    /// `Mode =`
    ModeUnstated,
    /// `InOut = out`
    ModeInOut,
    /// `InOut =`
    ModeIn,
}

/// What becomes of aspects and pragmas (Ada RM 2.8, 13.1.1).
#[derive(Clone, Copy)]
pub enum AspectRule {
    /// `Asp = with Aspect AspMore | AspMore = , Aspect AspMore`
    Aspects,
    /// `Asp = | AspMore =`
    NoAspects,
    /// `Aspect = Id AspVal`
    Aspect,
    /// `Pragma = pragma Id PragArg ;`
    Pragma,
}

/// What becomes of sequences of statements and of simple statements (Ada RM 5.1, 5.2, 5.7, 6.4, 6.5).
#[derive(Clone, Copy)]
pub enum StatementRule {
    /// `Stmts = Stmt StMore | StMore = Stmt StMore`
    Stmts,
    /// `StMore = | Else =`
    NoStmts,
    /// `Stmt = null ;`
    Null,
    /// `Stmt = Name Act ;`
    Name,
    /// `Stmt = exit ExWhen ;`
    Exit,
    /// `Stmt = return RetVal ;`
    Return,
    /// `Stmt = Pragma`
    StmtPragma,
}

/// What becomes of `if` (Ada RM 5.3).
#[derive(Clone, Copy)]
pub enum IfRule {
    /// `Stmt = if Expr then Stmts Elsifs Else end if ;`
    If,
    /// `Elsifs = elsif Expr then Stmts Elsifs`
    Branches,
    /// `Elsifs =`
    NoBranches,
}

/// What becomes of `case` and its alternatives (Ada RM 5.4).
#[derive(Clone, Copy)]
pub enum CaseRule {
    /// `Stmt = case Expr is When Whens end case ;`
    Case,
    /// `When = when Choice Choices => Stmts`
    Alternative,
    /// `Whens = When Whens`
    Alternatives,
    /// `Whens =`
    NoAlternatives,
}

/// What becomes of the choices of a `case` (Ada RM 3.8.1).
#[derive(Clone, Copy)]
pub enum ChoiceRule {
    /// `Choice = others`
    ChoiceOthers,
    /// `Choice = Range`
    ChoiceRange,
    /// `Choices = "|" Choice Choices`
    Choices,
    /// `Choices =`
    NoChoices,
}

/// What becomes of loops (Ada RM 5.5).
#[derive(Clone, Copy)]
pub enum LoopRule {
    /// `Stmt = Head loop Stmts end loop ;`
    Loop,
    /// `Head = while Expr`
    While,
    /// `Head = for Id in Rev Range`
    For,
    /// `Head =`
    Forever,
}

/// What becomes of the direction of a loop (Ada RM 5.5).
#[derive(Clone, Copy)]
pub enum DirectionRule {
    /// `Rev = reverse`
    Reverse,
    /// `Rev =`
    Forward,
}

/// What becomes of what may be left out: values and results (Ada RM 3.3.1, 6.5, 13.1.1).
#[derive(Clone, Copy)]
pub enum OptionalRule {
    /// `Init = := Expr, and the like`
    SomeExprAfter,
    /// `RetVal = Expr`
    SomeExpr,
    /// `Init =, and the like`
    NoExpr,
    /// `AspVal = => Item | ArgVal = => Item`
    SomeItem,
    /// `AspVal = | ArgVal =`
    NoItem,
}

/// What becomes of ranges and of quantified expressions (Ada RM 3.5, 4.5.8).
#[derive(Clone, Copy)]
pub enum ItemRule {
    /// `Range = Simple RgTail`
    Range,
    /// `Item = Expr`
    Plain,
    /// `Cond = for AllSome Id in Range => Expr`
    Quantified,
}

/// What becomes of if-expressions (Ada RM 4.5.7).
#[derive(Clone, Copy)]
pub enum ConditionalRule {
    /// `Cond = if Expr then Expr IfMore IfElse`
    If,
    /// `IfMore = elsif Expr then Expr IfMore`
    Arms,
    /// `IfMore =`
    NoArms,
}

/// What becomes of lists of arguments (Ada RM 2.8, 4.3, 6.4).
#[derive(Clone, Copy)]
pub enum ArgsRule {
    /// `PragArg = ( Args )`
    ArgGroup,
    /// `PragArg = | ArgMore =`
    NoArgs,
    /// `Args = Arg ArgMore`
    Args,
    /// `ArgMore = , Arg ArgMore`
    ArgsAfter,
}

/// What becomes of arguments and associations (Ada RM 4.3, 6.4).
#[derive(Clone, Copy)]
pub enum ArgRule {
    /// `Arg = others => Item`
    ArgOthers,
    /// `Arg = Cond ArgVal`
    ArgItem,
    /// `Arg = Simple ArgMid`
    ArgSimple,
    /// `ArgMid = .. Simple ArgVal`
    ArgUpTo,
    /// `ArgMid = RelTail Logic ArgVal`
    ArgRest,
}

/// What becomes of logical operators and short-circuit forms (Ada RM 4.4, 4.5.1).
#[derive(Clone, Copy)]
pub enum LogicRule {
    /// `Logic = and AndRest | Logic = or OrRest`
    Logic,
    /// `AndRest = then Rel ThenMore | OrRest = else Rel ElseMore`
    LogicShort,
    /// `AndRest = Rel AndMore | OrRest = Rel OrMore`
    LogicPlain,
    /// `ThenMore = and then Rel ThenMore | ElseMore = or else Rel ElseMore`
    ShortOperations,
}

/// What becomes of the other operators (Ada RM 4.4, 4.5).
#[derive(Clone, Copy)]
pub enum OperationRule {
    /// `Expr = Rel Logic | Simple = Term AddMore | Term = Factor MulMore | Factor = Primary Pow`
    Grouped,
    /// `AddMore = + Term AddMore, and the like`
    Operations,
    /// `AddMore =, and the like`
    NoOperations,
    /// `Pow = ** Primary`
    Power,
    /// `Simple = + Term AddMore | Simple = - Term AddMore`
    Signed,
    /// `Factor = abs Primary | Factor = not Primary`
    Prefixed,
}

/// What becomes of relations (Ada RM 4.4, 4.5.2).
#[derive(Clone, Copy)]
pub enum RelationRule {
    /// `Rel = Simple RelTail`
    Relation,
    /// `RelTail = RelOp Simple`
    Compare,
    /// `RelTail = in Range`
    In,
    /// `RelTail = not in Range`
    NotIn,
    /// `RelTail =`
    NoRelation,
}

/// What becomes of primaries (Ada RM 4.4).
#[derive(Clone, Copy)]
pub enum PrimaryRule {
    /// `Primary = Num`
    Number,
    /// `Primary = null`
    Null,
    /// `Primary = Name`
    Primary,
    /// `Primary = ( Args )`
    Group,
}

/// What becomes of names and their suffixes (Ada RM 4.1).
#[derive(Clone, Copy)]
pub enum NameRule {
    /// `Name = Id Suffix`
    Name,
    /// `Suffix = . Id Suffix`
    Selected,
    /// `Suffix = ' Tick Suffix`
    Ticked,
    /// `Suffix = ( Args ) Suffix`
    Applied,
    /// `Suffix =`
    NoSuffixes,
}

/// What becomes of what stands after a tick (Ada RM 4.1.4, 4.7).
#[derive(Clone, Copy)]
pub enum AttributeRule {
    /// `Tick = Id`
    NamedAttribute,
    /// `Tick = range`
    RangeAttribute,
    /// `Tick = ( Args )`
    Qualified,
}

/// What a production makes of its parts.
#[derive(Clone, Copy)]
pub enum Rule {
    /// The only part stays as it is.
    Same,
    /// The second part stays as it is, without the word before it.
    AfterWord,
    Context(ContextRule),
    Clause(ClauseRule),
    Names(NamesRule),
    Unit(UnitRule),
    Package(PackageRule),
    Declaration(DeclarationRule),
    OtherDeclaration(OtherDeclarationRule),
    Object(ObjectRule),
    TypeForm(TypeFormRule),
    Composite(CompositeRule),
    Index(IndexRule),
    Subtype(SubtypeRule),
    Subprogram(SubprogramRule),
    Body(BodyRule),
    Param(ParamRule),
    Mode(ModeRule),
    Aspect(AspectRule),
    Statement(StatementRule),
    If(IfRule),
    Case(CaseRule),
    Choice(ChoiceRule),
    Loop(LoopRule),
    Direction(DirectionRule),
    Optional(OptionalRule),
    Item(ItemRule),
    Conditional(ConditionalRule),
    Args(ArgsRule),
    Arg(ArgRule),
    Logic(LogicRule),
    Operation(OperationRule),
    Relation(RelationRule),
    Primary(PrimaryRule),
    Name(NameRule),
    Attribute(AttributeRule),
}
