//! The rule of each production.

use crate::rules::{
    ArgRule, ArgsRule, AspectRule, AttributeRule, BodyRule, CaseRule, ChoiceRule, ClauseRule,
    CompositeRule, ConditionalRule, ContextRule, DeclarationRule, DirectionRule, IfRule, IndexRule,
    ItemRule, LogicRule, LoopRule, ModeRule, NameRule, NamesRule, ObjectRule, OperationRule,
    OptionalRule, OtherDeclarationRule, PackageRule, ParamRule, PrimaryRule, RelationRule, Rule,
    StatementRule, SubprogramRule, SubtypeRule, TypeFormRule, UnitRule,
};

/// The rule of each production, in their order.
pub const RULES: [Rule; 186] = [
    // File = Start Unit
    Rule::Context(ContextRule::File),
    // Start = Pragma Start
    Rule::Context(ContextRule::ContextPragma),
    // Start = with Id Ids ; Start
    Rule::Clause(ClauseRule::ContextWith),
    // Start = use Id Ids ; Start
    Rule::Clause(ClauseRule::ContextUse),
    // Start =
    Rule::Context(ContextRule::NoContext),
    // Ids = , Id Ids
    Rule::Names(NamesRule::Names),
    // Ids =
    Rule::Names(NamesRule::NoNames),
    // Unit = package Pack
    Rule::Unit(UnitRule::UnitPackage),
    // Unit = Sub
    Rule::Unit(UnitRule::UnitSub),
    // Pack = body Id Asp is Decls end EndId ;
    Rule::Package(PackageRule::PackageBody),
    // Pack = Id Asp is Decls Priv end EndId ;
    Rule::Package(PackageRule::PackageSpec),
    // Priv = private Decls
    Rule::Unit(UnitRule::SomePrivate),
    // Priv =
    Rule::Unit(UnitRule::NoPrivate),
    // EndId = Id
    Rule::Names(NamesRule::SomeEndName),
    // EndId =
    Rule::Names(NamesRule::NoEndName),
    // Decls = Decl Decls
    Rule::Declaration(DeclarationRule::Decls),
    // Decls =
    Rule::Declaration(DeclarationRule::NoDecls),
    // Decl = type Id is TypeDef ;
    Rule::Declaration(DeclarationRule::Type),
    // Decl = subtype Id is SubInd ;
    Rule::Declaration(DeclarationRule::Subtype),
    // Decl = Id Ids : Obj ;
    Rule::Declaration(DeclarationRule::Object),
    // Decl = Sub
    Rule::OtherDeclaration(OtherDeclarationRule::DeclSub),
    // Decl = Pragma
    Rule::OtherDeclaration(OtherDeclarationRule::DeclPragma),
    // Decl = use Id Ids ;
    Rule::OtherDeclaration(OtherDeclarationRule::DeclUse),
    // TypeDef = range Simple .. Simple
    Rule::TypeForm(TypeFormRule::Range),
    // TypeDef = mod Simple
    Rule::TypeForm(TypeFormRule::Modular),
    // TypeDef = ( Id Ids )
    Rule::TypeForm(TypeFormRule::Enumeration),
    // TypeDef = array ( Index ) of SubInd
    Rule::Composite(CompositeRule::Array),
    // TypeDef = record Comp Comps end record
    Rule::Composite(CompositeRule::Record),
    // TypeDef = new SubInd
    Rule::TypeForm(TypeFormRule::Derived),
    // Index = Simple IdxTail
    Rule::Index(IndexRule::Index),
    // IdxTail = range Box
    Rule::AfterWord,
    // IdxTail = .. Simple
    Rule::Index(IndexRule::IndexUpTo),
    // IdxTail =
    Rule::Index(IndexRule::IndexAlone),
    // Box = <>
    Rule::Index(IndexRule::IndexUnconstrained),
    // Box = Simple .. Simple
    Rule::Index(IndexRule::IndexWithin),
    // Comp = Id Ids : SubInd ;
    Rule::Subtype(SubtypeRule::Component),
    // Comps = Comp Comps
    Rule::Subtype(SubtypeRule::Components),
    // Comps =
    Rule::Subtype(SubtypeRule::NoComponents),
    // SubInd = Name SubTail
    Rule::Subtype(SubtypeRule::SubInd),
    // SubTail = range Simple .. Simple
    Rule::Subtype(SubtypeRule::SomeBounds),
    // SubTail =
    Rule::Subtype(SubtypeRule::NoBounds),
    // Obj = constant Const
    Rule::AfterWord,
    // Obj = SubInd Init
    Rule::Object(ObjectRule::Variable),
    // Const = := Expr
    Rule::Object(ObjectRule::NamedNumber),
    // Const = SubInd Init
    Rule::Object(ObjectRule::Constant),
    // Init = := Expr
    Rule::Optional(OptionalRule::SomeExprAfter),
    // Init =
    Rule::Optional(OptionalRule::NoExpr),
    // Sub = procedure Id Params Asp Body
    Rule::Subprogram(SubprogramRule::Procedure),
    // Sub = function Id Params return Name Asp Body
    Rule::Subprogram(SubprogramRule::Function),
    // Params = ( Param ParMore )
    Rule::Param(ParamRule::ParamGroup),
    // Params =
    Rule::Param(ParamRule::NoParams),
    // ParMore = ; Param ParMore
    Rule::Param(ParamRule::Params),
    // ParMore =
    Rule::Param(ParamRule::NoParams),
    // Param = Id Ids : Mode SubInd
    Rule::Param(ParamRule::Param),
    // Mode = in InOut
    Rule::AfterWord,
    // Mode = out
    Rule::Mode(ModeRule::ModeOut),
    // Mode =
    Rule::Mode(ModeRule::ModeUnstated),
    // InOut = out
    Rule::Mode(ModeRule::ModeInOut),
    // InOut =
    Rule::Mode(ModeRule::ModeIn),
    // Body = ;
    Rule::Body(BodyRule::NoBody),
    // Body = is Decls begin Stmts end EndId ;
    Rule::Body(BodyRule::SomeBody),
    // Asp = with Aspect AspMore
    Rule::Aspect(AspectRule::Aspects),
    // Asp =
    Rule::Aspect(AspectRule::NoAspects),
    // AspMore = , Aspect AspMore
    Rule::Aspect(AspectRule::Aspects),
    // AspMore =
    Rule::Aspect(AspectRule::NoAspects),
    // Aspect = Id AspVal
    Rule::Aspect(AspectRule::Aspect),
    // AspVal = => Item
    Rule::Optional(OptionalRule::SomeItem),
    // AspVal =
    Rule::Optional(OptionalRule::NoItem),
    // Pragma = pragma Id PragArg ;
    Rule::Aspect(AspectRule::Pragma),
    // PragArg = ( Args )
    Rule::Args(ArgsRule::ArgGroup),
    // PragArg =
    Rule::Args(ArgsRule::NoArgs),
    // Stmts = Stmt StMore
    Rule::Statement(StatementRule::Stmts),
    // StMore = Stmt StMore
    Rule::Statement(StatementRule::Stmts),
    // StMore =
    Rule::Statement(StatementRule::NoStmts),
    // Stmt = null ;
    Rule::Statement(StatementRule::Null),
    // Stmt = Name Act ;
    Rule::Statement(StatementRule::Name),
    // Stmt = if Expr then Stmts Elsifs Else end if ;
    Rule::If(IfRule::If),
    // Stmt = case Expr is When Whens end case ;
    Rule::Case(CaseRule::Case),
    // Stmt = Head loop Stmts end loop ;
    Rule::Loop(LoopRule::Loop),
    // Stmt = exit ExWhen ;
    Rule::Statement(StatementRule::Exit),
    // Stmt = return RetVal ;
    Rule::Statement(StatementRule::Return),
    // Stmt = Pragma
    Rule::Statement(StatementRule::StmtPragma),
    // Act = := Expr
    Rule::Optional(OptionalRule::SomeExprAfter),
    // Act =
    Rule::Optional(OptionalRule::NoExpr),
    // Elsifs = elsif Expr then Stmts Elsifs
    Rule::If(IfRule::Branches),
    // Elsifs =
    Rule::If(IfRule::NoBranches),
    // Else = else Stmts
    Rule::AfterWord,
    // Else =
    Rule::Statement(StatementRule::NoStmts),
    // When = when Choice Choices => Stmts
    Rule::Case(CaseRule::Alternative),
    // Whens = When Whens
    Rule::Case(CaseRule::Alternatives),
    // Whens =
    Rule::Case(CaseRule::NoAlternatives),
    // Choice = others
    Rule::Choice(ChoiceRule::ChoiceOthers),
    // Choice = Range
    Rule::Choice(ChoiceRule::ChoiceRange),
    // Choices = BAR Choice Choices
    Rule::Choice(ChoiceRule::Choices),
    // Choices =
    Rule::Choice(ChoiceRule::NoChoices),
    // Head = while Expr
    Rule::Loop(LoopRule::While),
    // Head = for Id in Rev Range
    Rule::Loop(LoopRule::For),
    // Head =
    Rule::Loop(LoopRule::Forever),
    // Rev = reverse
    Rule::Direction(DirectionRule::Reverse),
    // Rev =
    Rule::Direction(DirectionRule::Forward),
    // ExWhen = when Expr
    Rule::Optional(OptionalRule::SomeExprAfter),
    // ExWhen =
    Rule::Optional(OptionalRule::NoExpr),
    // RetVal = Expr
    Rule::Optional(OptionalRule::SomeExpr),
    // RetVal =
    Rule::Optional(OptionalRule::NoExpr),
    // Range = Simple RgTail
    Rule::Item(ItemRule::Range),
    // RgTail = .. Simple
    Rule::Optional(OptionalRule::SomeExprAfter),
    // RgTail =
    Rule::Optional(OptionalRule::NoExpr),
    // Item = Cond
    Rule::Same,
    // Item = Expr
    Rule::Item(ItemRule::Plain),
    // Cond = for AllSome Id in Range => Expr
    Rule::Item(ItemRule::Quantified),
    // Cond = if Expr then Expr IfMore IfElse
    Rule::Conditional(ConditionalRule::If),
    // AllSome = all
    Rule::Same,
    // AllSome = some
    Rule::Same,
    // IfMore = elsif Expr then Expr IfMore
    Rule::Conditional(ConditionalRule::Arms),
    // IfMore =
    Rule::Conditional(ConditionalRule::NoArms),
    // IfElse = else Expr
    Rule::Optional(OptionalRule::SomeExprAfter),
    // IfElse =
    Rule::Optional(OptionalRule::NoExpr),
    // Args = Arg ArgMore
    Rule::Args(ArgsRule::Args),
    // ArgMore = , Arg ArgMore
    Rule::Args(ArgsRule::ArgsAfter),
    // ArgMore =
    Rule::Args(ArgsRule::NoArgs),
    // Arg = others => Item
    Rule::Arg(ArgRule::ArgOthers),
    // Arg = Cond ArgVal
    Rule::Arg(ArgRule::ArgItem),
    // Arg = Simple ArgMid
    Rule::Arg(ArgRule::ArgSimple),
    // ArgMid = .. Simple ArgVal
    Rule::Arg(ArgRule::ArgUpTo),
    // ArgMid = RelTail Logic ArgVal
    Rule::Arg(ArgRule::ArgRest),
    // ArgVal = => Item
    Rule::Optional(OptionalRule::SomeItem),
    // ArgVal =
    Rule::Optional(OptionalRule::NoItem),
    // Expr = Rel Logic
    Rule::Operation(OperationRule::Grouped),
    // Logic = and AndRest
    Rule::Logic(LogicRule::Logic),
    // Logic = or OrRest
    Rule::Logic(LogicRule::Logic),
    // Logic = xor Rel XorMore
    Rule::Operation(OperationRule::Operations),
    // Logic =
    Rule::Operation(OperationRule::NoOperations),
    // AndRest = then Rel ThenMore
    Rule::Logic(LogicRule::LogicShort),
    // AndRest = Rel AndMore
    Rule::Logic(LogicRule::LogicPlain),
    // ThenMore = and then Rel ThenMore
    Rule::Logic(LogicRule::ShortOperations),
    // ThenMore =
    Rule::Operation(OperationRule::NoOperations),
    // AndMore = and Rel AndMore
    Rule::Operation(OperationRule::Operations),
    // AndMore =
    Rule::Operation(OperationRule::NoOperations),
    // OrRest = else Rel ElseMore
    Rule::Logic(LogicRule::LogicShort),
    // OrRest = Rel OrMore
    Rule::Logic(LogicRule::LogicPlain),
    // ElseMore = or else Rel ElseMore
    Rule::Logic(LogicRule::ShortOperations),
    // ElseMore =
    Rule::Operation(OperationRule::NoOperations),
    // OrMore = or Rel OrMore
    Rule::Operation(OperationRule::Operations),
    // OrMore =
    Rule::Operation(OperationRule::NoOperations),
    // XorMore = xor Rel XorMore
    Rule::Operation(OperationRule::Operations),
    // XorMore =
    Rule::Operation(OperationRule::NoOperations),
    // Rel = Simple RelTail
    Rule::Relation(RelationRule::Relation),
    // RelTail = RelOp Simple
    Rule::Relation(RelationRule::Compare),
    // RelTail = in Range
    Rule::Relation(RelationRule::In),
    // RelTail = not in Range
    Rule::Relation(RelationRule::NotIn),
    // RelTail =
    Rule::Relation(RelationRule::NoRelation),
    // RelOp = =
    Rule::Same,
    // RelOp = /=
    Rule::Same,
    // RelOp = <
    Rule::Same,
    // RelOp = <=
    Rule::Same,
    // RelOp = >
    Rule::Same,
    // RelOp = >=
    Rule::Same,
    // Simple = + Term AddMore
    Rule::Operation(OperationRule::Signed),
    // Simple = - Term AddMore
    Rule::Operation(OperationRule::Signed),
    // Simple = Term AddMore
    Rule::Operation(OperationRule::Grouped),
    // AddMore = + Term AddMore
    Rule::Operation(OperationRule::Operations),
    // AddMore = - Term AddMore
    Rule::Operation(OperationRule::Operations),
    // AddMore =
    Rule::Operation(OperationRule::NoOperations),
    // Term = Factor MulMore
    Rule::Operation(OperationRule::Grouped),
    // MulMore = * Factor MulMore
    Rule::Operation(OperationRule::Operations),
    // MulMore = / Factor MulMore
    Rule::Operation(OperationRule::Operations),
    // MulMore = mod Factor MulMore
    Rule::Operation(OperationRule::Operations),
    // MulMore = rem Factor MulMore
    Rule::Operation(OperationRule::Operations),
    // MulMore =
    Rule::Operation(OperationRule::NoOperations),
    // Factor = abs Primary
    Rule::Operation(OperationRule::Prefixed),
    // Factor = not Primary
    Rule::Operation(OperationRule::Prefixed),
    // Factor = Primary Pow
    Rule::Operation(OperationRule::Grouped),
    // Pow = ** Primary
    Rule::Operation(OperationRule::Power),
    // Pow =
    Rule::Operation(OperationRule::NoOperations),
    // Primary = Num
    Rule::Primary(PrimaryRule::Number),
    // Primary = null
    Rule::Primary(PrimaryRule::Null),
    // Primary = Name
    Rule::Primary(PrimaryRule::Primary),
    // Primary = ( Args )
    Rule::Primary(PrimaryRule::Group),
    // Name = Id Suffix
    Rule::Name(NameRule::Name),
    // Suffix = . Id Suffix
    Rule::Name(NameRule::Selected),
    // Suffix = ' Tick Suffix
    Rule::Name(NameRule::Ticked),
    // Suffix = ( Args ) Suffix
    Rule::Name(NameRule::Applied),
    // Suffix =
    Rule::Name(NameRule::NoSuffixes),
    // Tick = Id
    Rule::Attribute(AttributeRule::NamedAttribute),
    // Tick = range
    Rule::Attribute(AttributeRule::RangeAttribute),
    // Tick = ( Args )
    Rule::Attribute(AttributeRule::Qualified),
];
