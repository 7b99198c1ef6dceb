//! When a declaration is accepted or refused.

ghost use Rattle.std.specs.Prelude.{ℕ, Bool, Option, List};
ghost use Rattle.ada_values.specs.declared.place.Place.{Place};
ghost use Rattle.front_codes.specs.declared.codes.Code.{Code};
ghost use Rattle.syntax_view.specs.Trees as tree;
ghost use Rattle.type_base.specs.Scope.{Scope};
ghost use Rattle.type_base.specs.declared.seen.Want.TheVariants as want;
ghost use Rattle.type_base.specs.declared.world.World.{World};
ghost use Rattle.typing_laws.specs.Declared.{IsDeclared, IsSound, IsThere};
ghost use Rattle.statement_typing.specs.Aspects.{aspects_found};
ghost use Rattle.statement_typing.specs.Asked.{place_of};
ghost use Rattle.statement_typing.specs.Checks.{all_of};
ghost use Rattle.statement_typing.specs.Files.{Home};
ghost use Rattle.statement_typing.specs.Objects.{initial, named_number, object_subtype};
ghost use Rattle.statement_typing.specs.Routines.{profile};
ghost use Rattle.statement_typing.specs.Subtypes.{indicated, part};
ghost use Rattle.statement_typing.specs.Types.{definition};
ghost use Rattle.known_statements.specs.Declared.{IsFound};
ghost use Rattle.known_declarations.specs.Declared.{AspectsDeclared, DefinitionDeclared, IndicationDeclared, IsReady, ProfileDeclared, ValueDeclared};

/// Where no declaration is refused that a part of a declaration names, the part is accepted or refused: it is never one of which
/// nothing can be said. So it is of subtype indications, definitions of types, named numbers, subtypes and values of objects, profiles
/// and aspects.
pub fn parts_known_where_declared()
    ensures indications { (c : Scope) (r : Code) (s : tree.SubInd) → IsReady c.world → IndicationDeclared c s → IsFound (indicated c r s) }
    ensures definitions { (c : Scope) (t : tree.TypeForm) → IsReady c.world → DefinitionDeclared c t → IsFound (definition c t) }
    ensures numbers { (c : Scope) (e : tree.Expr) → IsSound c.world → IsDeclared c e → IsFound (part c want.Free e (named_number c.world (place_of c e))) }
    ensures subtypes { (c : Scope) (p : Place) (s : tree.SubInd) → IsReady c.world → IndicationDeclared c s → IsFound (object_subtype c p s) }
    ensures values { (c : Scope) (p : Place) (b : Bool) (k : ℕ) (e : Option tree.Expr) → IsSound c.world → IsThere c.world k → ValueDeclared c e → IsFound (initial c p b (want.Subtype k) k e) }
    ensures profiles { (c : Scope) (h : tree.Heading) → IsReady c.world → ProfileDeclared c h → IsFound (profile c h) }
    ensures aspects { (h : Home) (w : World) (first : Bool) (ns : List ℕ) (xs : List tree.Aspect) → IsSound w → AspectsDeclared h w xs → IsFound (all_of (aspects_found h w first ns xs)) }
{}
