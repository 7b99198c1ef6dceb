//! Worlds that declarations build.

ghost use Rattle.std.specs.Prelude.{◌≡◌, ℕ, Bool, List};
ghost use Rattle.ada_values.specs.declared.place.Place.{Place};
ghost use Rattle.syntax_view.specs.Trees as tree;
ghost use Rattle.front_codes.specs.declared.codes.Code.{Code};
ghost use Rattle.typed_units.specs.declared.expressions.Expr.{Expr};
ghost use Rattle.name_library.specs.declared.links.Link.{Link};
ghost use Rattle.type_base.specs.declared.entities.Entity.TheVariants.{Routine};
ghost use Rattle.type_base.specs.Standard.{linked};
ghost use Rattle.type_base.specs.Scope.{Scope};
ghost use Rattle.type_base.specs.declared.seen.Seen.TheVariants.{Typed};
ghost use Rattle.type_base.specs.declared.seen.Want.{Want};
ghost use Rattle.type_base.specs.declared.world.Subtype.{Subtype};
ghost use Rattle.typing_rules.specs.declared.prefix.Found.TheVariants.{Is};
ghost use Rattle.typing_rules.specs.Reading.{seen};
ghost use Rattle.statement_typing.specs.declared.draft.Draft.{Draft};
ghost use Rattle.statement_typing.specs.declared.parts.Noted.TheVariants.{Known, New};
ghost use Rattle.statement_typing.specs.Files.{File, Home};
ghost use Rattle.statement_typing.specs.Objects.{entered_by, object_subtype, present};
ghost use Rattle.statement_typing.specs.Routines.{profile, with_profile};
ghost use Rattle.statement_typing.specs.Subtypes.{indicated};
ghost use Rattle.statement_typing.specs.Units.{all_declared, contract_home, declared, files_declared, opened, package_named, start, sub_declared, unit_declared, with_heading};
ghost use Rattle.typing_laws.specs.Declared.{IsSound, IsThere, IsWhole, RoutineThere};
ghost use Rattle.declared_worlds.specs.Plain.{PlainFiles};
ghost use Rattle.declared_worlds.specs.Stated.{AllStated};

/// The world in which the reading of a program begins is sound, and each declaration keeps it so, also one that is refused: and with it
/// declarations one after another, the heading of a subprogram, a unit, and the files of a program in each order. So are the worlds within
/// them: that which has the subtype of an object, where its value is read; that which has a profile, where the contract is read; and that
/// which has the declarations of a body, where its statements are read. So each world in which a part of a program is read is sound.
pub fn worlds_are_sound()
    ensures start { (fs : List File) → IsSound (start fs).world }
    ensures declarations { (h : Home) (x : tree.Decl) (d : Draft) → IsSound d.world → IsSound (declared h x d).world }
    ensures values { (h : Home) (p : Place) (s : tree.SubInd) (d : Draft) → IsSound d.world → IsSound (entered_by (object_subtype (present h d) p s) d).draft.world }
    ensures lists { (h : Home) (xs : tree.Decls) (d : Draft) → IsSound d.world → IsSound (all_declared h xs d).world }
    ensures contracts { (h : Home) (q : ℕ) (s : tree.Heading) (d : Draft) → IsSound d.world → IsSound (with_profile h q s.name (profile (present (contract_home h q s) d) s) d).world }
    ensures headings { (first : Bool) (h : Home) (q : ℕ) (s : tree.Heading) (d : Draft) → IsSound d.world → IsSound (with_heading first h q s d).world }
    ensures bodies { (h : Home) (xs : tree.Decls) (d : Draft) → IsSound d.world → IsSound (all_declared h xs (opened d)).world }
    ensures subprograms { (h : Home) (s : tree.Sub) (d : Draft) → IsSound d.world → IsSound (sub_declared h s d).world }
    ensures names { (h : Home) (p : tree.Package) (d : Draft) → IsSound d.world → IsSound (package_named h p d).world }
    ensures units { (h : Home) (u : tree.UnitForm) (d : Draft) → IsSound d.world → IsSound (unit_declared h u d).world }
    ensures files { (fs : List File) (order : List ℕ) (d : Draft) → IsSound d.world → IsSound (files_declared fs order d).world }
    ensures programs { (fs : List File) (order : List ℕ) → IsSound (files_declared fs order (start fs)).world }
{}

/// What an identifier of each link stands for in such a world, where anything is known of that and it is no subprogram, stands there too:
/// the subtype that it names, or the subtype of the object, literal or constant that it is, and the constant; so all names of Standard do.
pub fn identifiers_are_stated()
    ensures start { (fs : List File) → AllStated (start fs).world }
    ensures declarations { (h : Home) (x : tree.Decl) (d : Draft) → IsSound d.world → AllStated d.world → AllStated (declared h x d).world }
    ensures values { (h : Home) (p : Place) (s : tree.SubInd) (d : Draft) → IsSound d.world → AllStated d.world → AllStated (entered_by (object_subtype (present h d) p s) d).draft.world }
    ensures lists { (h : Home) (xs : tree.Decls) (d : Draft) → IsSound d.world → AllStated d.world → AllStated (all_declared h xs d).world }
    ensures contracts { (h : Home) (q : ℕ) (s : tree.Heading) (d : Draft) → IsSound d.world → AllStated d.world → AllStated (with_profile h q s.name (profile (present (contract_home h q s) d) s) d).world }
    ensures headings { (first : Bool) (h : Home) (q : ℕ) (s : tree.Heading) (d : Draft) → IsSound d.world → AllStated d.world → AllStated (with_heading first h q s d).world }
    ensures bodies { (h : Home) (xs : tree.Decls) (d : Draft) → IsSound d.world → AllStated d.world → AllStated (all_declared h xs (opened d)).world }
    ensures subprograms { (h : Home) (s : tree.Sub) (d : Draft) → IsSound d.world → AllStated d.world → AllStated (sub_declared h s d).world }
    ensures names { (h : Home) (p : tree.Package) (d : Draft) → IsSound d.world → AllStated d.world → AllStated (package_named h p d).world }
    ensures units { (h : Home) (u : tree.UnitForm) (d : Draft) → IsSound d.world → AllStated d.world → AllStated (unit_declared h u d).world }
    ensures files { (fs : List File) (order : List ℕ) (d : Draft) → IsSound d.world → AllStated d.world → AllStated (files_declared fs order d).world }
    ensures programs { (fs : List File) (order : List ℕ) → AllStated (files_declared fs order (start fs)).world }
{}

/// In a program none of whose bodies declares a subprogram, as the rules of names demand, an identifier that stands for a subprogram stands
/// for one of the program.
pub fn subprograms_are_stated()
    ensures { (fs : List File) (order : List ℕ) → PlainFiles fs → (l : Link) (q : ℕ) → linked (files_declared fs order (start fs)).world l ≡ Routine q → RoutineThere (files_declared fs order (start fs)).world q }
{}

/// In a sound world the type of each expression that is seen stands there, and so does the subtype that an indication names, and what a
/// new one is made of: also where declarations are refused, and nothing is known of some names.
pub fn types_are_there()
    ensures expressions { (c : Scope) (w : Want) (e : tree.Expr) (t : ℕ) (x : Expr) → IsSound c.world → seen c w e ≡ Typed t x → IsThere c.world t }
    ensures subtypes { (c : Scope) (r : Code) (s : tree.SubInd) (k : ℕ) → IsSound c.world → indicated c r s ≡ Is (Known k) → IsThere c.world k }
    ensures constraints { (c : Scope) (r : Code) (s : tree.SubInd) (z : Subtype) → IsSound c.world → indicated c r s ≡ Is (New z) → IsWhole c.world z }
{}
