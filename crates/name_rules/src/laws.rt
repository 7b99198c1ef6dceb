//! The rules of names: worked cases, and what the answer is.
//!
//! In the cases a name is a number: 30 P, 31 Q, 32 R, 40 A, 41 B, 42 C, 43 T; of Standard, 3 is `Integer` and 7 `Float`. A place is a
//! number too, in its file. `refuses rule 1 20` is a refusal at place 20 of file 1, and `leads 2 40 1 20` a link from place 40 of
//! file 2 to the declaration at place 20 of file 1.

ghost use Rattle.std.specs.Prelude.{◌≡◌, List, [], ◌∷◌, ◌++◌, true, false, Some};
ghost use Rattle.name_library.specs.Chains.{IsOrder, order};
ghost use Rattle.name_library.specs.Library.{library};
ghost use Rattle.name_library.specs.declared.events.Event.{Event};
ghost use Rattle.name_library.specs.declared.links.NameFault.TheVariants as rule;
ghost use Rattle.name_rules.specs.Faults.{IsFirst, answer, faults, first_of, usages};
ghost use Rattle.name_rules.specs.declared.program.Answer.TheVariants.{Named, Refused};
ghost use Rattle.name_library.specs.declared.links.Fault.{Fault};
ghost use Rattle.name_library.specs.declared.links.Usage.{Usage};
ghost use Rattle.name_rules.specs.Cases.{refuses, leads, leads_to_standard, uses, integer, object, procedure, by_in, by_out, package_of, body, with_use, loop_over, record_of, type_of, in_aspect, selects, end_name, in_choice, left_out, list_ends, literals, result_ends, clause_uses, withs, context_uses, p_with_a, r_with_a, q_declared, q_in_body};

/// The refusal is the first of all broken rules by file, place and rule, and there is none exactly where no rule is broken.
pub fn refusals_are_first()
    ensures { (files : List (List Event)) → IsFirst (first_of (faults files)) (faults files) }
{}

/// What is refused is the first of all broken rules; and where a program's names are told, no rule is broken.
pub fn answers_are_right()
    ensures refused { (files : List (List Event)) (f : Fault) → answer files ≡ Refused f → IsFirst (Some f) (faults files) }
    ensures named { (files : List (List Event)) (us : List Usage) → answer files ≡ Named us → (faults files ≡ []) × (us ≡ usages files) }
{}

/// Where a program's names are told, the order of its units leaves none out, and each comes after what it depends on.
pub fn named_units_are_in_order()
    ensures { (files : List (List Event)) (us : List Usage) → answer files ≡ Named us → IsOrder (library files) (order (library files)) }
{}

/// A name stands for a declaration before it, and not inside that declaration.
pub fn unknown_names()
    ensures not_declared { answer (procedure true 30 10 [] (uses 40 20) ∷ []) ≡ refuses rule.UnknownName 0 20 }
    ensures declared { answer (procedure true 30 10 [] (object 40 20 (integer 24) ++ uses 40 30) ∷ []) ≡ Named (leads_to_standard 0 24 3 ∷ leads 0 30 0 20 ∷ []) }
    ensures declared_later { answer (procedure true 30 10 [] (uses 40 15 ++ object 40 20 (integer 24)) ∷ []) ≡ refuses rule.UnknownName 0 15 }
    ensures in_itself { answer (procedure true 30 10 [] (object 40 20 (uses 40 24)) ∷ []) ≡ refuses rule.UnknownName 0 24 }
    ensures in_itself_below_another { answer (procedure true 30 10 [] (object 40 20 (integer 24) ++ loop_over 40 30 (uses 40 35) []) ∷ []) ≡ refuses rule.UnknownName 0 35 }
    ensures loop_parameter { answer (procedure true 30 10 [] (object 40 20 (integer 24) ++ loop_over 40 30 [] (uses 40 35)) ∷ []) ≡ Named (leads_to_standard 0 24 3 ∷ leads 0 35 0 30 ∷ []) }
    ensures after_the_loop { answer (procedure true 30 10 [] (loop_over 40 30 [] [] ++ uses 40 50) ∷ []) ≡ refuses rule.UnknownName 0 50 }
    ensures component { answer (procedure true 30 10 [] (object 40 20 (integer 24) ++ record_of 43 30 (object 40 35 (integer 38) ++ object 41 40 (uses 40 44))) ∷ []) ≡ refuses rule.UnknownName 0 44 }
{}

/// Names of package Standard, and those of them that the profile leaves out.
pub fn names_of_standard()
    ensures left_out { answer (procedure true 30 10 [] (object 40 20 (uses 7 24)) ∷ []) ≡ refuses rule.UnknownName 0 24 }
    ensures not_by_use { answer (package_of 30 10 (type_of 7 20) ∷ (with_use 30 5 ++ procedure true 31 20 [] (object 40 30 (uses 7 34))) ∷ []) ≡ refuses rule.UnknownName 1 34 }
    ensures selected { answer (package_of 30 10 (type_of 7 20) ∷ (with_use 30 5 ++ procedure true 31 20 [] (object 40 30 (selects 30 34 7 36))) ∷ []) ≡ Named (leads 1 5 0 10 ∷ leads 1 10 0 10 ∷ leads 1 34 0 10 ∷ leads 1 36 0 20 ∷ []) }
    ensures declared_again { answer (procedure true 30 10 [] (object 7 20 (integer 24) ++ uses 7 30) ∷ []) ≡ Named (leads_to_standard 0 24 3 ∷ leads 0 30 0 20 ∷ []) }
{}

/// With and use clauses; a name that they make visible, and an inner one before it.
pub fn visible_by_use()
    ensures no_unit { answer ((withs 30 5 ++ procedure true 31 20 [] []) ∷ []) ≡ refuses rule.UnknownName 0 5 }
    ensures not_withed { answer (p_with_a ∷ procedure true 31 20 [] (selects 30 40 40 42) ∷ []) ≡ refuses rule.UnknownName 1 40 }
    ensures not_used { answer (p_with_a ∷ (withs 30 5 ++ procedure true 31 20 [] (uses 40 40)) ∷ []) ≡ refuses rule.UnknownName 1 40 }
    ensures by_use { answer (p_with_a ∷ (with_use 30 5 ++ procedure true 31 20 [] (uses 40 40)) ∷ []) ≡ Named (leads_to_standard 0 24 3 ∷ leads 1 5 0 10 ∷ leads 1 10 0 10 ∷ leads 1 40 0 20 ∷ []) }
    ensures inner_before_used { answer (p_with_a ∷ (with_use 30 5 ++ procedure true 31 20 [] (object 40 30 (integer 34) ++ uses 40 40)) ∷ []) ≡ Named (leads_to_standard 0 24 3 ∷ leads 1 5 0 10 ∷ leads 1 10 0 10 ∷ leads_to_standard 1 34 3 ∷ leads 1 40 1 30 ∷ []) }
    ensures not_exported { answer (p_with_a ∷ (withs 30 5 ++ procedure true 31 20 [] (selects 30 40 41 42)) ∷ []) ≡ refuses rule.UnknownName 1 42 }
    ensures without_own_with { answer (p_with_a ∷ (withs 30 5 ++ package_of 31 10 (procedure false 41 20 [] [])) ∷ (context_uses 30 5 ++ body 31 10 (procedure true 41 20 [] [])) ∷ []) ≡ refuses rule.UnknownName 2 5 }
{}

/// A name that two packages make visible, and one whose declaration changes before its declaration list ends.
pub fn ambiguous_names()
    ensures two_packages { answer (p_with_a ∷ r_with_a ∷ (with_use 30 5 ++ with_use 32 15 ++ procedure true 31 30 [] (uses 40 40)) ∷ []) ≡ refuses rule.AmbiguousName 2 40 }
    ensures selected { answer (p_with_a ∷ r_with_a ∷ (withs 30 5 ++ withs 32 15 ++ procedure true 31 30 [] (selects 32 40 40 42)) ∷ []) ≡ Named (leads_to_standard 0 24 3 ∷ leads_to_standard 1 24 3 ∷ leads 2 5 0 10 ∷ leads 2 15 1 10 ∷ leads 2 40 1 10 ∷ leads 2 42 1 20 ∷ []) }
    ensures twice { answer (p_with_a ∷ (with_use 30 5 ++ with_use 30 15 ++ procedure true 31 30 [] (uses 40 40)) ∷ []) ≡ Named (leads_to_standard 0 24 3 ∷ leads 1 5 0 10 ∷ leads 1 10 0 10 ∷ leads 1 15 0 10 ∷ leads 1 20 0 10 ∷ leads 1 40 0 20 ∷ []) }
    ensures changed_in_list { answer (p_with_a ∷ (with_use 30 5 ++ package_of 31 20 (procedure false 41 30 [] (in_aspect 40 40) ++ object 40 50 (integer 54))) ∷ q_in_body ∷ []) ≡ refuses rule.AmbiguousName 1 40 }
    ensures unchanged { answer (p_with_a ∷ (with_use 30 5 ++ package_of 31 20 (procedure false 41 30 [] (in_aspect 40 40))) ∷ q_in_body ∷ []) ≡ Named (leads_to_standard 0 24 3 ∷ leads 1 5 0 10 ∷ leads 1 10 0 10 ∷ leads 1 40 0 20 ∷ leads 2 10 1 20 ∷ leads 2 20 1 30 ∷ []) }
{}

/// Two declarations of a name in one scope, and in two; two units of one name.
pub fn duplicates()
    ensures one_scope { answer (procedure true 30 10 [] (object 40 20 (integer 24) ++ object 40 30 (integer 34)) ∷ []) ≡ refuses rule.Duplicate 0 30 }
    ensures two_scopes { answer (procedure true 30 10 [] (loop_over 40 20 [] [] ++ loop_over 40 30 [] (uses 40 35)) ∷ []) ≡ Named (leads 0 35 0 30 ∷ []) }
    ensures parameter { answer (procedure true 30 10 (by_in 40 15 (integer 18)) (object 40 20 (integer 24)) ∷ []) ≡ refuses rule.Duplicate 0 20 }
    ensures name_of_the_subprogram { answer (procedure true 30 10 (by_in 30 15 (integer 18)) (uses 30 20) ∷ []) ≡ Named (leads_to_standard 0 18 3 ∷ leads 0 20 0 15 ∷ []) }
    ensures components { answer (procedure true 30 10 [] (record_of 43 30 (object 40 35 (integer 38) ++ object 40 40 (integer 44))) ∷ []) ≡ refuses rule.Duplicate 0 40 }
    ensures two_units { answer (procedure true 30 10 [] [] ∷ procedure true 30 10 [] [] ∷ []) ≡ refuses rule.Duplicate 1 10 }
    ensures unit_of_standard { answer (procedure true 3 10 [] [] ∷ []) ≡ refuses rule.Duplicate 0 10 }
{}

/// A second declaration where both are subprograms or one is a literal; a body of a declaration is none.
pub fn overloaded()
    ensures two_declarations { answer (package_of 31 10 (procedure false 41 20 [] [] ++ procedure false 41 30 [] []) ∷ q_in_body ∷ []) ≡ refuses rule.Overloaded 0 30 }
    ensures two_bodies { answer (q_declared ∷ body 31 10 (procedure true 41 20 [] [] ++ procedure true 41 30 [] []) ∷ []) ≡ refuses rule.Overloaded 1 30 }
    ensures literal_of_a_name { answer (procedure true 30 10 [] (object 40 20 (integer 24) ++ literals 43 30 40 35) ∷ []) ≡ refuses rule.Overloaded 0 35 }
    ensures literal_in_another_scope { answer (package_of 30 10 (literals 43 20 40 25) ∷ (with_use 30 5 ++ procedure true 31 20 [] (literals 43 30 40 35 ++ uses 40 40)) ∷ []) ≡ Named (leads 1 5 0 10 ∷ leads 1 10 0 10 ∷ leads 1 40 1 35 ∷ []) }
{}

/// A circle of with clauses, and bodies that name each other's packages.
pub fn circles()
    ensures two_packages { answer ((withs 31 5 ++ package_of 30 10 []) ∷ (withs 30 5 ++ package_of 31 10 []) ∷ []) ≡ refuses rule.WithCycle 0 5 }
    ensures itself { answer ((withs 30 5 ++ package_of 30 10 []) ∷ []) ≡ refuses rule.WithCycle 0 5 }
    ensures off_the_circle { answer ((withs 31 5 ++ package_of 30 10 []) ∷ (withs 32 5 ++ package_of 31 10 []) ∷ (withs 31 5 ++ package_of 32 10 []) ∷ []) ≡ refuses rule.WithCycle 1 5 }
    ensures bodies_with_each_other { answer ((withs 31 5 ++ package_of 30 10 []) ∷ q_declared ∷ (withs 30 5 ++ q_in_body) ∷ []) ≡ Named (leads 0 5 1 10 ∷ leads 2 5 0 10 ∷ leads 2 10 1 10 ∷ leads 2 20 1 20 ∷ []) }
{}

/// Declarations without bodies, and bodies without declarations.
pub fn missing_bodies()
    ensures no_package_body { answer (q_declared ∷ []) ≡ refuses rule.MissingBody 0 10 }
    ensures subprogram { answer (body 31 10 [] ∷ q_declared ∷ []) ≡ refuses rule.MissingBody 1 20 }
    ensures in_body { answer (q_declared ∷ body 31 10 (procedure true 41 20 [] [] ++ procedure false 42 30 [] []) ∷ []) ≡ refuses rule.MissingBody 1 30 }
    ensures library_subprogram { answer (procedure false 30 10 [] [] ∷ []) ≡ refuses rule.MissingBody 0 10 }
    ensures with_body { answer (procedure false 30 10 [] [] ∷ procedure true 30 10 [] [] ∷ []) ≡ Named (leads 1 10 0 10 ∷ []) }
    ensures body_alone { answer (q_in_body ∷ []) ≡ refuses rule.UnknownName 0 10 }
    ensures body_not_allowed { answer (p_with_a ∷ body 30 10 [] ∷ []) ≡ refuses rule.SpecMismatch 1 10 }
{}

/// A body repeats its declaration, and its names lead to the first spelling.
pub fn bodies()
    ensures repeated { answer (package_of 31 10 (procedure false 41 20 (by_in 40 25 (integer 28)) []) ∷ body 31 10 (procedure true 41 20 (by_in 40 25 (integer 28)) (uses 40 40 ++ uses 41 45)) ∷ []) ≡ Named (leads_to_standard 0 28 3 ∷ leads 1 10 0 10 ∷ leads 1 20 0 20 ∷ leads 1 25 0 25 ∷ leads_to_standard 1 28 3 ∷ leads 1 40 0 25 ∷ leads 1 45 0 20 ∷ []) }
    ensures another_mode { answer (package_of 31 10 (procedure false 41 20 (by_in 40 25 (integer 28)) []) ∷ body 31 10 (procedure true 41 20 (by_out 40 25 (integer 28)) []) ∷ []) ≡ refuses rule.SpecMismatch 1 20 }
    ensures another_name { answer (package_of 31 10 (procedure false 41 20 (by_in 40 25 (integer 28)) []) ∷ body 31 10 (procedure true 41 20 (by_in 42 25 (integer 28)) []) ∷ []) ≡ refuses rule.SpecMismatch 1 20 }
    ensures another_subtype { answer (package_of 31 10 (procedure false 41 20 (by_in 40 25 (integer 28)) []) ∷ body 31 10 (procedure true 41 20 (by_in 40 25 (uses 4 28)) []) ∷ []) ≡ refuses rule.SpecMismatch 1 20 }
    ensures another_number { answer (package_of 31 10 (procedure false 41 20 (by_in 40 25 (integer 28)) []) ∷ q_in_body ∷ []) ≡ refuses rule.SpecMismatch 1 20 }
    ensures another_end { answer (procedure true 30 10 [] (end_name 31 20) ∷ []) ≡ refuses rule.SpecMismatch 0 20 }
    ensures own_end { answer (procedure true 30 10 [] (end_name 30 20) ∷ []) ≡ Named (leads 0 20 0 10 ∷ []) }
    ensures sees_declarations { answer (package_of 31 10 (procedure false 41 20 [] [] ++ object 40 30 (integer 34)) ∷ body 31 10 (procedure true 41 20 [] (uses 40 40 ++ selects 31 50 40 52)) ∷ []) ≡ Named (leads_to_standard 0 34 3 ∷ leads 1 10 0 10 ∷ leads 1 20 0 20 ∷ leads 1 40 0 30 ∷ leads 1 50 0 10 ∷ leads 1 52 0 30 ∷ []) }
{}

/// What is left out is told where it stands, and the first file's fault before a later file's.
pub fn order_of_refusals()
    ensures left_out { answer (procedure true 30 10 [] (left_out 20 ++ uses 40 25) ∷ []) ≡ refuses rule.LeftOut 0 20 }
    ensures earlier { answer (procedure true 30 10 [] (uses 40 15 ++ left_out 20) ∷ []) ≡ refuses rule.UnknownName 0 15 }
    ensures first_file { answer (procedure true 30 10 [] (uses 40 90) ∷ procedure true 31 10 [] (left_out 20) ∷ []) ≡ refuses rule.UnknownName 0 90 }
    ensures one_place { answer (procedure true 31 10 [] [] ∷ body 31 10 [] ∷ []) ≡ refuses rule.UnknownName 1 10 }
{}

/// Selectors after an enclosing subprogram and after another package, private declarations, choices of aggregates.
pub fn selectors_and_choices()
    ensures enclosing_subprogram { answer (procedure true 30 10 [] (object 40 20 (integer 24) ++ loop_over 40 30 [] (selects 30 50 40 52)) ∷ []) ≡ Named (leads_to_standard 0 24 3 ∷ leads 0 50 0 10 ∷ leads 0 52 0 20 ∷ []) }
    ensures component_of_an_object { answer (procedure true 30 10 [] (object 40 20 (integer 24) ++ selects 40 50 41 52) ∷ []) ≡ Named (leads_to_standard 0 24 3 ∷ leads 0 50 0 20 ∷ []) }
    ensures private_part { answer (package_of 30 10 (list_ends ++ object 40 20 (integer 24)) ∷ (with_use 30 5 ++ procedure true 31 20 [] (uses 40 40)) ∷ []) ≡ refuses rule.UnknownName 1 40 }
    ensures private_part_in_body { answer (package_of 31 10 (procedure false 41 15 [] [] ++ list_ends ++ object 40 20 (integer 24)) ∷ body 31 10 (procedure true 41 20 [] (uses 40 40)) ∷ []) ≡ Named (leads_to_standard 0 24 3 ∷ leads 1 10 0 10 ∷ leads 1 20 0 15 ∷ leads 1 40 0 20 ∷ []) }
    ensures choice { answer (procedure true 30 10 [] (in_choice 40 20) ∷ []) ≡ Named [] }
    ensures visible_choice { answer (procedure true 30 10 [] (object 40 20 (integer 24) ++ in_choice 40 30) ∷ []) ≡ Named (leads_to_standard 0 24 3 ∷ leads 0 30 0 20 ∷ []) }
    ensures result { answer (package_of 31 10 (procedure false 41 20 (integer 25 ++ result_ends) []) ∷ q_in_body ∷ []) ≡ refuses rule.SpecMismatch 1 20 }
    ensures same_result { answer (package_of 31 10 (procedure false 41 20 (integer 25 ++ result_ends) []) ∷ body 31 10 (procedure true 41 20 (integer 25 ++ result_ends) []) ∷ []) ≡ Named (leads_to_standard 0 25 3 ∷ leads 1 10 0 10 ∷ leads 1 20 0 20 ∷ leads_to_standard 1 25 3 ∷ []) }
    ensures use_in_a_scope { answer (p_with_a ∷ (withs 30 5 ++ package_of 31 10 (procedure false 41 20 [] [])) ∷ body 31 10 (procedure true 41 20 [] (clause_uses 30 30 ++ uses 40 40)) ∷ []) ≡ Named (leads_to_standard 0 24 3 ∷ leads 1 5 0 10 ∷ leads 2 10 1 10 ∷ leads 2 20 1 20 ∷ leads 2 30 0 10 ∷ leads 2 40 0 20 ∷ []) }
    ensures use_of_an_object { answer (p_with_a ∷ (withs 30 5 ++ procedure true 31 10 [] (object 30 20 (integer 24) ++ clause_uses 30 30)) ∷ []) ≡ refuses rule.UnknownName 1 30 }
{}
