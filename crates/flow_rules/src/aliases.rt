//! Aliases in calls.

ghost use Rattle.std.specs.Prelude.{◌≡◌, [], ◌∷◌};
ghost use Rattle.typed_units.specs.Syntax.{global, local};
ghost use Rattle.ada_semantics.specs.Cases.Parts.{of_p};
ghost use Rattle.flow_rules.specs.Cases.{at_place, getting, getting_part, lending, lending_part, name_as, passing, pair_type, row_type, integer_type};
ghost use Rattle.flow_rules.specs.Cases.Calls.{component_in, converted, faults_of, first_at, item_number, second_at};

/// F4: no written actual overlaps another that is written or is of array or record type. It stands at the later one.
pub fn overlapping_actuals()
    ensures one_object { faults_of (lending 0 9 first_at (local 0) ∷ lending 1 9 second_at (local 0) ∷ []) [] [] ≡ at_place 4 9 20 ∷ [] }
    ensures two_objects { faults_of (lending 0 9 first_at (local 0) ∷ lending 1 9 second_at (local 1) ∷ []) [] [] ≡ [] }
    ensures out_actuals { faults_of (getting 0 9 first_at (local 0) ∷ getting 1 9 second_at (local 0) ∷ []) [] [] ≡ at_place 4 9 20 ∷ [] }
    ensures components { faults_of (lending_part 0 9 first_at (local 0) (of_p 0 ∷ []) ∷ lending_part 1 9 second_at (local 0) (of_p 1 ∷ []) ∷ []) [] [] ≡ [] }
    ensures one_component { faults_of (lending_part 0 9 first_at (local 0) (of_p 0 ∷ []) ∷ lending_part 1 9 second_at (local 0) (of_p 0 ∷ []) ∷ []) [] [] ≡ at_place 4 9 20 ∷ [] }
    ensures whole_and_component { faults_of (lending 0 9 first_at (local 0) ∷ lending_part 1 9 second_at (local 0) (of_p 1 ∷ []) ∷ []) [] [] ≡ at_place 4 9 20 ∷ [] }
    ensures items { faults_of (lending_part 0 9 first_at (local 0) (item_number 15 1 ∷ []) ∷ lending_part 1 9 second_at (local 0) (item_number 23 2 ∷ []) ∷ []) [] [] ≡ at_place 4 9 20 ∷ [] }
    ensures components_of_items { faults_of (lending_part 0 9 first_at (local 0) (item_number 15 1 ∷ of_p 0 ∷ []) ∷ lending_part 1 9 second_at (local 0) (item_number 25 1 ∷ of_p 1 ∷ []) ∷ []) [] [] ≡ [] }
{}

/// F4: an `in` actual is copied where it is scalar; of array or record type it overlaps by its name.
pub fn actuals_that_are_read()
    ensures scalar { faults_of (passing 0 (name_as integer_type 9 first_at (local 0)) ∷ getting 1 9 second_at (local 0) ∷ []) [] [] ≡ [] }
    ensures array { faults_of (passing 0 (name_as row_type 9 first_at (local 0)) ∷ getting 1 9 second_at (local 0) ∷ []) [] [] ≡ at_place 4 9 20 ∷ [] }
    ensures array_later { faults_of (getting 0 9 first_at (local 0) ∷ passing 1 (name_as row_type 9 second_at (local 0)) ∷ []) [] [] ≡ at_place 4 9 20 ∷ [] }
    ensures both_read { faults_of (passing 0 (name_as row_type 9 first_at (local 0)) ∷ passing 1 (name_as row_type 9 second_at (local 0)) ∷ []) [] [] ≡ [] }
    ensures converted { faults_of (getting 0 9 first_at (local 0) ∷ passing 1 (converted pair_type 20 (name_as pair_type 9 23 (local 0))) ∷ []) [] [] ≡ at_place 4 9 20 ∷ [] }
    ensures other_component { faults_of (getting_part 0 9 first_at (local 0) (of_p 0 ∷ []) ∷ passing 1 (component_in row_type 20 1 (local 0)) ∷ []) [] [] ≡ [] }
    ensures same_component { faults_of (getting_part 0 9 first_at (local 0) (of_p 1 ∷ []) ∷ passing 1 (component_in row_type 20 1 (local 0)) ∷ []) [] [] ≡ at_place 4 9 20 ∷ [] }
    ensures first_pair { faults_of (getting 0 9 first_at (local 0) ∷ getting 1 9 second_at (local 0) ∷ getting 2 9 28 (local 0) ∷ []) [] [] ≡ at_place 4 9 20 ∷ [] }
{}

/// F5: no written actual is a global in the callee's effects, and none of array or record type is one that the callee writes.
pub fn actuals_that_are_globals()
    ensures read { faults_of (getting 0 9 first_at (global 0) ∷ []) (0 ∷ []) [] ≡ at_place 5 9 12 ∷ [] }
    ensures written { faults_of (getting 0 9 first_at (global 0) ∷ []) [] (0 ∷ []) ≡ at_place 5 9 12 ∷ [] }
    ensures neither { faults_of (getting 0 9 first_at (global 0) ∷ []) (1 ∷ []) (1 ∷ []) ≡ [] }
    ensures local { faults_of (getting 0 9 first_at (local 0) ∷ []) (0 ∷ []) (0 ∷ []) ≡ [] }
    ensures part { faults_of (getting_part 0 9 first_at (global 1) (item_number 15 1 ∷ []) ∷ []) (1 ∷ []) [] ≡ at_place 5 9 12 ∷ [] }
    ensures array_written { faults_of (passing 0 (name_as row_type 9 first_at (global 1)) ∷ []) [] (1 ∷ []) ≡ at_place 5 9 12 ∷ [] }
    ensures array_read { faults_of (passing 0 (name_as row_type 9 first_at (global 1)) ∷ []) (1 ∷ []) [] ≡ [] }
    ensures scalar_written { faults_of (passing 0 (name_as integer_type 9 first_at (global 0)) ∷ []) [] (0 ∷ []) ≡ [] }
{}
