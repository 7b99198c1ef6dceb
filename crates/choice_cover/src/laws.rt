//! What covers have.

ghost use Rattle.std.specs.Prelude.{◌≡◌, ℤ, List};
ghost use Rattle.typed_units.specs.declared.operators.Bounds.{Bounds};
ghost use Rattle.choice_cover.specs.declared.cover.Cover.{Cover};
ghost use Rattle.std.specs.Ordering.{int_eq};
ghost use Rattle.choice_cover.specs.Cover.{AtMostOnce, IsCover};
ghost use Rattle.choice_cover.specs.Covering.{covering, is_full};
ghost use Rattle.choice_cover.specs.Sizes.{size, sizes};

/// One answer alone is right, and `covering` is it. Ranges that hold no value twice, and none that is not asked for, hold each
/// value exactly where they have as many values as are asked for.
pub fn laws_of_covers()
    ensures one { (ranges : List Bounds) (lo : ℤ) (hi : ℤ) (c : Cover) (d : Cover) → IsCover ranges lo hi c → IsCover ranges lo hi d → c ≡ d }
    ensures function { (ranges : List Bounds) (lo : ℤ) (hi : ℤ) → IsCover ranges lo hi (covering ranges lo hi) }
    ensures sized { (ranges : List Bounds) (lo : ℤ) (hi : ℤ) → AtMostOnce lo hi ranges → is_full lo hi ranges ≡ int_eq (sizes ranges) (size lo hi) }
{}
