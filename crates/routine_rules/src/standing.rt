//! The aspects that stand on a declaration (Ada RM 13.1.1).

ghost use Rattle.std.specs.Prelude.{◌≡◌, ◌∷◌, ℕ, List, []};
ghost use Rattle.routine_rules.specs.Standing.{HasAspects};
ghost use Rattle.statement_typing.specs.Aspects.{aspect_number, may_stand};

use name_numbers::Word;

/// The aspects that have stood so far: any that is no contract is one.
#[derive(Clone, Copy)]
pub struct Standing {
    pre: bool,
    post: bool,
    global: bool,
    other: bool,
}

impl Standing {
    /// None so far.
    pub fn none() -> Standing
        ensures { HasAspects result [] }
    {
        Standing {
            pre: false,
            post: false,
            global: false,
            other: false,
        }
    }

    /// Whether one more may stand: once, and a contract on the first declaration.
    pub fn may_stand(self, first: bool, word: Option<Word>) -> bool
        ensures { (numbers : List ℕ) → HasAspects self numbers → result ≡ may_stand first numbers (aspect_number word) }
    {
        match word {
            Some(Word::Pre) => first && !self.pre,
            Some(Word::Post) => first && !self.post,
            Some(Word::Global) => first && !self.global,
            _ => !self.other,
        }
    }

    /// With one more.
    pub fn after(self, word: Option<Word>) -> Standing
        ensures { (numbers : List ℕ) → HasAspects self numbers → HasAspects result (aspect_number word ∷ numbers) }
    {
        match word {
            Some(Word::Pre) => Standing { pre: true, ..self },
            Some(Word::Post) => Standing { post: true, ..self },
            Some(Word::Global) => Standing {
                global: true,
                ..self
            },
            _ => Standing {
                other: true,
                ..self
            },
        }
    }
}
