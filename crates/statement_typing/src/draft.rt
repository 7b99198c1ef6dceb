//! A program that is being typed.

use crate::subs::Subs;
use ada_values::NameText;
use sqlite_items::Items;
use type_base::World;
use typed_units::{Global, Local, Stmt};

/// A program that is being typed.
pub struct Draft {
    pub world: World,
    /// The names of the world's subtypes, None where they are anonymous.
    pub names: Items<Option<NameText>>,
    /// All globals of the program. Before its declaration is typed one has its name alone.
    pub globals: Items<Global>,
    /// All subprograms of the program. Before its declaration is typed one has its name alone, and before its body is typed
    /// no locals, statements and loops.
    pub subs: Subs,
    /// The local objects of the subprogram whose body is typed, so far.
    pub locals: Items<Local>,
    /// The statements of its declarative part, so far.
    pub opening: Items<Stmt>,
}

// Written out, so that crates that let a draft go need no proof of their own.
impl Drop for Draft {
    fn drop(self) {
        let Draft {
            world,
            names,
            globals,
            subs,
            locals,
            opening,
        } = self;
        drop(world);
        drop(names);
        drop(globals);
        drop(subs);
        drop(locals);
        drop(opening);
    }
}
