//! What becomes of declarations (Ada RM 3.2.1, 3.2.2, 3.3.1, 3.11, 8.4).

ghost use Rattle.std.specs.Prelude.{◌≡◌, OnOk};
ghost use Rattle.ada_tree.specs.Declarations.{declaration_rule, object_rule, other_declaration_rule};

use crate::rules::{DeclarationRule, ObjectRule, OtherDeclarationRule};
use ada_syntax::{DeclForm, Object};
use std::alloc::Global;
use tree_parts::{Chain, DeclarationPart, Parts, Starved, joined};

/// Takes the parts of a production from the front, and puts there what the rule makes of them.
pub fn apply_declaration(
    alloc: Global,
    rule: DeclarationRule,
    parts: &mut Parts,
) -> Result<(), Starved>
    ensures { OnOk result (parts.new ≡ declaration_rule rule parts.old) }
{
    match rule {
        // Decls = Decl Decls
        DeclarationRule::Decls => {
            let decl = parts.declaration().decl(alloc)?;
            let decls = parts.declaration().decls(alloc).with_first(decl)?;
            parts.put_declaration(alloc, DeclarationPart::Decls(decls))
        }
        // Decls =
        DeclarationRule::NoDecls => {
            parts.put_declaration(alloc, DeclarationPart::Decls(Chain::new(alloc)))
        }
        // Decl = type Id is TypeDef ;
        DeclarationRule::Type => {
            let start = parts.place();
            let name = parts.place();
            parts.skip();
            let definition = parts.type_part().type_def(alloc)?;
            let end = parts.place();
            parts.put_decl(alloc, joined(start, end), DeclForm::Type(name, definition))
        }
        // Decl = subtype Id is SubInd ;
        DeclarationRule::Subtype => {
            let start = parts.place();
            let name = parts.place();
            parts.skip();
            let subtype = parts.type_part().sub_ind(alloc);
            let end = parts.place();
            parts.put_decl(alloc, joined(start, end), DeclForm::Subtype(name, subtype))
        }
        // Decl = Id Ids : Obj ;
        DeclarationRule::Object => {
            let name = parts.place();
            let names = parts.unit().names(alloc);
            parts.skip();
            let object = parts.declaration().object();
            let end = parts.place();
            let names = names.with_first(name)?;
            parts.put_decl(
                alloc,
                joined(name, end),
                DeclForm::Object(names.into_items(), object),
            )
        }
    }
}

/// Takes the parts of a production from the front, and puts there what the rule makes of them.
pub fn apply_other_declaration(
    alloc: Global,
    rule: OtherDeclarationRule,
    parts: &mut Parts,
) -> Result<(), Starved>
    ensures { OnOk result (parts.new ≡ other_declaration_rule rule parts.old) }
{
    match rule {
        // Decl = Sub
        OtherDeclarationRule::DeclSub => {
            let sub = parts.declaration().sub(alloc);
            parts.put_decl(alloc, sub.span, DeclForm::Sub(sub))
        }
        // Decl = Pragma
        OtherDeclarationRule::DeclPragma => {
            let pragma = parts.declaration().pragma(alloc);
            parts.put_decl(alloc, pragma.span, DeclForm::Pragma(pragma))
        }
        // Decl = use Id Ids ;
        OtherDeclarationRule::DeclUse => {
            let start = parts.place();
            let name = parts.place();
            let names = parts.unit().names(alloc);
            let end = parts.place();
            let names = names.with_first(name)?;
            parts.put_decl(alloc, joined(start, end), DeclForm::Use(names.into_items()))
        }
    }
}

/// Takes the parts of a production from the front, and puts there what the rule makes of them.
pub fn apply_object(alloc: Global, rule: ObjectRule, parts: &mut Parts) -> Result<(), Starved>
    ensures { OnOk result (parts.new ≡ object_rule rule parts.old) }
{
    match rule {
        // Obj = SubInd Init
        ObjectRule::Variable => {
            let subtype = parts.type_part().sub_ind(alloc);
            let value = parts.item().optional_expr();
            parts.put_declaration(
                alloc,
                DeclarationPart::Object(Object {
                    constant: false,
                    subtype: Some(subtype),
                    value,
                }),
            )
        }
        // Const = := Expr
        ObjectRule::NamedNumber => {
            parts.skip();
            let value = parts.expression().expr(alloc)?;
            parts.put_declaration(
                alloc,
                DeclarationPart::Object(Object {
                    constant: true,
                    subtype: None,
                    value: Some(value),
                }),
            )
        }
        // Const = SubInd Init
        ObjectRule::Constant => {
            let subtype = parts.type_part().sub_ind(alloc);
            let value = parts.item().optional_expr();
            parts.put_declaration(
                alloc,
                DeclarationPart::Object(Object {
                    constant: true,
                    subtype: Some(subtype),
                    value,
                }),
            )
        }
    }
}
