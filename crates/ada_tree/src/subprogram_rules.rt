//! What becomes of subprograms, aspects and pragmas (Ada RM 2.8, 6.1, 6.3, 13.1.1).

ghost use Rattle.std.specs.Prelude.{◌≡◌, OnOk};
ghost use Rattle.ada_tree.specs.Subprograms.{aspect_rule, body_rule, mode_rule, param_rule, subprogram_rule};

use crate::rules::{AspectRule, BodyRule, ModeRule, ParamRule, SubprogramRule};
use ada_syntax::{Aspect, Body, Mode, Param, Pragma, Sub};
use std::alloc::Global;
use tree_parts::{Chain, DeclarationPart, Ended, Parts, Starved, SubprogramPart, item_end, joined};

/// Takes the parts of a production from the front, and puts there what the rule makes of them.
pub fn apply_subprogram(
    alloc: Global,
    rule: SubprogramRule,
    parts: &mut Parts,
) -> Result<(), Starved>
    ensures { OnOk result (parts.new ≡ subprogram_rule rule parts.old) }
{
    match rule {
        // Sub = procedure Id Params Asp Body
        SubprogramRule::Procedure => {
            let start = parts.place();
            let name = parts.place();
            let params = parts.subprogram().params(alloc);
            let aspects = parts.subprogram().aspects(alloc);
            let body = parts.declaration().body();
            parts.put_declaration(
                alloc,
                DeclarationPart::Sub(Sub {
                    span: joined(start, body.end),
                    name,
                    params: params.into_items(),
                    result: None,
                    aspects: aspects.into_items(),
                    body: body.value,
                }),
            )
        }
        // Sub = function Id Params return Name Asp Body
        SubprogramRule::Function => {
            let start = parts.place();
            let name = parts.place();
            let params = parts.subprogram().params(alloc);
            parts.skip();
            let mark = parts.expression().name(alloc);
            let aspects = parts.subprogram().aspects(alloc);
            let body = parts.declaration().body();
            parts.put_declaration(
                alloc,
                DeclarationPart::Sub(Sub {
                    span: joined(start, body.end),
                    name,
                    params: params.into_items(),
                    result: Some(mark),
                    aspects: aspects.into_items(),
                    body: body.value,
                }),
            )
        }
    }
}

/// Takes the parts of a production from the front, and puts there what the rule makes of them.
pub fn apply_body(alloc: Global, rule: BodyRule, parts: &mut Parts) -> Result<(), Starved>
    ensures { OnOk result (parts.new ≡ body_rule rule parts.old) }
{
    match rule {
        // Body = ;
        BodyRule::NoBody => {
            let end = parts.place();
            parts.put_declaration(alloc, DeclarationPart::Body(Ended { value: None, end }))
        }
        // Body = is Decls begin Stmts end EndId ;
        BodyRule::SomeBody => {
            parts.skip();
            let decls = parts.declaration().decls(alloc);
            parts.skip();
            let stmts = parts.statement(alloc).stmts(alloc);
            parts.skip();
            let end_name = parts.unit().end_name();
            let end = parts.place();
            parts.put_declaration(
                alloc,
                DeclarationPart::Body(Ended {
                    value: Some(Body {
                        declarations: decls.into_items(),
                        statements: stmts.into_items(),
                        end_name,
                    }),
                    end,
                }),
            )
        }
    }
}

/// Takes the parts of a production from the front, and puts there what the rule makes of them.
pub fn apply_param(alloc: Global, rule: ParamRule, parts: &mut Parts) -> Result<(), Starved>
    ensures { OnOk result (parts.new ≡ param_rule rule parts.old) }
{
    match rule {
        // Params = ( Param ParMore )
        ParamRule::ParamGroup => {
            parts.skip();
            let param = parts.subprogram().param(alloc);
            let params = parts.subprogram().params(alloc);
            parts.skip();
            let params = params.with_first(param)?;
            parts.put_subprogram(alloc, SubprogramPart::Params(params))
        }
        // Params = | ParMore =
        ParamRule::NoParams => {
            parts.put_subprogram(alloc, SubprogramPart::Params(Chain::new(alloc)))
        }
        // ParMore = ; Param ParMore
        ParamRule::Params => {
            parts.skip();
            let param = parts.subprogram().param(alloc);
            let params = parts.subprogram().params(alloc).with_first(param)?;
            parts.put_subprogram(alloc, SubprogramPart::Params(params))
        }
        // Param = Id Ids : Mode SubInd
        ParamRule::Param => {
            let name = parts.place();
            let names = parts.unit().names(alloc);
            parts.skip();
            let mode = parts.subprogram().mode();
            let subtype = parts.type_part().sub_ind(alloc);
            let names = names.with_first(name)?;
            parts.put_subprogram(
                alloc,
                SubprogramPart::Param(Param {
                    span: joined(name, subtype.span),
                    names: names.into_items(),
                    mode,
                    subtype,
                }),
            )
        }
    }
}

/// Takes the parts of a production from the front, and puts there what the rule makes of them.
pub fn apply_mode(alloc: Global, rule: ModeRule, parts: &mut Parts) -> Result<(), Starved>
    ensures { OnOk result (parts.new ≡ mode_rule rule parts.old) }
{
    match rule {
        // Mode = out
        ModeRule::ModeOut => {
            parts.skip();
            parts.put_subprogram(alloc, SubprogramPart::Mode(Mode::Out))
        }
        // Mode =
        ModeRule::ModeUnstated => {
            parts.put_subprogram(alloc, SubprogramPart::Mode(Mode::Unstated))
        }
        // InOut = out
        ModeRule::ModeInOut => {
            parts.skip();
            parts.put_subprogram(alloc, SubprogramPart::Mode(Mode::InOut))
        }
        // InOut =
        ModeRule::ModeIn => { parts.put_subprogram(alloc, SubprogramPart::Mode(Mode::In)) }
    }
}

/// Takes the parts of a production from the front, and puts there what the rule makes of them.
pub fn apply_aspect(alloc: Global, rule: AspectRule, parts: &mut Parts) -> Result<(), Starved>
    ensures { OnOk result (parts.new ≡ aspect_rule rule parts.old) }
{
    match rule {
        // Asp = with Aspect AspMore | AspMore = , Aspect AspMore
        AspectRule::Aspects => {
            parts.skip();
            let aspect = parts.subprogram().aspect();
            let aspects = parts.subprogram().aspects(alloc).with_first(aspect)?;
            parts.put_subprogram(alloc, SubprogramPart::Aspects(aspects))
        }
        // Asp = | AspMore =
        AspectRule::NoAspects => {
            parts.put_subprogram(alloc, SubprogramPart::Aspects(Chain::new(alloc)))
        }
        // Aspect = Id AspVal
        AspectRule::Aspect => {
            let name = parts.place();
            let value = parts.item().optional_item();
            parts.put_subprogram(
                alloc,
                SubprogramPart::Aspect(Aspect {
                    span: joined(name, item_end(&value, name)),
                    name,
                    value,
                }),
            )
        }
        // Pragma = pragma Id PragArg ;
        AspectRule::Pragma => {
            let start = parts.place();
            let name = parts.place();
            let args = parts.item().args(alloc);
            let end = parts.place();
            parts.put_declaration(
                alloc,
                DeclarationPart::Pragma(Pragma {
                    span: joined(start, end),
                    name,
                    args: args.into_items(),
                }),
            )
        }
    }
}
