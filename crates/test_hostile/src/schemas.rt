//! The calls on schema texts.
use crate::arming::{CallOutcome, arm, disarm};
use crate::examples::Example;
use fb_declare::declare;
use fb_layout::{Layout, LayoutFault, lay};
use fb_schema::Schema;
use fb_syntax::parse;
use flatc_tool::schema_of;

fn is_declared(example: &Example, schema: &Schema) -> bool {
    schema.types().len() == example.types && schema.find("T") == Some(schema.root())
}

fn is_laid(example: &Example, layout: &Layout) -> bool {
    is_declared(example, layout.schema()) && layout.greatest() == example.align
}

fn try_parse(rt: &HostRuntime, example: &Example, arms: bool) -> CallOutcome {
    arm(rt, arms);
    let answer = parse(rt.alloc(), example.schema);
    disarm(rt, arms);
    let decls = match answer {
        Ok(decls) => decls,
        Err(fault) => return CallOutcome::of_refusal(fault.number()),
    };
    match declare(rt.alloc(), &decls) {
        Ok(schema) => CallOutcome::of(is_declared(example, &schema)),
        Err(_) => CallOutcome::Wrong,
    }
}

fn try_declare(rt: &HostRuntime, example: &Example, arms: bool) -> CallOutcome {
    let Ok(decls) = parse(rt.alloc(), example.schema) else {
        return CallOutcome::Wrong;
    };
    arm(rt, arms);
    let answer = declare(rt.alloc(), &decls);
    disarm(rt, arms);
    match answer {
        Ok(schema) => CallOutcome::of(is_declared(example, &schema)),
        Err(fault) => CallOutcome::of_refusal(fault.number()),
    }
}

fn schema_in(rt: &HostRuntime, example: &Example) -> Option<Schema> {
    match parse(rt.alloc(), example.schema) {
        Ok(decls) => declare(rt.alloc(), &decls).ok(),
        Err(_) => None,
    }
}

/// Want of memory of `lay`, which is right where the schema that it gave back can be laid.
fn of_returned(rt: &HostRuntime, example: &Example, schema: Schema) -> CallOutcome {
    match lay(rt.alloc(), schema) {
        Ok(layout) => if is_laid(example, &layout) {
            CallOutcome::Short(32)
        } else {
            CallOutcome::Wrong
        },
        Err(_) => CallOutcome::Wrong,
    }
}

fn try_lay(rt: &HostRuntime, example: &Example, arms: bool) -> CallOutcome {
    let Some(schema) = schema_in(rt, example) else {
        return CallOutcome::Wrong;
    };
    arm(rt, arms);
    let answer = lay(rt.alloc(), schema);
    disarm(rt, arms);
    match answer {
        Ok(layout) => CallOutcome::of(is_laid(example, &layout)),
        Err((LayoutFault::Memory, schema)) => of_returned(rt, example, schema),
        Err(_) => CallOutcome::Wrong,
    }
}

fn try_schema_of(rt: &HostRuntime, example: &Example, arms: bool) -> CallOutcome {
    arm(rt, arms);
    let answer = schema_of(rt.alloc(), example.schema);
    disarm(rt, arms);
    match answer {
        Ok(layout) => CallOutcome::of(is_laid(example, &layout)),
        Err(fault) => CallOutcome::of_refusal(fault.number()),
    }
}

/// What comes of a call on a schema text; None where it is none of these.
pub(crate) fn try_schema_call(
    rt: &HostRuntime,
    call: &str,
    example: &Example,
    arms: bool,
) -> Option<CallOutcome> {
    match call {
        "parse" => Some(try_parse(rt, example, arms)),
        "declare" => Some(try_declare(rt, example, arms)),
        "lay" => Some(try_lay(rt, example, arms)),
        "schema_of" => Some(try_schema_of(rt, example, arms)),
        _ => None,
    }
}
