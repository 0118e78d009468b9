//! A schema text that is checked alone.
use super::usual_limits;
use flatc_tool::check;

#[test]
fn a_schema_passes(rt: HostRuntime) {
    let schema = b"table T { a:int; } root_type T;";
    assert!(rt; check(rt.alloc(), schema, None, usual_limits(), false).is_ok());
}
