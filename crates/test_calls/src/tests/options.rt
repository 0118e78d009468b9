//! What a job is done with unless it is told otherwise.
use flatc_tool::{DecodeOptions, EncodeOptions, Limits};

fn is_usual(limits: Limits) -> bool {
    limits.most_depth() == 64 && limits.most_cells() == 100_000_000
}

#[test]
fn the_identifier_and_unknown_fields_matter_and_defaults_are_left_out(rt: HostRuntime) {
    let encoding = EncodeOptions::default();
    assert!(rt; is_usual(encoding.limits) && !encoding.unknown_json);
    let decoding = DecodeOptions::default();
    assert!(rt; is_usual(decoding.limits) && !decoding.raw_binary && !decoding.defaults_json);
}
