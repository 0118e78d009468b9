//! The examples of the crates' READMEs.
use fb_describe::description_of;
use fb_owned::{cells, copy, read, same};
use fb_pieces::{Cuts, cut_array};
use flatc_tool::{
    DecodeOptions, EncodeOptions, Entries, conform_texts, decode, encode, schema_of,
    split_prefixed, verify,
};
use std::test::Fail;

#[test]
fn json_becomes_a_buffer_and_is_printed(rt: HostRuntime) -> Result<(), Fail> {
    let schema = b"table Orc { name:string; hp:short = 100; } root_type Orc;";
    let layout = schema_of(rt.alloc(), schema)?;
    let json = b"{\"name\": \"Bo\", \"hp\": 100}";
    let buffer = encode(rt.alloc(), &layout, json, &EncodeOptions::new())?;
    let options = DecodeOptions::new();
    let text = decode(rt.alloc(), &layout, buffer.as_slice(), &options)?;
    assert!(rt; text.as_str() == "{\n  \"name\": \"Bo\"\n}\n");
    Ok(())
}

#[test]
fn a_new_schema_reads_old_data(rt: HostRuntime) {
    let old = b"table Orc { name:string; } root_type Orc;";
    let new = b"table Orc { name:string; hp:short; } root_type Orc;";
    assert!(rt; conform_texts(rt.alloc(), old, new).is_ok());
    assert!(rt; conform_texts(rt.alloc(), new, old).is_err());
}

#[test]
fn a_buffer_is_read_in_place(rt: HostRuntime) -> Result<(), Fail> {
    let schema = b"table Orc { name:string; hp:short = 100; } root_type Orc;";
    let layout = schema_of(rt.alloc(), schema)?;
    let options = EncodeOptions::new();
    let buffer = encode(rt.alloc(), &layout, b"{\"name\": \"Bo\"}", &options)?;
    let bytes = buffer.as_slice();
    let orc = verify(&layout, bytes, options.limits, false, &mut Entries::new())?;
    assert!(rt; orc.text(0) == Some("Bo"));
    assert!(rt; orc.number(1) == Some(100));
    Ok(())
}

#[test]
fn a_message_is_taken_from_a_stream(rt: HostRuntime) -> Result<(), Fail> {
    let stream = b"\x03\0\0\0abc\x01\0\0\0d".as_slice();
    let Some((message, rest)) = split_prefixed(stream)? else {
        return Ok(());
    };
    assert!(rt; message == b"\x03\0\0\0abc".as_slice());
    assert!(rt; rest == b"\x01\0\0\0d".as_slice());
    Ok(())
}

#[test]
fn a_value_is_owned_and_copied(rt: HostRuntime) -> Result<(), Fail> {
    let layout = schema_of(rt.alloc(), b"table Orc { name:string; } root_type Orc;")?;
    let options = EncodeOptions::new();
    let buffer = encode(rt.alloc(), &layout, b"{\"name\": \"Bo\"}", &options)?;
    let (bytes, limits) = (buffer.as_slice(), options.limits);
    let mut count = Entries::new();
    let orc = read(rt.alloc(), &layout, bytes, limits, false, &mut count)?;
    let twin = copy(rt.alloc(), &orc)?;
    assert!(rt; same(&twin, &orc));
    assert!(rt; cells(&twin) == Some(4)); // the table, the string and its two bytes
    Ok(())
}

#[test]
fn a_long_array_is_cut_into_runs(rt: HostRuntime) -> Result<(), Fail> {
    let text = b"[1,{},3,4]";
    if let Some(cuts) = Cuts::of(rt.alloc(), text, 5)? {
        let runs = cut_array(rt.alloc(), text, 0, &cuts)?;
        assert!(rt; runs.map(|runs| runs.len()) == Some(2)); // 1,{} and 3,4
    }
    Ok(())
}

#[test]
fn the_numbers_of_a_schema_are_described(rt: HostRuntime) -> Result<(), Fail> {
    let schema = b"table Orc { name:string (required); hp:short = 100; } root_type Orc;";
    let layout = schema_of(rt.alloc(), schema)?;
    let text = description_of(rt.alloc(), &layout, 120)?;
    let lines = "root type 0, Orc

type 0: table Orc
  slot 0: name, string, required
  slot 1: hp, short = 100 (2 bytes, aligned to 2)
";
    assert!(rt; text.as_str() == lines);
    Ok(())
}
