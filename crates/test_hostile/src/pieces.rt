//! JSON texts that are read in pieces of a few bytes and at once: both ways have the same outcome, and the same path to
//! what is refused.
use fb_encode::{EncodeFault, JsonTextFault, encode_text, text_fault_path};
use fb_json::{JsonContext, JsonStep};
use fb_layout::Layout;
use fb_value::Limits;
use flatc_tool::schema_of;
use std::io;

/// The bytes of a piece: from one element, or one member's text, on.
const PIECES: &[usize] = &[1, 2, 3, 5, 9, 17, 40, 100, 333];

/// Limits that some of the texts exceed.
fn limits() -> Limits {
    let Some(limits) = Limits::new(6, 2_000) else {
        unreachable!()
    };
    limits
}

/// What comes of a text in pieces of so many bytes.
#[derive(PartialEq, Drop)]
struct Read {
    encoded: Result<Vec<u8>, JsonTextFault>,
    path: Option<Vec<JsonStep>>,
}

impl Read {
    fn of(source: JsonContext, json: &[u8], piece: usize) -> Read {
        Read {
            encoded: encode_text(source, json, limits(), piece, false),
            path: match text_fault_path(source, json, limits(), piece) {
                Ok(path) => path,
                Err(_) => None,
            },
        }
    }

    /// Whether a path leads to a fault exactly where a rule is broken.
    fn is_led_to(&self) -> bool {
        self.path.is_some()
            == matches!(
                self.encoded,
                Err(JsonTextFault::Encode(EncodeFault::Json(_)))
            )
    }
}

/// The first size of pieces with which something else comes of a text than at once.
fn other_pieces(source: JsonContext, json: &[u8], whole: &Read) -> Option<usize> {
    for piece in PIECES {
        if Read::of(source, json, *piece) != *whole {
            return Some(*piece);
        }
    }
    None
}

/// Prints the outcome of a text, or with which pieces something else comes of it.
fn print_outcome(rt: &HostRuntime, layout: &Layout, json: &[u8], unknown: bool) -> io::Result<()> {
    let source = JsonContext {
        alloc: rt.alloc(),
        layout,
        unknown,
    };
    let whole = Read::of(source, json, json.len());
    if !whole.is_led_to() {
        return println!(rt; "another path than the outcome has");
    }
    if let Some(piece) = other_pieces(source, json, &whole) {
        return println!(rt; "another outcome or path in pieces of {piece}");
    }
    let told = match whole.encoded {
        Ok(_) => "a buffer",
        Err(JsonTextFault::BadJson) => "no JSON",
        Err(JsonTextFault::Memory) => "no memory",
        Err(JsonTextFault::Encode(fault)) => return println!(rt; "{fault}"),
    };
    println!(rt; "{told}")
}

fn tell_outcomes(rt: &HostRuntime, schema: &[u8], json: &[u8]) -> io::Result<()> {
    match schema_of(rt.alloc(), schema) {
        Ok(layout) => {
            print_outcome(rt, &layout, json, false)?;
            print_outcome(rt, &layout, json, true)
        }
        Err(_) => println!(rt; "the schema is refused"),
    }
}

/// Tells the outcomes of a line, which has a schema text and a JSON text, with a tab between the two.
pub(crate) fn tell_pieces(rt: &HostRuntime, line: &str) -> io::Result<()> {
    match line.split_once('\t') {
        Some((schema, json)) => tell_outcomes(rt, schema.as_bytes(), json.as_bytes()),
        None => println!(rt; "no row"),
    }
}
